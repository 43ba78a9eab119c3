//! Queues in one region of cells, which are linked by index.
#![tactic(auto)]

mod cells;
mod links;
mod pool;

pub use cells::Cells;
pub use pool::Pool;
