//! Running the top of a tree of nodes as a job says.
#![tactic(auto)]

mod reactions;
mod running;

pub use running::{Ran, run};
