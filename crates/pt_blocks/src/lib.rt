//! Several iterations of an SDF top at once.
#![tactic(auto)]

mod block;
mod blocks;
mod children;

pub use block::fire_block;
pub use blocks::Blocks;
