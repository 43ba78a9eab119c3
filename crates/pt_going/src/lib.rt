//! How far the run of a job has come, and how far blocks of iterations bring that of an SDF top without inputs.
#![tactic(auto)]

mod ahead;
mod blocks;

pub use ahead::{last_after, run_ahead};
