//! Schedules of a dataflow graph: orders of firings in which none lacks a token.
#![tactic(auto)]

mod edge;
mod forward;
mod hints;
mod laws;
mod lists;
mod plan;
mod run;
mod search;
mod stretch;
mod times;

pub use edge::{SchedEdge, are_channels};
pub use laws::{
    deadlocks_exclude_schedules, runs_keep_lengths, schedules_restore_lengths, stuck_runs_agree,
};
pub use plan::{Plan, SchedFault, schedule};
pub use stretch::Stretch;
