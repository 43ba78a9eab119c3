//! The balance equations of a dataflow graph, and their least positive solution.
#![tactic(auto)]

mod edge;
mod laws;
mod parts;
mod rates;
mod ratio;

pub use edge::Edge;
pub use laws::{repetitions_are_unique, solutions_exclude_faults};
pub use rates::{RatesFault, are_channels, solve};
