//! The transitions of a chart: which one is taken in a state, and what comes of it.
#![tactic(auto)]

mod chart;
mod lists;
mod reaction;
mod signal;

pub use chart::Chart;
pub use lists::{copied_inputs, copied_lists};
pub use reaction::{Move, Reaction};
pub use signal::Signal;
