//! The report of a run, from what the tree has recorded.
#![tactic(auto)]

mod reporting;

pub use reporting::{numbers_stay, report};
