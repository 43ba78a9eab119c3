//! Rows of firings of the children of a composite, by the core of its director.
#![tactic(auto)]

mod rows;
mod stretches;

pub use rows::{fire_row, first_row};
