//! Firings of one child under SDF that are in a row, made at once where it takes and gives integers.
#![tactic(auto)]

mod rows;
mod stretch;

pub use rows::rows_go_on;
pub use stretch::fire_stretch;
