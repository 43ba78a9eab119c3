//! Firings of children one after another that take and give integers, without lists of tokens.
#![tactic(auto)]

mod meetings;
mod numbers;

pub use meetings::fire_meetings;
pub use numbers::fire_numbers;
