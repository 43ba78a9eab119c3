//! Firings outside of rows: those of children that take and give integers, several of them too, of a library actor whatever it takes, and what fires whole trees, as a trait.
#![tactic(auto)]

mod numbers;
mod step;
mod trees;

pub use numbers::{Buffers, several, tell_numbers};
pub use step::fire_actor;
pub use trees::FiresTrees;
