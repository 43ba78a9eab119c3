//! What comes to the inputs of a DE top, and when it fires next.
#![tactic(auto)]

mod due;
mod events;
mod turn;

pub use events::{are_ascending, first_event, tokens_at};
pub use turn::{Turn, next_turn};
