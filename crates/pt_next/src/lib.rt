//! What a job asks of its top next: a firing on these inputs, or the end.
#![tactic(auto)]

mod de;
mod once;
mod sdf;
mod sr;
mod turn;

pub use turn::{End, Firing, Turn, end_told, next_turn, past_limit};
