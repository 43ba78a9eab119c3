//! Firings under DE one after another that give one integer at most.
#![tactic(auto)]

mod events;

pub use events::{fire_events, first_reaction};
