//! What the events of processes make of the state that contracts see of a core of the PN director, and which channel grows. Laws alone.
#![tactic(auto)]

mod laws;

pub use laws::{events_are_seen, the_best_grows};
