//! The core of the Rendezvous director by definition, whatever its code: its states, what its calls do to them, and that a chain of them makes the firing.
#![tactic(auto)]

mod laws;

pub use laws::{calls_are_rv, firings_are_rv, meetings_are_apart, rv_is_lawful, something_comes};
