//! The core of the PN director by definition, whatever its code: its states, what its events and calls do to them, and that a chain of them makes the firing.
#![tactic(auto)]

mod laws;

pub use laws::{calls_are_pn, firings_are_pn, pn_is_lawful, something_comes};
