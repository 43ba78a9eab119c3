//! The core of the Modal director by definition, whatever its code: its states, what its calls do to them, and that a chain of calls makes the reaction.
#![tactic(auto)]

mod laws;

pub use laws::{calls_are_modal, modal_is_lawful, something_comes};
