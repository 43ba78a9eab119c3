//! The chart of a Modal composite as data: states, and transitions with guards and actions as expressions.
#![tactic(auto)]

mod typed;
mod written;

pub use typed::is_typed_machine;
pub use written::{Action, Mode, Names, Ports, Transition, Written, copied_tokens, refinement_of};
