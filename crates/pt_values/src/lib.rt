//! What the texts of a net come to: parameters, Variables, rates and what comes to inputs.
#![tactic(auto)]

mod classes;
mod constants;
mod entity;
mod inputs;
mod parameters;
mod walk;

pub use classes::{Owner, class_parameters};
pub use parameters::{in_turn, value_at, variables};
pub use walk::{Walk, values_of};
