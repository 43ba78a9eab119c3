//! The turns of the children of a composite: what a firing comes to with them, and what its director is told.
#![tactic(auto)]

mod rest;
mod tokens;
mod turn;
mod within;

pub use rest::Rest;
pub use tokens::tell_tokens;
pub use turn::{Turn, refuse, tell};
pub use within::{Within, fault_at};
