//! The machine of a Modal entity by definition, or the cause for which it has none.
#![tactic(auto)]

mod cause;
mod laws;

pub use cause::Cause;
pub use laws::{machines_are_clean, machines_suit};
