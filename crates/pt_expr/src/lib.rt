//! The trees of the expression language, and the values that they have.
#![tactic(auto)]

mod env;
mod evaluation;
mod operators;
mod quick;

pub use env::Env;
pub use evaluation::eval;
pub use quick::{integer, truth_value};
