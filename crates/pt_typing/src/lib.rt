//! The least types of variables that meet inequalities between terms of types and variables.
#![tactic(auto)]

mod numbers;
mod rule;
mod term;
mod typing;
mod variable;

pub use numbers::Numbers;
pub use term::{Inequality, Term, TreeTerm};
pub use typing::{Typing, least_typing};
pub use variable::Variable;
