//! The types that texts say.
#![tactic(auto)]

mod said;
mod words;

pub use said::{ty_said, type_in};
