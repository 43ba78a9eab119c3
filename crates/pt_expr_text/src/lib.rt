//! The text of expressions: its words, its grammar, and the reading of it.
#![tactic(auto)]

mod deep;
mod descent;
mod front;
mod literal;
mod node;
mod parser;
mod words;

pub use parser::parse;
pub use words::split;
