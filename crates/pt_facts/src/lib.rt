//! What a check tells of a model, and the text of it.
#![tactic(auto)]

mod facts;

pub use facts::{Facts, check_text};
