//! Tokens one after another, each with a tag, where integers at the tag of the first take no more room than they are.
#![tactic(auto)]

mod tagged;

pub use tagged::Tagged;
