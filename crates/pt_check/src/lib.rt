//! The facts that a check tells of a net and of its tree of nodes.
#![tactic(auto)]

mod children;
mod facts;
mod marks;
mod types;

pub use facts::facts_of;
