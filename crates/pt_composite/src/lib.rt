//! A composite from the nodes of its children, by its director.
#![tactic(auto)]

mod composing;

pub use composing::composite;
