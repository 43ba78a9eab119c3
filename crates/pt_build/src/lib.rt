//! The tree of nodes that an engine fires, from a net.
#![tactic(auto)]

mod building;
mod nodes;

pub use building::build;
