//! The node of a composite that has not fired.
#![tactic(auto)]

mod node;

pub use node::{composite_node, recording_node};
