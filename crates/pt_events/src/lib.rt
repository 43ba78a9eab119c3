//! The queue of events of a DE composite, and the depths of its children.
#![tactic(auto)]

mod depth;
mod feeders;
mod found;
mod hints;
mod laws;
mod queue;
mod search;
mod stores;
mod walk;

pub use depth::{DepthFault, are_between, depths};
pub use laws::{
    depths_are_alone, depths_exclude_loops, equal_entries_count, event_examples,
    what_is_taken_is_least,
};
pub use queue::EventQueue;
