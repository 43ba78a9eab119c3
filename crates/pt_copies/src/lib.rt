//! What a net has of its job as it is there: its entities with all that they declare, its inputs and its records.
#![tactic(auto)]

mod copied;
mod copies;
mod entities;

pub use copies::{inputs, texts};
pub use entities::{net_entities, transparent_composites};
