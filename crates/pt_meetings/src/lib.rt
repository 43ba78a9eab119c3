//! The meetings that the nodes of a tree have recorded, as a report lists them.
#![tactic(auto)]

mod laws;
mod meetings;
mod table;

pub use laws::{built_nodes_stand, lists_tell_meetings};
pub use meetings::write_meetings_of;
