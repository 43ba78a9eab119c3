//! The parameters that are seen around the entities of a net, and the ports of an entity by their names.
#![tactic(auto)]

mod entities;
mod frames;
mod port_numbers;

pub use entities::{has_modal, is_modal, values_at};
pub use frames::{Frame, Frames, names_of_tokens};
pub use port_numbers::PortNumbers;
