//! The net of a model: its entities, and the channels between them.
#![tactic(auto)]

mod channels;
mod flattening;
mod groups;
mod origins;
mod sources;

pub use flattening::flatten;
