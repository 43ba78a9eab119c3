//! What a reaction of a DE composite holds of tokens: those of each channel at the tag, and what is put on them.
#![tactic(auto)]

mod channels;
mod feeds;
mod given;
mod line;
mod marks;
mod offsets;

pub use channels::Channels;
pub use feeds::{Feed, feeds_of};
pub use given::{copy_of, stage_inputs, stage_outputs, stage_partial};
pub use line::Line;
pub use marks::Marks;
pub use offsets::{offsets_of, readers_of};
