//! Queues of tokens, and the channels of a composite in one region.
#![tactic(auto)]

mod channels;
mod queue;
mod run;

pub use channels::Channels;
pub use queue::Queue;
