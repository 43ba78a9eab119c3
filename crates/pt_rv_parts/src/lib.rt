//! The processes of a Rendezvous composite, which gather, fire and put, and which of them may fire.
#![tactic(auto)]

mod copied;
mod flags;
mod numbers;
mod process;
mod renew;
mod team;

pub use process::{Event, Process};
pub use team::Team;
