//! Firing a tree of nodes on one thread.
#![tactic(auto)]

mod fire;
mod full;
mod one_thread;

pub use fire::{fire_seq, fire_within, go_on};
pub use one_thread::OneThread;
