//! Firing a node whose outputs nobody takes.
#![tactic(auto)]

mod alone;

pub use alone::{Fired, fire_alone};
