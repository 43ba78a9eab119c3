//! A large model from a number.
#![tactic(auto)]

mod actors;
mod chain;
mod generation;
mod parts;
mod stages;

pub use generation::job;
