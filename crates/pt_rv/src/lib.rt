//! The core of the Rendezvous director: which process fires next, and which meeting is made where none can fire. It never calls a process.
#![tactic(auto)]

mod driven;
mod ends;
mod fresh;
mod hints;
mod looks;
mod numbers;
mod offers;
mod parties;
mod passing;
mod rv;
mod staging;
mod waiting;
mod worklist;

pub use rv::Core;
