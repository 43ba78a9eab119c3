//! The core of the PN director: which process gets, puts or fires next, and which channel grows. It never calls a process.
#![tactic(auto)]

mod driven;
mod fresh;
mod growth;
mod least;
mod looks;
mod marks;
mod moves;
mod notes;
mod numbers;
mod outlets;
mod pn;
mod processes;
mod puts;
mod waiting;
mod worklist;

pub use pn::Core;
