//! A reaction of the DE director: which child has its turn next at a tag, and what each channel has there.
#![tactic(auto)]

mod asking;
mod delivery;
mod gifts;
mod giving;
mod reaction;
mod signals;

pub use reaction::{Next, Reaction};
