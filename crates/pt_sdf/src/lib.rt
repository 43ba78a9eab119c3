//! The SDF director: it says which child fires next, lends it its inputs and takes what it gave.
#![tactic(auto)]

mod acts;
mod chain;
mod driven;
mod sdf;

pub use acts::sdf_is_lawful;
pub use chain::calls_are_sdf;
pub use sdf::Core;
