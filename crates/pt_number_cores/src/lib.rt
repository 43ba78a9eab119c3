//! The cores of directors whose children may take and give integers, without lists of tokens.
#![tactic(auto)]

mod number_core;
mod pn;
mod rv;
mod sdf;
mod sr;

pub use number_core::NumberCore;
