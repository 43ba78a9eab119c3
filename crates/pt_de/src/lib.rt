//! The core of the DE director: which child of a composite reacts next within a reaction at a tag, and what it is lent.
#![tactic(auto)]

mod de;
mod outputs;

pub use de::DeCore;
