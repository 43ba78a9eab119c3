//! What the actions of a Modal entity give is of the types of its ports and Variables, and its guards and actions have types.
#![tactic(auto)]

mod laws;

pub use laws::{machines_are_typed, machines_keep_types};
