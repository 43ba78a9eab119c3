//! The types of a net: what passes at each of its ports.
#![tactic(auto)]

mod actions;
mod bounds;
mod breaking;
mod composites;
mod declared;
mod faults;
mod modal_faults;
mod net_types;

pub use breaking::{BrokenAt, broken};
pub use net_types::net_typing;
