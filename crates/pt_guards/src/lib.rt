//! What the guards and actions of a chart come to: by their trees, or by places for names.
#![tactic(auto)]

mod acts;
mod bindings;
mod choosing;
mod evaluation;
mod kept;
mod names;
mod placed;
mod quick;
mod shown;

pub use acts::{assign, put_all, set_all};
pub use bindings::Bindings;
pub use choosing::{Choice, choose};
pub use kept::{PlacedMode, PlacedTransition, placed_modes};
pub use names::Reads;
pub use placed::{Place, Placed, operand};
pub use quick::{chosen_quickly, given_quickly, put_given, set_quickly};
