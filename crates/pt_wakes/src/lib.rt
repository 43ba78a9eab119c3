//! The wakes of the children of a DE composite, the least of them at hand, and which children are due, by depth.
#![tactic(auto)]

mod ahead;
mod due;
mod moved;
mod nodes;
mod queue;
mod tags;
mod wakes;

pub use due::DueChildren;
pub use moved::wake_due;
pub use wakes::Wakes;
