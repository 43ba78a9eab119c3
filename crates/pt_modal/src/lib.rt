//! The core of the Modal director: whether the refinement fires in a reaction, which transition is taken, and what the own outputs have.
#![tactic(auto)]

mod driven;
mod first;
mod lists;
mod modal;
mod modes;
mod plan;
mod stage;
mod stays;
mod wakes;

pub use modal::Core;
pub use plan::CorePlan;
