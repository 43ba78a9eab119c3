//! The plan of a Rendezvous composite with its tables, what is staged by it, the own inputs and outputs, and the meetings of a firing.
#![tactic(auto)]

mod fans;
mod inlet;
mod meetings;
mod outlet;
mod plan;
mod rv_plan;
mod staged;
mod targets;

pub use inlet::Inlet;
pub use meetings::Meetings;
pub use outlet::Outlet;
pub use plan::CorePlan;
pub use rv_plan::Plan;
pub use staged::{stage_number, stage_outputs};
pub use targets::Target;
