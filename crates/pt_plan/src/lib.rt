//! The plan of an SDF composite, from what is within it.
#![tactic(auto)]

mod channels;
mod inside;
mod laws;
mod planning;
mod rooms;
mod unfed;

pub use inside::Inside;
pub use laws::{plans_are_unique, plans_exclude_faults};
pub use planning::{PlanFault, plan};
