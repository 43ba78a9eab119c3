//! The parts of a PN composite: its network, and its processes, which get, fire and put.
#![tactic(auto)]

mod copied;
mod fans;
mod need;
mod network;
mod numbers;
mod plan;
mod process;
mod renew;
mod staged;

pub use network::Network;
pub use plan::{CorePlan, need_copy};
pub use process::{Event, Process};
pub use staged::{promise, promise_each, stage_inputs, stage_outputs};
