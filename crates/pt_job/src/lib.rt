//! What a job says of the top of its net: what comes to the top's input ports, and how long it runs.
#![tactic(auto)]

mod duration;
mod events;
mod inputs;
mod lookup;
mod names;
mod ports;

pub use duration::{iterations, stop_time};
pub use inputs::{supply, supply_events, supply_ticks};
