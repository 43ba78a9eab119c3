//! What the composites of processes of a net state: the rates of their own ports, and the capacities of their channels.
#![tactic(auto)]

mod capacities;
mod count;
mod laws;
mod networks;
mod rates;
mod stated;

pub use capacities::Capacities;
pub use laws::{processes_are_stated, stated_is_lawful};
pub use networks::stated_in;
pub use stated::Stated;
