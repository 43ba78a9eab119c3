//! What a Rendezvous composite is made of, from its wiring and the nodes of its children: whether they fit, which are Barriers, and what each needs.
#![tactic(auto)]

mod barriers;
mod met;
mod needs;

pub use barriers::barriers_of;
pub use met::is_met;
pub use needs::kept_needs_of;
