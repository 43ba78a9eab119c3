//! What a DE composite is made of, from the nodes of its children: what is within it, and its plan.
#![tactic(auto)]

mod children;
mod delays;
mod inside;
mod laws;
mod outputs;
mod planning;

pub use children::wakes_of;
pub use inside::inside_of;
pub use laws::{insides_are_formed, plans_fit, plans_make_cores, plans_suit};
pub use outputs::begin_at_outputs;
pub use planning::planned;
