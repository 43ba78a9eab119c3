//! The tree of a model: library actors and composites, with their past and what is recorded of them.
#![tactic(auto)]

mod body;
mod in_turn;
mod node;
mod unmet;

pub use body::{Body, Held};
pub use in_turn::notes_add_up;
pub use node::Node;
pub use unmet::nothing_meets;
