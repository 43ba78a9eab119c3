//! The model of a net: the tree of nodes that is fired, and what the job asks of its top.
#![tactic(auto)]

mod check;
mod job;
mod laws;
mod model;
mod tree;

pub use check::check_net;
pub use laws::models_keep_types;
pub use model::{Model, model_of};
