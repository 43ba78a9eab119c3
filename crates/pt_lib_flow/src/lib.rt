//! The library actors of dataflow over numbers: a class a module, and one enum of them all.
#![tactic(auto)]

mod expression;
mod flow_actor;
mod laws;
mod ones;

pub use expression::Expression;
pub use flow_actor::{Class, FlowActor};
pub use laws::{
    rates_are_counts, rates_are_given, rows_are_lawful, steady_actors_stay, steady_needs_are_counts,
};
pub use pt_firing::{Ports, Values};
