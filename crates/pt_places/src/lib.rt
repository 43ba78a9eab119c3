//! The inequalities between the types of a net: those of channels, entities, inputs, refinements and links.
#![tactic(auto)]

mod inequalities;
mod joints;
mod place;
mod refinements;
mod rows;
mod seeds;

pub use inequalities::inequalities_of;
pub use joints::{add_passing, all_ports, port_counts};
pub use place::{Place, add};
pub use refinements::add_refinements;
pub use rows::{port_type_by, rows_of};
