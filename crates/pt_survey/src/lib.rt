//! What is in a job and where: its entities, with those that stay in the net, and their ports, relations and links.
#![tactic(auto)]

mod numbering;
mod surveying;
mod tables;

pub use numbering::number;
pub use surveying::{Placed, Round, is_director, path_below, survey};
pub use tables::{PlacedLink, PlacedPort, PlacedRelation, Tables, tables_of};
