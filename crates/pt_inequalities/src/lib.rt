//! What the types of a net have to meet, by definition, and the tables of the types of ports.
#![tactic(auto)]

mod row;
mod tables;

pub use row::{PortType, PortTypeRow, Seed, SeedRow};
pub use tables::{PORT_TYPES, SEEDS};
