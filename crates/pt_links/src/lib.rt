//! What the names in links and records name, and whether each port has the links that it needs.
#![tactic(auto)]

mod checks;
mod joining;
mod names;
mod records;
mod refusal;
mod resolve;
mod row;
mod ties;
mod wiring;

pub use checks::{check_counts, check_ports};
pub use joining::joints;
pub use records::recorded;
pub use refusal::{refused_at, refused_port, refused_relation};
pub use row::Row;
pub use ties::Ties;
pub use wiring::Wiring;
