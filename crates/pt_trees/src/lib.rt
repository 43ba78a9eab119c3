//! Trees of nodes: what builds one, what a run of one is, and the faults of either.
#![tactic(auto)]

mod build_fault;
mod composite_fault;
mod directing;
mod ended;
mod meetings;
mod top;
mod wiring;

pub use build_fault::BuildFault;
pub use composite_fault::CompositeFault;
pub use directing::Directing;
pub use ended::Ended;
pub use meetings::meetings_by_example;
pub use top::{DeJob, OnceJob, SdfJob, SrJob, Top};
pub use wiring::Wiring;
