//! A net whose texts have values, whose ports have types and whose actors are started, or why there is none.
#![tactic(auto)]

mod jobs;
mod machines;
mod refusal;
mod resolved;
mod started;
mod starts;

pub use jobs::{de_job, once_job, sdf_job, sr_job};
pub use started::Started;
