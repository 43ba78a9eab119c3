//! The top call: from the words and the bytes that come in to the bytes that go out.
#![tactic(auto)]

mod answer;
mod check;
mod generated;
mod report;
mod run;

pub use pt_reply::Status;
pub use run::run_program;
