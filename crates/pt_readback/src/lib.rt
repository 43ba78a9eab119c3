//! What the program prints, read back.
#![tactic(auto)]

mod cuts;
mod ending;
mod fault;
mod front;
mod meetings;
mod names;
mod open;
mod reading;
mod report;
mod token;
mod traces;

pub use fault::{ReportFault, TokenFault};
pub use report::parse_report;
pub use token::read_token;
