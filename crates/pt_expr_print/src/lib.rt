//! The text that an expression prints as, from which it is read again.
#![tactic(auto)]

mod again;
mod printed;
mod words;

pub use again::reread;
pub use printed::print;
