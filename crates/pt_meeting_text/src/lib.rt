//! The text of the meetings of a composite, as a report has it.
#![tactic(auto)]

mod earlier;
mod ends;
mod head;
mod known;
mod writing;

pub use writing::write_meetings;
