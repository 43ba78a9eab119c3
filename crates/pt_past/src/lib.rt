//! What a node keeps of its firings: how many there were and when the last one, what was recorded of its outputs, and its meetings.
#![tactic(auto)]

mod labels;
mod meetings;
mod past;
mod recorded;

pub use labels::Labels;
pub use meetings::MeetingRecord;
pub use past::Past;
pub use recorded::{Recorded, Records};
