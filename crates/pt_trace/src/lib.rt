//! What a run reports, and the text of it.
#![tactic(auto)]

mod form;
mod line;
mod meetings;
mod report;
mod run_end;
mod summary_text;
mod trace;
mod writing;

pub use form::forms_by_example;
pub use meetings::{ChildPlace, MeetingLine, Meetings, Met};
pub use report::{Report, text};
pub use run_end::RunEnd;
pub use summary_text::summary;
pub use trace::Trace;
