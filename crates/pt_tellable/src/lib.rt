//! In the net of a document the meetings of a run can be told: laws alone.
#![tactic(auto)]

mod laws;

pub use laws::{lists_have_form, meetings_can_be_told, texts_are_own};
