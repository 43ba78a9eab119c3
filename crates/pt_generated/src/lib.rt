//! The document of the generated job of a number.
#![tactic(auto)]

mod document;
mod text;

pub use document::{document_of_generated, generated_jobs_are_sayable};
pub use text::generated_document;
