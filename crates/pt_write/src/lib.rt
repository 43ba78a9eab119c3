//! The document of a job, as JSON bytes that are read as that job.
#![tactic(auto)]

mod document;
mod entity;
mod fields;
mod inputs;
mod parts;
mod property;

pub use document::{document_is_read, write};
