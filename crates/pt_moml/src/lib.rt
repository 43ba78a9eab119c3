//! Documents: what a model's JSON text says, and why it is refused.
#![tactic(auto)]

mod document;
mod entity;
mod fields;
mod inputs;
mod limits;
mod parameters;
mod parts;
mod property;
mod rules;

pub use document::read;
pub use rules::property_director;
