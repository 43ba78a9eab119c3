//! What answers a document: a status and a text, and how they go out.
#![tactic(auto)]

mod form;
mod reply;
mod status;
mod told;
mod writing;

pub use form::Form;
pub use reply::{Reply, refuse};
pub use status::Status;
pub use told::told_in;
pub use writing::finish;
