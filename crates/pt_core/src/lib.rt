//! What a driver knows of a director, whichever it is: what its calls do to its states, and the laws of these calls.
#![tactic(auto)]

mod calls;
mod either;
mod source;

pub use calls::Core;
pub use either::Either;
pub use source::Source;
