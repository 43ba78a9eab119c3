//! JSON values whose texts lie in the bytes that they were read from.
#![tactic(auto)]

mod number;
mod reading;
mod value;

pub use json::Scratch;
pub use reading::{Unread, read};
pub use value::Value;
