//! What the director of a composite does by itself between the firings of its children that it asks for one by one.
#![tactic(auto)]

mod pause;

pub use pause::{Pause, settle};
