//! Tags of superdense time: ticks, and microsteps at each tick.
#![tactic(auto)]

mod tag;

pub use tag::{Tag, after, clamp, local, outer};
