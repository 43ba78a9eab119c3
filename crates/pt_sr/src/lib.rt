//! The core of the SR director: which child reacts next within a tick, and what is known of each channel.
#![tactic(auto)]

mod acts;
mod chain;
mod driven;
mod feeds;
mod given;
mod numbers;
mod offsets;
mod plan;
mod signals;
mod so_far;
mod sr;
mod tick;
mod worklist;

pub use acts::sr_is_lawful;
pub use chain::calls_are_sr;
pub use plan::CorePlan;
pub use so_far::{
    sr_begins, sr_gives_two, sr_goes_on, sr_hears, sr_is_done, sr_is_left_off,
    sr_is_left_off_within, sr_is_stuck, sr_lacks,
};
pub use sr::Core;
