//! The start of a net: its library actors, and which classes may stand where.
#![tactic(auto)]

mod counts;
mod frames;
mod given;
mod limits;
mod places;
mod ports;
mod refusals;
mod round;
mod starts;

pub use limits::is_limited;
pub use places::{has_untimed_above, is_barred};
pub use refusals::misplaced;
pub use starts::Starts;
