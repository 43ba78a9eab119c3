//! The lines by which a report tells the meetings of a composite: on the channel to a place of a child or to an own output, or of a Barrier.
#![tactic(auto)]

mod examples;
mod inside;
mod places;

pub use examples::lines_by_example;
pub use inside::Inside;
