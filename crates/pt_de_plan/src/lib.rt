//! The plan of a DE composite: the depth of each child, or a directed loop that has no delay.
#![tactic(auto)]

mod edges;
mod inside;
mod laws;
mod planning;

pub use inside::DeInside;
pub use laws::{
    composites_stay_whole, depths_are_alone, loops_have_no_plan, starts_wake_again,
    wakes_come_again,
};
pub use planning::{DePlan, plan};
