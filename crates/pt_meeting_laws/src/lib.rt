//! Which composite the meetings of a run are of: a law alone.
#![tactic(auto)]

mod laws;

pub use laws::meetings_are_there;
