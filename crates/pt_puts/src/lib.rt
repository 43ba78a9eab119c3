//! What processes of PN and of Rendezvous have in common: the puts that they have still to make, and what one needs, as it is kept.
#![tactic(auto)]

mod need;
mod puts;

pub use need::KeptNeed;
pub use puts::{StagedPut, first_put, puts_again};
