//! The composites whose children pass tokens on, whatever the time: of SDF, PN and Rendezvous.
#![tactic(auto)]

mod inside;
mod pn;
mod rendezvous;
mod sdf;

pub use pn::pn_composite;
pub use rendezvous::rendezvous_composite;
pub use sdf::sdf_composite;
