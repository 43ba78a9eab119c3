//! The directors that a composite may have. A new one is named here, in the type and in its acts.
#![tactic(auto)]

mod boxed;
mod director;

pub use boxed::Boxed;
pub use director::{Director, de, modal, pn, rendezvous, sdf, sr};
