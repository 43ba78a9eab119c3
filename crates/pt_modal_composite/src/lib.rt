//! The composite of a Modal entity round its refinements.
#![tactic(auto)]

mod modal;

pub use modal::modal_composite;
