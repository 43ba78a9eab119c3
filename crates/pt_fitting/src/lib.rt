//! A law of the Modal entities in the net of a document: what stands in one fits it. It is the contract of a public function, which has no code.
#![tactic(auto)]

mod laws;

pub use laws::modals_fit;
