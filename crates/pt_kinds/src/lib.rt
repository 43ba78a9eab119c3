//! Laws of directors that only move tokens. Each is the contract of a public function, which has no code.
#![tactic(auto)]

mod laws;

pub use laws::directors_only_move;
