//! Laws of the order of a net: how its channels stand, and which ports its entities have. Each is the contract of a public function, which has no code.
#![tactic(auto)]

mod laws;

pub use laws::nets_are_in_order;
