//! Laws of the net of a document: a composite of SDF has the inside that its director plans. Each is the contract of a public function, which has no code of its own.
#![tactic(auto)]

mod laws;

pub use laws::insides_are_there;
