//! What the nodes of a tree are made from: the entities of a net, with what each starts as or is made of beside its children. What a composite is made of its children isn't here.
#![tactic(auto)]

mod builder;

pub use builder::{Builder, Frame, fault_at};
