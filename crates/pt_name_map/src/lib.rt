//! A map from names to values that is quick for few names.
#![tactic(auto)]

mod name_map;

pub use name_map::NameMap;
