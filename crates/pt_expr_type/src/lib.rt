//! The types of expressions.
#![tactic(auto)]

mod env;
mod laws;
mod operators;
mod rule;
mod tree;

pub use env::TypeEnv;
pub use laws::{proper_trees_are_typed, tree_types_grow, typed_trees_are_sound};
pub use operators::{applied, field, record_of};
pub use rule::ExprRule;
pub use tree::type_of;
