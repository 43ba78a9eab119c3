//! The expression language: its trees, its words and its faults.
#![tactic(auto)]

mod eval_fault;
mod expr;
mod exprs;
mod level;
mod parse_fault;
mod type_fault;
mod word;

pub use eval_fault::EvalFault;
pub use expr::{BinaryOp, Expr};
pub use exprs::{Exprs, NamedExpr, NamedExprs};
pub use level::{Level, binding, binding_at};
pub use parse_fault::ParseFault;
pub use type_fault::TypeFault;
pub use word::{Symbol, Word};
