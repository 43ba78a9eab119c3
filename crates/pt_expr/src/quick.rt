//! Expressions of integers and truth values, evaluated without tokens. None says nothing of an expression.

ghost use Rattle.std.specs.Prelude.{◌≡◌, IfSome};
ghost use Rattle.pt_value.specs.Value.{Int, Bool};
ghost use Rattle.pt_language.specs.Expr.{tree_of};
ghost use Rattle.pt_language.specs.Meaning.{value, applied};
ghost use Rattle.pt_language.specs.Outcome.{Gives};
ghost use Rattle.pt_expr.specs.Env.{scope_of};

use crate::env::Env;
use pt_language::{BinaryOp, Expr};

/// The integer that an expression comes to, where it is made of integers and no fault is met.
#[cycle(quick)]
pub fn integer(expr: &Expr, env: &Env) -> Option<i64>
    ensures { IfSome result (λ n. value (scope_of env.now) (tree_of expr.now) ≡ Gives (Int n)) }
{
    match expr {
        Expr::Int(n) => Some(*n),
        Expr::Name(name) => env.integer(name.as_str()),
        Expr::Binary(op, a, b) => {
            let a = integer(a, env)?;
            computed(*op, a, integer(b, env)?)
        }
        Expr::Cond(test, a, b) => {
            if truth_value(test, env)? {
                integer(a, env)
            } else {
                integer(b, env)
            }
        }
        _ => None,
    }
}

/// The truth value that an expression comes to, where its parts are integers or truth values and no fault is met.
#[cycle(quick)]
pub fn truth_value(expr: &Expr, env: &Env) -> Option<bool>
    ensures { IfSome result (λ b. value (scope_of env.now) (tree_of expr.now) ≡ Gives (Bool b)) }
{
    match expr {
        Expr::Bool(b) => Some(*b),
        Expr::Name(name) => env.truth_value(name.as_str()),
        Expr::Not(e) => truth_value(e, env).map(|b| !b),
        Expr::Binary(BinaryOp::Or, a, b) => {
            if truth_value(a, env)? {
                Some(true)
            } else {
                truth_value(b, env)
            }
        }
        Expr::Binary(BinaryOp::And, a, b) => {
            if truth_value(a, env)? {
                truth_value(b, env)
            } else {
                Some(false)
            }
        }
        Expr::Binary(op, a, b) => {
            let a = integer(a, env)?;
            compared(*op, a, integer(b, env)?)
        }
        _ => None,
    }
}

/// What an operator that makes integers makes of two.
fn computed(op: BinaryOp, m: i64, n: i64) -> Option<i64>
    ensures { IfSome result (λ r. applied op (Int m) (Int n) ≡ Gives (Int r)) }
{
    match op {
        BinaryOp::Add => m.checked_add(n),
        BinaryOp::Subtract => m.checked_sub(n),
        BinaryOp::Multiply => m.checked_mul(n),
        _ => None,
    }
}

/// What an operator that compares makes of two integers.
fn compared(op: BinaryOp, m: i64, n: i64) -> Option<bool>
    ensures { IfSome result (λ b. applied op (Int m) (Int n) ≡ Gives (Bool b)) }
{
    match op {
        BinaryOp::Equal => Some(m == n),
        BinaryOp::Unequal => Some(m != n),
        BinaryOp::Less => Some(m < n),
        BinaryOp::LessEqual => Some(m <= n),
        BinaryOp::Greater => Some(m > n),
        BinaryOp::GreaterEqual => Some(m >= n),
        _ => None,
    }
}
