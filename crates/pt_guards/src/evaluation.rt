ghost use Rattle.std.specs.Prelude.{◌≡◌, IfOk};
ghost use Rattle.pt_language.specs.Expr.{tree_of};
ghost use Rattle.pt_language.specs.Meaning.{value};
ghost use Rattle.pt_language.specs.Outcome.{Gives, Wrong};
ghost use Rattle.pt_value.specs.Token.{value_of};
ghost use Rattle.pt_expr.specs.Env.{scope_of};
ghost use Rattle.pt_chart.specs.Chart.{test_of, reading_of};
ghost use Rattle.pt_guards.specs.Told.{test_view, reading_view, told_test, told_reading};

use pt_expr::{Env, eval, integer, truth_value};
use pt_firing::RunFault;
use pt_language::{EvalFault, Expr};
use pt_value::Token;
use std::alloc::{AllocError, Global};

/// What a guard comes to.
#[derive(Clone, Copy, Debug)]
pub(crate) enum Test {
    Off,
    On,
    Bad(RunFault),
}

/// What the expression of an action comes to: a token, or nothing where it reads an absent port.
#[derive(Drop)]
pub(crate) enum Reading {
    Reads(Token),
    Absent,
    Faulty(RunFault),
}

/// Whether a guard is enabled. One that reads an absent port isn't.
pub(crate) fn test_guard(alloc: Global, guard: &Expr, env: &Env) -> Result<Test, AllocError>
    requires right { ¬ (value (scope_of env.now) (tree_of guard.now) ≡ Wrong) }
    ensures { IfOk result (λ test. test_view test ≡ test_of (value (scope_of env.now) (tree_of guard.now))) }
{
    match truth_value(guard, env) {
        Some(true) => Ok(Test::On),
        Some(false) => Ok(Test::Off),
        None => tested(eval(alloc, guard, env)),
    }
}

/// What the expression of an action comes to.
pub(crate) fn read(alloc: Global, tree: &Expr, env: &Env) -> Result<Reading, AllocError>
    requires right { ¬ (value (scope_of env.now) (tree_of tree.now) ≡ Wrong) }
    ensures { IfOk result (λ reading. reading_view reading ≡ reading_of (value (scope_of env.now) (tree_of tree.now))) }
{
    match integer(tree, env) {
        Some(n) => Ok(Reading::Reads(Token::Int(n))),
        None => told(eval(alloc, tree, env)),
    }
}

/// How an evaluation tells whether a guard is enabled.
fn tested(made: Result<Token, EvalFault>) -> Result<Test, AllocError>
    ensures { IfOk result (λ test. told_test made (test_view test)) }
{
    match made {
        Ok(token) => Ok(truth(token)),
        Err(EvalFault::DivideByZero) => Ok(Test::Bad(RunFault::DivideByZero)),
        Err(EvalFault::Overflow) => Ok(Test::Bad(RunFault::Overflow)),
        Err(EvalFault::Index) => Ok(Test::Bad(RunFault::Index)),
        Err(EvalFault::Size) => Ok(Test::Bad(RunFault::Size)),
        Err(EvalFault::Absent) => Ok(Test::Off),
        Err(EvalFault::Memory) => Err(AllocError),
    }
}

/// Only the token true enables a guard.
fn truth(token: Token) -> Test
    ensures { test_view result ≡ test_of (Gives (value_of token)) }
{
    match token {
        Token::Bool(true) => Test::On,
        Token::Bool(false) => Test::Off,
        Token::Int(_) => Test::Off,
        Token::Text(_) => Test::Off,
        Token::Array(_) => Test::Off,
        Token::Record(_) => Test::Off,
    }
}

/// How an evaluation tells what an action gives.
fn told(made: Result<Token, EvalFault>) -> Result<Reading, AllocError>
    ensures { IfOk result (λ reading. told_reading made (reading_view reading)) }
{
    match made {
        Ok(token) => Ok(Reading::Reads(token)),
        Err(EvalFault::DivideByZero) => Ok(Reading::Faulty(RunFault::DivideByZero)),
        Err(EvalFault::Overflow) => Ok(Reading::Faulty(RunFault::Overflow)),
        Err(EvalFault::Index) => Ok(Reading::Faulty(RunFault::Index)),
        Err(EvalFault::Size) => Ok(Reading::Faulty(RunFault::Size)),
        Err(EvalFault::Absent) => Ok(Reading::Absent),
        Err(EvalFault::Memory) => Err(AllocError),
    }
}
