ghost use Rattle.std.specs.Prelude.{◌≡◌, ◌⊎◌, IfOk, IfErr, map};
ghost use Rattle.pt_value.specs.Token.{value_of, entry_of_pair};
ghost use Rattle.pt_language.specs.declared.eval_fault.EvalFault.TheVariants.{Memory};
ghost use Rattle.pt_language.specs.Outcome.{Gives, Stops, Wrong, and_then};
ghost use Rattle.pt_expr.specs.Env.{scope_of};
ghost use Rattle.pt_language.specs.Expr.{tree_of, trees_in, fields_in};
ghost use Rattle.pt_language.specs.Tree.{trees_of, named_of};
ghost use Rattle.pt_language.specs.Meaning as meaning;
ghost use Rattle.pt_language.specs.Meaning.{value, values, named_values};

use crate::env::Env;
use crate::operators::{
    applied, denied, element, field, greatest, least, length_of, magnitude, negated, record_of,
    truth, within,
};
use pt_language::{BinaryOp, EvalFault, Expr, Exprs, NamedExprs};
use pt_value::{Items, Text, Token, TokenText};
use std::alloc::{AllocError, Global};

/// What an expression comes to where its names are bound as in `env`.
#[cycle(evaluates)]
#[tactic(auto, using(pt_language::specs::Parts::tree_of_array, pt_language::specs::Parts::tree_of_record))]
pub fn eval(alloc: Global, expr: &Expr, env: &Env) -> Result<Token, EvalFault>
    requires right { ¬ (value (scope_of env.now) (tree_of expr.now) ≡ Wrong) }
    ensures ok { IfOk result (λ t. value (scope_of env.now) (tree_of expr.now) ≡ Gives (value_of t)) }
    ensures err { IfErr result (λ fault. (fault ≡ Memory) ⊎ (value (scope_of env.now) (tree_of expr.now) ≡ Stops fault)) }
{
    match expr {
        Expr::Int(n) => Ok(Token::Int(*n)),
        Expr::Bool(b) => Ok(Token::Bool(*b)),
        Expr::Words(text) => Ok(Token::Text(TokenText::of(alloc, text.as_str())?)),
        Expr::Name(name) => env.token(alloc, name.as_str()),
        Expr::List(parts) => within(Token::Array(Items::of(part_values(alloc, parts, env)?))),
        Expr::Record(fields) => record_of(alloc, field_values(alloc, fields, env)?),
        Expr::Negate(e) => negated(eval(alloc, e, env)?),
        Expr::Not(e) => denied(eval(alloc, e, env)?),
        Expr::Binary(op, a, b) => operated(alloc, *op, b, env, eval(alloc, a, env)?),
        Expr::Cond(test, a, b) => {
            if truth(eval(alloc, test, env)?) {
                eval(alloc, a, env)
            } else {
                eval(alloc, b, env)
            }
        }
        Expr::Abs(e) => magnitude(eval(alloc, e, env)?),
        Expr::Max(a, b) => {
            let (a, b) = operands(alloc, b, env, eval(alloc, a, env)?)?;
            Ok(greatest(a, b))
        }
        Expr::Min(a, b) => {
            let (a, b) = operands(alloc, b, env, eval(alloc, a, env)?)?;
            Ok(least(a, b))
        }
        Expr::Apply(array, index) => {
            let (array, index) = operands(alloc, index, env, eval(alloc, array, env)?)?;
            element(array, index)
        }
        Expr::Field(e, name) => field(alloc, eval(alloc, e, env)?, name.as_str()),
        Expr::Length(e) => length_of(eval(alloc, e, env)?),
    }
}

/// What an operator makes of its first operand and of the later one, which counts only where the first doesn't decide.
#[cycle(evaluates)]
fn operated(
    alloc: Global,
    op: BinaryOp,
    later: &Expr,
    env: &Env,
    first: Token,
) -> Result<Token, EvalFault>
    requires right { ¬ (meaning.operated op (Gives (value_of first)) (value (scope_of env.now) (tree_of later.now)) ≡ Wrong) }
    ensures ok { IfOk result (λ t. meaning.operated op (Gives (value_of first)) (value (scope_of env.now) (tree_of later.now)) ≡ Gives (value_of t)) }
    ensures err { IfErr result (λ fault. (fault ≡ Memory) ⊎ (meaning.operated op (Gives (value_of first)) (value (scope_of env.now) (tree_of later.now)) ≡ Stops fault)) }
{
    match op {
        BinaryOp::Or => {
            if truth(first) {
                Ok(Token::Bool(true))
            } else {
                truth_of(alloc, later, env)
            }
        }
        BinaryOp::And => {
            if truth(first) {
                truth_of(alloc, later, env)
            } else {
                Ok(Token::Bool(false))
            }
        }
        _ => {
            let (first, second) = operands(alloc, later, env, first)?;
            applied(alloc, op, first, second)
        }
    }
}

/// The truth value that an operand comes to.
#[cycle(evaluates)]
fn truth_of(alloc: Global, operand: &Expr, env: &Env) -> Result<Token, EvalFault>
    requires right { ¬ (and_then (value (scope_of env.now) (tree_of operand.now)) meaning.as_truth ≡ Wrong) }
    ensures ok { IfOk result (λ t. and_then (value (scope_of env.now) (tree_of operand.now)) meaning.as_truth ≡ Gives (value_of t)) }
    ensures err { IfErr result (λ fault. (fault ≡ Memory) ⊎ (and_then (value (scope_of env.now) (tree_of operand.now)) meaning.as_truth ≡ Stops fault)) }
{
    Ok(Token::Bool(truth(eval(alloc, operand, env)?)))
}

/// The first operand and what the later one comes to.
#[cycle(evaluates)]
fn operands(
    alloc: Global,
    later: &Expr,
    env: &Env,
    first: Token,
) -> Result<(Token, Token), EvalFault>
    requires right { ¬ (value (scope_of env.now) (tree_of later.now) ≡ Wrong) }
    ensures ok { IfOk result (λ both. (value_of both.0 ≡ value_of first) × (value (scope_of env.now) (tree_of later.now) ≡ Gives (value_of both.1))) }
    ensures err { IfErr result (λ fault. (fault ≡ Memory) ⊎ (value (scope_of env.now) (tree_of later.now) ≡ Stops fault)) }
{
    match eval(alloc, later, env) {
        Ok(second) => Ok((first, second)),
        Err(fault) => {
            drop(first);
            Err(fault)
        }
    }
}

/// What the parts come to, from left to right.
#[cycle(evaluates)]
fn part_values(alloc: Global, parts: &Exprs, env: &Env) -> Result<Vec<Token>, EvalFault>
    requires right { ¬ (values (scope_of env.now) (trees_of (trees_in parts.now)) ≡ Wrong) }
    ensures ok { IfOk result (λ tokens. values (scope_of env.now) (trees_of (trees_in parts.now)) ≡ Gives (map value_of tokens.items)) }
    ensures err { IfErr result (λ fault. (fault ≡ Memory) ⊎ (values (scope_of env.now) (trees_of (trees_in parts.now)) ≡ Stops fault)) }
{
    let mut tokens = Vec::with_capacity(alloc, parts.len())?;
    for part in parts.as_slice() {
        tokens
            .push(eval(alloc, part, env)?)
            .map_err(AllocError::from)?;
    }
    Ok(tokens)
}

/// What the fields come to, from left to right.
#[cycle(evaluates)]
fn field_values(
    alloc: Global,
    fields: &NamedExprs,
    env: &Env,
) -> Result<Vec<(Text, Token)>, EvalFault>
    requires right { ¬ (named_values (scope_of env.now) (named_of (fields_in fields.now)) ≡ Wrong) }
    ensures ok { IfOk result (λ pairs. named_values (scope_of env.now) (named_of (fields_in fields.now)) ≡ Gives (map entry_of_pair pairs.items)) }
    ensures err { IfErr result (λ fault. (fault ≡ Memory) ⊎ (named_values (scope_of env.now) (named_of (fields_in fields.now)) ≡ Stops fault)) }
{
    let mut pairs = Vec::with_capacity(alloc, fields.len())?;
    for field in fields.as_slice() {
        let name = field.name.copy(alloc)?;
        pairs
            .push((name, eval(alloc, &field.value, env)?))
            .map_err(AllocError::from)?;
    }
    Ok(pairs)
}
