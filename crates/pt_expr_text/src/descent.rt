ghost use Rattle.std.specs.Prelude.{Some, List};
ghost use Rattle.pt_language.specs.Tree.{Tree};
ghost use Rattle.pt_language.specs.declared.word.Word.{Word};
ghost use Rattle.pt_language.specs.Expr.{tree_of};
ghost use Rattle.pt_language.specs.ReaderFault.{Gives};
ghost use Rattle.pt_language.specs.Symbol.{after};
ghost use Rattle.pt_language.specs.declared.word.Symbol.TheVariants.{Close, Colon, Comma};
ghost use Rattle.pt_language.specs.Descent.{◌>>=◌ as and_then, closed, called, absolute, greater, lesser, expression, choice, minus, at_level, operand_at, joined, compared_with, second, unary, postfix, suffixes, suffix, primary, primary_symbol, one_operand, two_operands};

mod braces;

use crate::front::{
    after, applied, bare_digits, chosen_by, closed, expect, field_of, joined_by, operator_first,
    suffix_first,
};
use crate::literal::{positive, signed_literal};
use crate::node;
use braces::in_braces;
use pt_language::{BinaryOp, Expr, Level, ParseFault, Symbol, Word};
use std::alloc::Global;

/// The expression at the front of some words, and the words behind it. At most `depth` expressions stand in one another there.
#[cycle(expressions)]
pub(crate) fn expression(
    alloc: Global,
    depth: usize,
    words: &[Word],
) -> Result<(Expr, &[Word]), ParseFault>
    ensures { Gives (λ x. (tree_of x.0, x.1.now)) result (expression depth words.now) }
{
    if depth == 0 {
        return Err(ParseFault::Syntax);
    }
    choice(alloc, depth - 1, words)
}

/// An expression, in which others may stand.
#[cycle(expressions)]
fn choice(alloc: Global, depth: usize, words: &[Word]) -> Result<(Expr, &[Word]), ParseFault>
    ensures { Gives (λ x. (tree_of x.0, x.1.now)) result (choice (expression depth) words.now) }
{
    let (test, rest) = operators(alloc, depth, Level::Or, words)?;
    let Some(behind) = after(Symbol::Question, rest) else {
        return Ok((test, rest));
    };
    match branches(alloc, depth, behind) {
        Ok((branches, rest)) => chosen_by(alloc, test, branches, rest),
        Err(fault) => {
            drop(test);
            Err(fault)
        }
    }
}

/// What stands behind the question mark of a choice.
#[cycle(expressions)]
fn branches(
    alloc: Global,
    depth: usize,
    words: &[Word],
) -> Result<((Expr, Expr), &[Word]), ParseFault>
    ensures { Gives {Y = (Tree × Tree) × List Word} (λ x. ((tree_of x.0.0, tree_of x.0.1), x.1.now)) result (and_then (expression depth words.now) (λ yes. and_then (after Colon yes.1) (λ more. and_then (expression depth more) (λ no. Some ((yes.0, no.0), no.1))))) }
{
    let (yes, rest) = expression(alloc, depth, words)?;
    match other_branch(alloc, depth, rest) {
        Ok((no, rest)) => Ok(((yes, no), rest)),
        Err(fault) => {
            drop(yes);
            Err(fault)
        }
    }
}

/// The second branch of a choice, behind its colon.
#[cycle(expressions)]
fn other_branch(alloc: Global, depth: usize, words: &[Word]) -> Result<(Expr, &[Word]), ParseFault>
    ensures { Gives (λ x. (tree_of x.0, x.1.now)) result (and_then (after Colon words.now) (λ more. expression depth more)) }
{
    let rest = expect(Symbol::Colon, words)?;
    expression(alloc, depth, rest)
}

/// Operands with the operators of a level between them.
#[cycle(expressions)]
fn operators(
    alloc: Global,
    depth: usize,
    level: Level,
    words: &[Word],
) -> Result<(Expr, &[Word]), ParseFault>
    ensures { Gives (λ x. (tree_of x.0, x.1.now)) result (at_level level (operand_at level (expression depth)) words.now) }
{
    let (first, rest) = operand(alloc, depth, level, words)?;
    match level {
        Level::Comparison => compared(alloc, depth, first, rest),
        _ => joined(alloc, depth, level, first, rest),
    }
}

/// An operand of a level.
#[cycle(expressions)]
fn operand(
    alloc: Global,
    depth: usize,
    level: Level,
    words: &[Word],
) -> Result<(Expr, &[Word]), ParseFault>
    ensures { Gives (λ x. (tree_of x.0, x.1.now)) result (operand_at level (expression depth) words.now) }
{
    match level {
        Level::Or => operators(alloc, depth, Level::And, words),
        Level::And => operators(alloc, depth, Level::Equality, words),
        Level::Equality => operators(alloc, depth, Level::Comparison, words),
        Level::Comparison => operators(alloc, depth, Level::Sum, words),
        Level::Sum => operators(alloc, depth, Level::Term, words),
        Level::Term => unary(alloc, depth, words),
    }
}

/// The further operands of a level, grouped to the left.
#[cycle(expressions)]
fn joined(
    alloc: Global,
    depth: usize,
    level: Level,
    first: Expr,
    words: &[Word],
) -> Result<(Expr, &[Word]), ParseFault>
    ensures { Gives (λ x. (tree_of x.0, x.1.now)) result (joined level (operand_at level (expression depth)) (tree_of first) words.now) }
{
    let mut left = first;
    let mut rest = words;
    'joins: for _turn in 0..words.len() {
        let Some((op, behind)) = operator_first(level, rest) else {
            break;
        };
        (left, rest) = second(alloc, depth, level, op, left, behind)?;
    }
    Ok((left, rest))
}

/// A second operand, where a comparison follows the first.
#[cycle(expressions)]
fn compared(
    alloc: Global,
    depth: usize,
    first: Expr,
    words: &[Word],
) -> Result<(Expr, &[Word]), ParseFault>
    ensures { Gives (λ x. (tree_of x.0, x.1.now)) result (compared_with (operand_at Level.Comparison (expression depth)) (tree_of first) words.now) }
{
    match operator_first(Level::Comparison, words) {
        Some((op, behind)) => second(alloc, depth, Level::Comparison, op, first, behind),
        None => Ok((first, words)),
    }
}

/// The second operand of an operator.
#[cycle(expressions)]
fn second(
    alloc: Global,
    depth: usize,
    level: Level,
    op: BinaryOp,
    left: Expr,
    words: &[Word],
) -> Result<(Expr, &[Word]), ParseFault>
    ensures { Gives (λ x. (tree_of x.0, x.1.now)) result (second (operand_at level (expression depth)) op (tree_of left) words.now) }
{
    match operand(alloc, depth, level, words) {
        Ok((right, rest)) => joined_by(alloc, op, left, right, rest),
        Err(fault) => {
            drop(left);
            Err(fault)
        }
    }
}

/// An operand with its signs. A minus makes one literal with digits that no call or field follows.
#[cycle(expressions)]
fn unary(alloc: Global, depth: usize, words: &[Word]) -> Result<(Expr, &[Word]), ParseFault>
    ensures { Gives (λ x. (tree_of x.0, x.1.now)) result (unary (expression depth) words.now) }
{
    if let Some(rest) = after(Symbol::Minus, words) {
        return minus(alloc, depth, rest);
    }
    if let Some(rest) = after(Symbol::Not, words) {
        let (operand, rest) = unary(alloc, depth, rest)?;
        return Ok((node::not(alloc, operand)?, rest));
    }
    postfix(alloc, depth, words)
}

/// What stands behind a minus: digits that no call or field follows make one literal with it.
#[cycle(expressions)]
fn minus(alloc: Global, depth: usize, words: &[Word]) -> Result<(Expr, &[Word]), ParseFault>
    ensures { Gives (λ x. (tree_of x.0, x.1.now)) result (minus (expression depth) words.now) }
{
    match bare_digits(words) {
        Some((number, rest)) => signed_literal(number, rest),
        None => {
            let (operand, rest) = unary(alloc, depth, words)?;
            Ok((node::negate(alloc, operand)?, rest))
        }
    }
}

/// A primary with the calls and fields behind it.
#[cycle(expressions)]
fn postfix(alloc: Global, depth: usize, words: &[Word]) -> Result<(Expr, &[Word]), ParseFault>
    ensures { Gives (λ x. (tree_of x.0, x.1.now)) result (postfix (expression depth) words.now) }
{
    let (first, rest) = primary(alloc, depth, words)?;
    suffixes(alloc, depth, first, rest)
}

/// The calls and fields behind a primary.
#[cycle(expressions)]
fn suffixes(
    alloc: Global,
    depth: usize,
    first: Expr,
    words: &[Word],
) -> Result<(Expr, &[Word]), ParseFault>
    ensures { Gives (λ x. (tree_of x.0, x.1.now)) result (suffixes (expression depth) (tree_of first) words.now) }
{
    let mut base = first;
    let mut rest = words;
    'follows: for _turn in 0..words.len() {
        let Some(found) = suffix_first(rest) else {
            break;
        };
        (base, rest) = suffix(alloc, depth, base, found)?;
    }
    Ok((base, rest))
}

/// A call or a field behind its base.
#[cycle(expressions)]
fn suffix(
    alloc: Global,
    depth: usize,
    base: Expr,
    words: &[Word],
) -> Result<(Expr, &[Word]), ParseFault>
    ensures { Gives (λ x. (tree_of x.0, x.1.now)) result (suffix (expression depth) (tree_of base) words.now) }
{
    match after(Symbol::Open, words) {
        Some(rest) => called(alloc, depth, base, rest),
        None => field_of(alloc, base, words),
    }
}

/// A call behind its opening parenthesis, with an index.
#[cycle(expressions)]
fn called(
    alloc: Global,
    depth: usize,
    base: Expr,
    words: &[Word],
) -> Result<(Expr, &[Word]), ParseFault>
    ensures { Gives (λ x. (tree_of x.0, x.1.now)) result (called (expression depth) (tree_of base) words.now) }
{
    match enclosed(alloc, depth, words) {
        Ok((index, rest)) => applied(alloc, base, index, rest),
        Err(fault) => {
            drop(base);
            Err(fault)
        }
    }
}

/// An expression up to its closing parenthesis.
#[cycle(expressions)]
fn enclosed(alloc: Global, depth: usize, words: &[Word]) -> Result<(Expr, &[Word]), ParseFault>
    ensures { Gives (λ x. (tree_of x.0, x.1.now)) result (and_then (expression depth words.now) (λ inner. closed Close inner.0 inner.1)) }
{
    let (inner, rest) = expression(alloc, depth, words)?;
    closed(inner, rest)
}

/// A literal, a name, an expression in parentheses, or a call of one of the three functions.
#[cycle(expressions)]
fn primary(alloc: Global, depth: usize, words: &[Word]) -> Result<(Expr, &[Word]), ParseFault>
    ensures { Gives (λ x. (tree_of x.0, x.1.now)) result (primary (expression depth) words.now) }
{
    let (word, rest) = words.split_first().ok_or(ParseFault::Syntax)?;
    match word {
        Word::Digits(number) => Ok((positive(*number)?, rest)),
        Word::Quoted(text) => Ok((Expr::Words(text.copy(alloc)?), rest)),
        Word::Name(name) => Ok((Expr::Name(name.copy(alloc)?), rest)),
        Word::Symbol(symbol) => primary_symbol(alloc, depth, *symbol, rest),
    }
}

/// A primary that begins with a symbol.
#[cycle(expressions)]
fn primary_symbol(
    alloc: Global,
    depth: usize,
    symbol: Symbol,
    words: &[Word],
) -> Result<(Expr, &[Word]), ParseFault>
    ensures { Gives (λ x. (tree_of x.0, x.1.now)) result (primary_symbol (expression depth) symbol words.now) }
{
    match symbol {
        Symbol::True => Ok((Expr::Bool(true), words)),
        Symbol::False => Ok((Expr::Bool(false), words)),
        Symbol::Abs => absolute(alloc, depth, words),
        Symbol::Max => greater(alloc, depth, words),
        Symbol::Min => lesser(alloc, depth, words),
        Symbol::Open => enclosed(alloc, depth, words),
        Symbol::OpenBrace => in_braces(alloc, depth, words),
        _ => Err(ParseFault::Syntax),
    }
}

/// The three functions, behind their names.
#[cycle(expressions)]
fn absolute(alloc: Global, depth: usize, words: &[Word]) -> Result<(Expr, &[Word]), ParseFault>
    ensures { Gives (λ x. (tree_of x.0, x.1.now)) result (absolute (expression depth) words.now) }
{
    let (e, rest) = one_operand(alloc, depth, words)?;
    Ok((node::abs(alloc, e)?, rest))
}

#[cycle(expressions)]
fn greater(alloc: Global, depth: usize, words: &[Word]) -> Result<(Expr, &[Word]), ParseFault>
    ensures { Gives (λ x. (tree_of x.0, x.1.now)) result (greater (expression depth) words.now) }
{
    let ((a, b), rest) = two_operands(alloc, depth, words)?;
    Ok((node::max(alloc, a, b)?, rest))
}

#[cycle(expressions)]
fn lesser(alloc: Global, depth: usize, words: &[Word]) -> Result<(Expr, &[Word]), ParseFault>
    ensures { Gives (λ x. (tree_of x.0, x.1.now)) result (lesser (expression depth) words.now) }
{
    let ((a, b), rest) = two_operands(alloc, depth, words)?;
    Ok((node::min(alloc, a, b)?, rest))
}

/// The operand of a function.
#[cycle(expressions)]
fn one_operand(alloc: Global, depth: usize, words: &[Word]) -> Result<(Expr, &[Word]), ParseFault>
    ensures { Gives (λ x. (tree_of x.0, x.1.now)) result (one_operand (expression depth) words.now) }
{
    let rest = expect(Symbol::Open, words)?;
    enclosed(alloc, depth, rest)
}

/// Both operands of a function.
#[cycle(expressions)]
fn two_operands(
    alloc: Global,
    depth: usize,
    words: &[Word],
) -> Result<((Expr, Expr), &[Word]), ParseFault>
    ensures { Gives (λ x. ((tree_of x.0.0, tree_of x.0.1), x.1.now)) result (two_operands (expression depth) words.now) }
{
    let rest = expect(Symbol::Open, words)?;
    let (a, rest) = expression(alloc, depth, rest)?;
    match last_operand(alloc, depth, rest) {
        Ok((b, rest)) => Ok(((a, b), rest)),
        Err(fault) => {
            drop(a);
            Err(fault)
        }
    }
}

/// The second operand of a function, behind its comma.
#[cycle(expressions)]
fn last_operand(alloc: Global, depth: usize, words: &[Word]) -> Result<(Expr, &[Word]), ParseFault>
    ensures { Gives (λ x. (tree_of x.0, x.1.now)) result (and_then (after Comma words.now) (λ more. and_then (expression depth more) (λ b. closed Close b.0 b.1))) }
{
    let rest = expect(Symbol::Comma, words)?;
    enclosed(alloc, depth, rest)
}
