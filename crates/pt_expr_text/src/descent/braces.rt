// Lists and records in braces: the reader's steps that fill lists.

ghost use Rattle.std.specs.Prelude.{map, length};
ghost use Rattle.pt_language.specs.Expr.{tree_of, entry_of};
ghost use Rattle.pt_language.specs.ReaderFault.{Gives};
ghost use Rattle.pt_language.specs.Descent.{expression, list_at, record_at, in_braces, listed, named};

use super::expression;
use crate::front::{after, begins_record, expect, name_first, named_as};
use crate::literal::has_repeated;
use crate::node;
use pt_language::{Expr, NamedExpr, ParseFault, Symbol, Word};
use std::alloc::{AllocError, Global};

/// A list or a record behind its opening brace.
#[cycle(expressions)]
pub(super) fn in_braces(
    alloc: Global,
    depth: usize,
    words: &[Word],
) -> Result<(Expr, &[Word]), ParseFault>
    ensures { Gives (λ x. (tree_of x.0, x.1.now)) result (in_braces (expression depth) words.now) }
{
    if let Some(rest) = after(Symbol::CloseBrace, words) {
        return Ok((node::list(Vec::new(alloc)), rest));
    }
    if begins_record(words) {
        record_at(alloc, depth, words)
    } else {
        list_at(alloc, depth, words)
    }
}

#[cycle(expressions)]
fn list_at(alloc: Global, depth: usize, words: &[Word]) -> Result<(Expr, &[Word]), ParseFault>
    ensures { Gives (λ x. (tree_of x.0, x.1.now)) result (list_at (expression depth) words.now) }
{
    let (parts, rest) = parts(alloc, depth, words)?;
    Ok((node::list(parts), rest))
}

#[cycle(expressions)]
fn record_at(alloc: Global, depth: usize, words: &[Word]) -> Result<(Expr, &[Word]), ParseFault>
    ensures { Gives (λ x. (tree_of x.0, x.1.now)) result (record_at (expression depth) words.now) }
{
    let (fields, rest) = fields(alloc, depth, words)?;
    if has_repeated(alloc, fields.as_slice())? {
        return Err(ParseFault::Syntax);
    }
    Ok((node::record(fields), rest))
}

/// The parts of a list, and the words behind its closing brace.
#[cycle(expressions)]
fn parts(alloc: Global, depth: usize, words: &[Word]) -> Result<(Vec<Expr>, &[Word]), ParseFault>
    ensures { Gives (λ x. (map tree_of x.0.items, x.1.now)) result (listed (expression depth) (length words.now) words.now) }
{
    let mut parts = Vec::new(alloc);
    let mut rest = words;
    'lists: for _turn in 0..words.len() {
        let (part, behind) = expression(alloc, depth, rest)?;
        parts.push(part).map_err(AllocError::from)?;
        match after(Symbol::Comma, behind) {
            Some(more) => rest = more,
            None => return Ok((parts, expect(Symbol::CloseBrace, behind)?)),
        }
    }
    Err(ParseFault::Syntax)
}

/// The fields of a record, and the words behind its closing brace.
#[cycle(expressions)]
fn fields(
    alloc: Global,
    depth: usize,
    words: &[Word],
) -> Result<(Vec<NamedExpr>, &[Word]), ParseFault>
    ensures { Gives (λ x. (map entry_of x.0.items, x.1.now)) result (listed (named (expression depth)) (length words.now) words.now) }
{
    let mut fields = Vec::new(alloc);
    let mut rest = words;
    'names: for _turn in 0..words.len() {
        let (field, behind) = named(alloc, depth, rest)?;
        fields.push(field).map_err(AllocError::from)?;
        match after(Symbol::Comma, behind) {
            Some(more) => rest = more,
            None => return Ok((fields, expect(Symbol::CloseBrace, behind)?)),
        }
    }
    Err(ParseFault::Syntax)
}

/// A field: its name, and its tree behind an equals sign.
#[cycle(expressions)]
fn named(alloc: Global, depth: usize, words: &[Word]) -> Result<(NamedExpr, &[Word]), ParseFault>
    ensures { Gives (λ x. (entry_of x.0, x.1.now)) result (named (expression depth) words.now) }
{
    let (name, rest) = name_first(words).ok_or(ParseFault::Syntax)?;
    let rest = expect(Symbol::Assign, rest)?;
    let (value, rest) = expression(alloc, depth, rest)?;
    named_as(alloc, name, value, rest)
}
