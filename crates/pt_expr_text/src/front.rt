ghost use Rattle.std.specs.Prelude.{◌≡◌, ℕ, List, Some, option_map};
ghost use Rattle.pt_language.specs.Expr.{tree_of, entry_of};
ghost use Rattle.pt_language.specs.Tree.{Tree, Apply, Binary, Cond};
ghost use Rattle.pt_language.specs.declared.word.Word.{Word};
ghost use Rattle.pt_language.specs.ReaderFault.{Gives};
ghost use Rattle.pt_language.specs.Symbol.{after};
ghost use Rattle.pt_language.specs.declared.word.Symbol.TheVariants.{Close, Dot};
ghost use Rattle.pt_language.specs.Descent.{◌>>=◌ as and_then, closed, operator_first, bare_digits, suffix_first, empty_call, field_named, name_first, begins_record};

use crate::node;
use pt_language::{BinaryOp, Expr, Level, NamedExpr, ParseFault, Symbol, Word, binding_at};
use pt_value::Text;
use std::alloc::Global;

/// The words behind a symbol, where it stands at the front.
pub(crate) fn after(symbol: Symbol, words: &[Word]) -> Option<&[Word]>
    ensures { option_map (λ r. r.now) result ≡ after symbol words.now }
{
    let (first, rest) = words.split_first()?;
    if first.is(symbol) { Some(rest) } else { None }
}

/// The words behind a symbol that must stand at the front.
pub(crate) fn expect(symbol: Symbol, words: &[Word]) -> Result<&[Word], ParseFault>
    ensures { Gives (λ r. r.now) result (after symbol words.now) }
{
    after(symbol, words).ok_or(ParseFault::Syntax)
}

/// The name at the front, and the words behind it.
pub(crate) fn name_first(words: &[Word]) -> Option<(&Text, &[Word])>
    ensures { option_map (λ x. (x.0.now, x.1.now)) result ≡ name_first words.now }
{
    match words.split_first()? {
        (Word::Name(name), rest) => Some((name, rest)),
        _ => None,
    }
}

/// The words behind an empty call.
fn empty_call(words: &[Word]) -> Option<&[Word]>
    ensures { option_map (λ r. r.now) result ≡ empty_call words.now }
{
    after(Symbol::Close, after(Symbol::Open, words)?)
}

/// The operator of a level at the front, and the words behind it.
pub(crate) fn operator_first(level: Level, words: &[Word]) -> Option<(BinaryOp, &[Word])>
    ensures { option_map (λ x. (x.0, x.1.now)) result ≡ operator_first level words.now }
{
    let (word, rest) = words.split_first()?;
    let op = level.operator(word)?;
    Some((op, rest))
}

/// The words themselves, where a call or a field begins there.
pub(crate) fn suffix_first(words: &[Word]) -> Option<&[Word]>
    ensures { option_map (λ r. r.now) result ≡ suffix_first words.now }
{
    if binding_at(words) == 8 {
        Some(words)
    } else {
        None
    }
}

/// Digits at the front that no call or field follows, and the words behind them.
pub(crate) fn bare_digits(words: &[Word]) -> Option<(u64, &[Word])>
    ensures { option_map (λ x. (x.0, x.1.now)) result ≡ bare_digits words.now }
{
    match words.split_first()? {
        (Word::Digits(number), rest) if binding_at(rest) != 8 => Some((*number, rest)),
        _ => None,
    }
}

/// Whether a name and an equals sign stand at the front.
pub(crate) fn begins_record(words: &[Word]) -> bool
    ensures { result ≡ begins_record words.now }
{
    match name_first(words) {
        Some((_, rest)) => after(Symbol::Assign, rest).is_some(),
        None => false,
    }
}

/// The name of a field behind its dot, and the words behind it.
fn field_name(words: &[Word]) -> Option<(&Text, &[Word])>
    ensures { option_map (λ x. (x.0.now, x.1.now)) result ≡ and_then (after Dot words.now) name_first }
{
    name_first(after(Symbol::Dot, words)?)
}

/// A field of this base, behind its dot.
pub(crate) fn field_of<'w>(
    alloc: Global,
    base: Expr,
    words: &'w [Word],
) -> Result<(Expr, &'w [Word]), ParseFault>
    ensures { Gives (λ x. (tree_of x.0, x.1.now)) result (and_then (after Dot words.now) (λ rest. and_then (name_first rest) (λ n. Some (field_named (tree_of base) n.0 n.1)))) }
{
    match field_name(words) {
        Some((name, rest)) => field_named(alloc, base, name, rest),
        None => {
            drop(base);
            Err(ParseFault::Syntax)
        }
    }
}

/// An expression whose closing parenthesis must stand at the front of the words.
pub(crate) fn closed<'w>(inner: Expr, words: &'w [Word]) -> Result<(Expr, &'w [Word]), ParseFault>
    ensures { Gives (λ x. (tree_of x.0, x.1.now)) result (closed Close (tree_of inner) words.now) }
{
    match after(Symbol::Close, words) {
        Some(rest) => Ok((inner, rest)),
        None => {
            drop(inner);
            Err(ParseFault::Syntax)
        }
    }
}

/// Trees of several parts, before the words behind them.
pub(crate) fn applied<'w>(
    alloc: Global,
    base: Expr,
    index: Expr,
    rest: &'w [Word],
) -> Result<(Expr, &'w [Word]), ParseFault>
    ensures { Gives {Y = Tree × List Word} (λ x. (tree_of x.0, x.1.now)) result (Some (Apply (tree_of base) (tree_of index), rest.now)) }
{
    Ok((node::apply(alloc, base, index)?, rest))
}

pub(crate) fn joined_by<'w>(
    alloc: Global,
    op: BinaryOp,
    left: Expr,
    right: Expr,
    rest: &'w [Word],
) -> Result<(Expr, &'w [Word]), ParseFault>
    ensures { Gives {Y = Tree × List Word} (λ x. (tree_of x.0, x.1.now)) result (Some (Binary op (tree_of left) (tree_of right), rest.now)) }
{
    Ok((node::binary(alloc, op, left, right)?, rest))
}

pub(crate) fn chosen_by<'w>(
    alloc: Global,
    test: Expr,
    branches: (Expr, Expr),
    rest: &'w [Word],
) -> Result<(Expr, &'w [Word]), ParseFault>
    ensures { Gives {Y = Tree × List Word} (λ x. (tree_of x.0, x.1.now)) result (Some (Cond (tree_of test) (tree_of branches.0) (tree_of branches.1), rest.now)) }
{
    let (yes, no) = branches;
    Ok((node::cond(alloc, test, yes, no)?, rest))
}

/// A field of a record literal, before the words behind it.
pub(crate) fn named_as<'w>(
    alloc: Global,
    name: &Text,
    value: Expr,
    rest: &'w [Word],
) -> Result<(NamedExpr, &'w [Word]), ParseFault>
    ensures { Gives {Y = (List ℕ × Tree) × List Word} (λ x. (entry_of x.0, x.1.now)) result (Some ((name.now, tree_of value), rest.now)) }
{
    match name.copy(alloc) {
        Ok(name) => Ok((NamedExpr { name, value }, rest)),
        Err(fault) => {
            drop(value);
            Err(ParseFault::from(fault))
        }
    }
}

/// A field by its name, or the length where an empty call follows that name.
fn field_named<'w>(
    alloc: Global,
    base: Expr,
    name: &Text,
    words: &'w [Word],
) -> Result<(Expr, &'w [Word]), ParseFault>
    ensures { Gives (λ x. (tree_of x.0, x.1.now)) result (Some (field_named (tree_of base) name.now words.now)) }
{
    if name.as_str() == "length" {
        if let Some(rest) = empty_call(words) {
            return Ok((node::length(alloc, base)?, rest));
        }
    }
    Ok((node::field(alloc, base, name.as_str())?, words))
}
