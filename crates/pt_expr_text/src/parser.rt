ghost use Rattle.std.specs.Prelude.{◌≡◌, ◌<◌, ◌∷◌, IfOk, IfSome, Some, [], length};
ghost use Rattle.pt_language.specs.Expr.{tree_of};
ghost use Rattle.pt_language.specs.ReaderFault.{Gives};
ghost use Rattle.pt_language.specs.declared.word.Word.TheVariants.{Digits};
ghost use Rattle.pt_language.specs.Tree.{Tree};
ghost use Rattle.pt_language.specs.Deep.{IsDeep, IsTooFull};
ghost use Rattle.pt_language.specs.Descent.{expression};
ghost use Rattle.pt_language.specs.Text.{ReadsAs};

use crate::deep::is_too_full;
use crate::descent::expression;
use crate::literal::positive;
use crate::words::split;
use pt_language::{Expr, ParseFault, Word};
use std::alloc::Global;

/// The most bytes that a text may have.
const MOST_BYTES: usize = 65_536;

/// The tree that a text reads as.
pub fn parse(alloc: Global, text: &str) -> Result<Expr, ParseFault>
    ensures tree { IfOk result (λ e. ReadsAs text.now (tree_of e)) }
    ensures shallow { IfOk result (λ _. ¬ (IsDeep text.now)) }
    ensures deep { result ≡ Err ParseFault.Deep → IsDeep text.now }
    ensures syntax { result ≡ Err ParseFault.Syntax → ¬ (IsDeep text.now) }
    ensures refuses { result ≡ Err ParseFault.Syntax → (t : Tree) → ¬ (ReadsAs text.now t) }
    ensures only { IfOk result (λ e. (t : Tree) → ReadsAs text.now t → t ≡ tree_of e) }
{
    if text.len() > MOST_BYTES {
        return Err(ParseFault::Deep);
    }
    let (words, left) = split(alloc, text)?;
    let read = whole(alloc, words.len() + 1, &words, left);
    drop(words);
    read
}

/// The number that the words are, if they are digits alone.
fn lone_number(words: &[Word]) -> Option<u64>
    ensures { IfSome result (λ number. words.now ≡ Digits number ∷ []) }
{
    match words.split_first()? {
        (Word::Digits(number), rest) if rest.is_empty() => Some(*number),
        _ => None,
    }
}

/// The expression at the front of some words. A number alone, as most texts are, is read without a way through the levels of operators.
fn front(alloc: Global, depth: usize, words: &[Word]) -> Result<(Expr, &[Word]), ParseFault>
    requires { 0 < depth }
    ensures { Gives (λ x. (tree_of x.0, x.1.now)) result (expression depth words.now) }
{
    match lone_number(words) {
        Some(number) => Ok((positive(number)?, &[])),
        None => expression(alloc, depth, words),
    }
}

/// The tree that all words read as, where no text is left behind them.
fn whole(alloc: Global, depth: usize, words: &[Word], left: &str) -> Result<Expr, ParseFault>
    requires { 0 < depth }
    ensures tree { IfOk result (λ e. (length left.now ≡ 0) × (expression depth words.now ≡ Some (tree_of e, []))) }
    ensures shallow { IfOk result (λ _. ¬ (IsTooFull words.now)) }
    ensures deep { result ≡ Err ParseFault.Deep → IsTooFull words.now }
    ensures syntax { result ≡ Err ParseFault.Syntax → ¬ (IsTooFull words.now) }
    ensures refuses { result ≡ Err ParseFault.Syntax → (t : Tree) → length left.now ≡ 0 → ¬ (expression depth words.now ≡ Some (t, [])) }
{
    if is_too_full(words) {
        return Err(ParseFault::Deep);
    }
    if !left.is_empty() {
        return Err(ParseFault::Syntax);
    }
    let (tree, rest) = front(alloc, depth, words)?;
    if rest.is_empty() {
        Ok(tree)
    } else {
        drop(tree);
        Err(ParseFault::Syntax)
    }
}
