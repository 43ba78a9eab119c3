ghost use Rattle.std.specs.Prelude.{◌<◌, [], IfOk, length, option_map, Some, None};
ghost use Rattle.pt_value.specs.Token.{value_of};
ghost use Rattle.pt_value.specs.Value.{Value};
ghost use Rattle.pt_readback.specs.Reading.{Ends, Finds, StillEnds};

use crate::fault::TokenFault;
use crate::front::{after, opened, whole_first};
use crate::open::Open;
use pt_language::{Symbol, Word};
use pt_value::Token;
use std::alloc::{AllocError, Global};
use std::collections::VecDeque;

/// The token whose words these are. What is open while its words are read is in a queue, the innermost first.
pub(crate) fn token_of(alloc: Global, words: &[Word]) -> Result<Token, TokenFault>
    ensures { (v : Value) → Ends v [] None words.now → Finds result v }
{
    let mut pending = VecDeque::new(alloc);
    let mut read = None;
    let mut rest = words;
    while !rest.is_empty() {
        (read, rest) = step(alloc, &mut pending, read, rest)?;
    }
    finished(pending, read)
}

/// The token that is read, where nothing is open any more.
#[tactic(auto, using(crate::proofs::Words::whole_some, crate::proofs::Words::whole_none))]
fn finished(pending: VecDeque<Open>, read: Option<Token>) -> Result<Token, TokenFault>
    ensures { (v : Value) → Ends v pending.items (option_map value_of read) [] → Finds result v }
{
    let Some(token) = read else {
        return Err(TokenFault::Shape);
    };
    if pending.is_empty() {
        Ok(token)
    } else {
        Err(TokenFault::Shape)
    }
}

/// What comes first in some words: a part that begins, or what follows one.
fn step<'w>(
    alloc: Global,
    pending: &mut VecDeque<Open>,
    read: Option<Token>,
    words: &'w [Word],
) -> Result<(Option<Token>, &'w [Word]), TokenFault>
    requires { 0 < length words.now }
    ensures ends { (v : Value) → Ends v pending.old.items (option_map value_of read) words.now → StillEnds (λ x. (option_map value_of x.0, x.1.now)) v pending.new.items result }
    ensures fewer { IfOk result (λ x. length x.1.now < length words.now) }
{
    match read {
        Some(token) => after_part(alloc, pending, token, words),
        None => at_part(alloc, pending, words),
    }
}

/// A part that begins, which is whole or is left open.
fn at_part<'w>(
    alloc: Global,
    pending: &mut VecDeque<Open>,
    words: &'w [Word],
) -> Result<(Option<Token>, &'w [Word]), TokenFault>
    ensures ends { (v : Value) → Ends v pending.old.items None words.now → StillEnds (λ x. (option_map value_of x.0, x.1.now)) v pending.new.items result }
    ensures fewer { IfOk result (λ x. length x.1.now < length words.now) }
{
    match opened(alloc, words)? {
        Some((list, rest)) => {
            pending.push_front(list).map_err(AllocError::from)?;
            Ok((None, rest))
        }
        None => {
            let (token, rest) = whole_first(alloc, words)?;
            Ok((Some(token), rest))
        }
    }
}

/// What follows a part: the end of the array or record that it is in, or the next part.
fn after_part<'w>(
    alloc: Global,
    pending: &mut VecDeque<Open>,
    token: Token,
    words: &'w [Word],
) -> Result<(Option<Token>, &'w [Word]), TokenFault>
    requires { 0 < length words.now }
    ensures ends { (v : Value) → Ends v pending.old.items (Some (value_of token)) words.now → StillEnds (λ x. (option_map value_of x.0, x.1.now)) v pending.new.items result }
    ensures fewer { IfOk result (λ x. length x.1.now < length words.now) }
{
    let Some(list) = pending.pop_front() else {
        return Err(TokenFault::Shape);
    };
    if let Some(rest) = after(Symbol::CloseBrace, words) {
        let whole = list.close(alloc, token)?;
        return Ok((Some(whole), rest));
    }
    let Some(rest) = after(Symbol::Comma, words) else {
        return Err(TokenFault::Shape);
    };
    let (list, rest) = list.goes_on(alloc, token, rest)?;
    pending.push_front(list).map_err(AllocError::from)?;
    Ok((None, rest))
}
