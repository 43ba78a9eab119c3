ghost use Rattle.std.specs.Prelude.{◌≡◌, IfOk, option_map};
ghost use Rattle.pt_value.specs.Token.{value_of};
ghost use Rattle.pt_language.specs.Symbol.{after};
ghost use Rattle.pt_readback.specs.Reading.{Gives, field_first, opened, opened_after, positive, negative, negative_first, symbol_first, whole_first};

use crate::fault::TokenFault;
use crate::open::{Open, Pairs};
use pt_language::{Symbol, Word};
use pt_value::{Items, Text, Token, TokenText};
use std::alloc::{AllocError, Global};

/// The words after a symbol, where it comes first.
pub(crate) fn after(symbol: Symbol, words: &[Word]) -> Option<&[Word]>
    ensures { option_map (λ r. r.now) result ≡ after symbol words.now }
{
    let (first, rest) = words.split_first()?;
    if first.is(symbol) { Some(rest) } else { None }
}

/// The name of a field, and the words after its equals sign.
pub(crate) fn field_first(words: &[Word]) -> Option<(&Text, &[Word])>
    ensures { option_map (λ x. (x.0.now, x.1.now)) result ≡ field_first words.now }
{
    match words.split_first()? {
        (Word::Name(name), rest) => Some((name, after(Symbol::Assign, rest)?)),
        _ => None,
    }
}

/// The array or record of one part or more that begins here, and the words of its first part.
pub(crate) fn opened(alloc: Global, words: &[Word]) -> Result<Option<(Open, &[Word])>, AllocError>
    ensures { IfOk result (λ found. option_map (λ x. (x.0, x.1.now)) found ≡ opened words.now) }
{
    match after(Symbol::OpenBrace, words) {
        Some(rest) => opened_after(alloc, rest),
        None => Ok(None),
    }
}

fn opened_after(alloc: Global, words: &[Word]) -> Result<Option<(Open, &[Word])>, AllocError>
    ensures { IfOk result (λ found. option_map (λ x. (x.0, x.1.now)) found ≡ opened_after words.now) }
{
    if after(Symbol::CloseBrace, words).is_some() {
        return Ok(None);
    }
    match field_first(words) {
        Some((name, rest)) => {
            let name = name.copy(alloc)?;
            Ok(Some((Open::Record(Pairs::new(alloc), name), rest)))
        }
        None => Ok(Some((Open::Array(Items::of(Vec::new(alloc))), words))),
    }
}

/// The integer, truth value, text or empty array that comes first, and the words after it.
pub(crate) fn whole_first(alloc: Global, words: &[Word]) -> Result<(Token, &[Word]), TokenFault>
    ensures { Gives (λ x. (value_of x.0, x.1.now)) result (whole_first words.now) }
{
    let Some((first, rest)) = words.split_first() else {
        return Err(TokenFault::Shape);
    };
    match first {
        Word::Digits(number) => Ok((positive(*number)?, rest)),
        Word::Quoted(text) => Ok((Token::Text(TokenText::of(alloc, text.as_str())?), rest)),
        Word::Name(_) => Err(TokenFault::Shape),
        Word::Symbol(symbol) => symbol_first(alloc, *symbol, rest),
    }
}

/// What a symbol begins.
fn symbol_first(
    alloc: Global,
    symbol: Symbol,
    words: &[Word],
) -> Result<(Token, &[Word]), TokenFault>
    ensures { Gives (λ x. (value_of x.0, x.1.now)) result (symbol_first symbol words.now) }
{
    match symbol {
        Symbol::True => Ok((Token::Bool(true), words)),
        Symbol::False => Ok((Token::Bool(false), words)),
        Symbol::Minus => negative_first(words),
        Symbol::OpenBrace => match after(Symbol::CloseBrace, words) {
            Some(rest) => Ok((Token::Array(Items::of(Vec::new(alloc))), rest)),
            None => Err(TokenFault::Shape),
        },
        _ => Err(TokenFault::Shape),
    }
}

/// The negative integer after its minus.
fn negative_first(words: &[Word]) -> Result<(Token, &[Word]), TokenFault>
    ensures { Gives (λ x. (value_of x.0, x.1.now)) result (negative_first words.now) }
{
    match words.split_first() {
        Some((Word::Digits(number), rest)) => Ok((negative(*number)?, rest)),
        _ => Err(TokenFault::Shape),
    }
}

fn positive(number: u64) -> Result<Token, TokenFault>
    ensures { Gives value_of result (positive number) }
{
    match i64::try_from(number) {
        Ok(n) => Ok(Token::Int(n)),
        Err(_) => Err(TokenFault::Shape),
    }
}

fn negative(number: u64) -> Result<Token, TokenFault>
    ensures { Gives value_of result (negative number) }
{
    if number > 0x8000_0000_0000_0000 {
        return Err(TokenFault::Shape);
    }
    if number == 0x8000_0000_0000_0000 {
        return Ok(Token::Int(i64::MIN));
    }
    Ok(Token::Int(-(number as i64)))
}
