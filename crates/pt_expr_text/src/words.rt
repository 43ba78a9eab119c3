ghost use Rattle.std.specs.Prelude.{◌≡◌, true, ◌+◌, ◌<◌, ◌≤◌, ℕ, length, drop, slice_index, IfOk, IfSome, option_map};
ghost use Rattle.std.specs.List.{prefix_len};
ghost use Rattle.std.specs.Char.{is_ascii_digit};
ghost use Rattle.std.specs.Str.{IsCharBoundary, IsUtf8, all_ascii_digits};
ghost use Rattle.pt_language.specs.Words.{Splits, word_at, name_at, name_of, escape_of, digits_at, number_of, symbol_found, quoted_at, is_plain, mark_at, symbol_of_two, symbol_of_one, is_blank, without_blanks, continues_name};

use pt_language::{Symbol, Word};
use pt_value::Text;
use std::alloc::{AllocError, Global};

/// The greatest number of bytes of a name.
const LONGEST: usize = 64;

/// The words of a text up to the first place that isn't a word, and the text from there on.
pub fn split(alloc: Global, text: &str) -> Result<(Vec<Word>, &str), AllocError>
    ensures { IfOk result (λ found. Splits text.now found.0.items found.1.now) }
{
    let mut words = Vec::new(alloc);
    let mut rest = without_blanks(text);
    while let Some((word, after)) = word_at(alloc, rest)? {
        words.push(word).map_err(AllocError::from)?;
        rest = without_blanks(after);
    }
    Ok((words, rest))
}

/// The text without the blanks at its front.
fn without_blanks(text: &str) -> &str
    ensures { result.now ≡ without_blanks text.now }
{
    &text[blank_count(text)..]
}

fn blank_count(text: &str) -> usize
    ensures value { result ≡ prefix_len is_blank text.now }
    ensures cut { IsCharBoundary text.now result }
{
    blank_run(text.as_bytes())
}

fn blank_run(text: &[u8]) -> usize
    ensures { result ≡ prefix_len is_blank text.now }
{
    text.iter()
        .take_while(|b| **b == b' ' || **b == b'\t' || **b == b'\n' || **b == b'\r')
        .count()
}

fn digit_count(text: &str) -> usize
    ensures value { result ≡ prefix_len is_ascii_digit text.now }
    ensures cut { IsCharBoundary text.now result }
{
    digit_run(text.as_bytes())
}

fn digit_run(text: &[u8]) -> usize
    ensures { result ≡ prefix_len is_ascii_digit text.now }
{
    text.iter().take_while(|b| b.is_ascii_digit()).count()
}

fn name_byte_count(text: &str) -> usize
    ensures value { result ≡ prefix_len continues_name text.now }
    ensures cut { IsCharBoundary text.now result }
{
    name_run(text.as_bytes())
}

fn name_run(text: &[u8]) -> usize
    ensures { result ≡ prefix_len continues_name text.now }
{
    text.iter()
        .take_while(|b| b.is_ascii_alphanumeric() || **b == b'_')
        .count()
}

/// The text behind the byte of a number, which is ASCII.
fn behind(text: &str, at: usize) -> &str
    requires within { at < length text.now }
    requires ascii { slice_index text.now at < 128 }
    ensures { result.now ≡ drop (at + 1) text.now }
{
    &text[at + 1..]
}

/// The word at the front of a text, and the text behind it.
fn word_at(alloc: Global, text: &str) -> Result<Option<(Word, &str)>, AllocError>
    ensures value { IfOk result (λ found. option_map (λ x. (x.0, x.1.now)) found ≡ word_at text.now) }
    ensures shorter { IfOk result (λ found. IfSome found (λ x. length x.1.now < length text.now)) }
{
    match text.as_bytes().first() {
        None => Ok(None),
        Some(b'"') => string_at(alloc, behind(text, 0)),
        Some(first) if first.is_ascii_digit() => Ok(Some(digits_at(text))),
        Some(first) if first.is_ascii_alphabetic() || *first == b'_' => name_at(alloc, text),
        Some(_) => Ok(symbol_at(text)),
    }
}

/// All digits at the front.
fn digits_at(text: &str) -> (Word, &str)
    requires { 0 < prefix_len is_ascii_digit text.now }
    ensures value { (result.0, result.1.now) ≡ digits_at text.now }
    ensures shorter { length result.1.now < length text.now }
{
    let count = digit_count(text);
    (Word::Digits(number_of(&text[..count])), &text[count..])
}

/// The number that digits say, or the greatest `u64`.
fn number_of(digits: &str) -> u64
    requires some { 0 < length digits.now }
    requires digits { all_ascii_digits digits.now ≡ true }
    ensures { result ≡ number_of digits.now }
{
    match digits.parse::<u64>() {
        Ok(number) => number,
        Err(_) => u64::MAX,
    }
}

/// A name or a reserved word at the front.
fn name_at(alloc: Global, text: &str) -> Result<Option<(Word, &str)>, AllocError>
    requires { 0 < prefix_len continues_name text.now }
    ensures value { IfOk result (λ found. option_map (λ x. (x.0, x.1.now)) found ≡ name_at text.now) }
    ensures shorter { IfOk result (λ found. IfSome found (λ x. length x.1.now < length text.now)) }
{
    let count = name_byte_count(text);
    match name_of(alloc, &text[..count])? {
        Some(word) => Ok(Some((word, &text[count..]))),
        None => Ok(None),
    }
}

fn name_of(alloc: Global, text: &str) -> Result<Option<Word>, AllocError>
    ensures { IfOk result (λ found. found ≡ name_of text.now) }
{
    if text == "true" {
        return Ok(Some(Word::Symbol(Symbol::True)));
    }
    if text == "false" {
        return Ok(Some(Word::Symbol(Symbol::False)));
    }
    if text == "abs" {
        return Ok(Some(Word::Symbol(Symbol::Abs)));
    }
    if text == "max" {
        return Ok(Some(Word::Symbol(Symbol::Max)));
    }
    if text == "min" {
        return Ok(Some(Word::Symbol(Symbol::Min)));
    }
    if text.len() > LONGEST {
        return Ok(None);
    }
    Ok(Some(Word::Name(Text::of(alloc, text)?)))
}

/// A symbol at the front, of two bytes where they fit.
fn symbol_at(text: &str) -> Option<(Word, &str)>
    ensures value { option_map (λ x. (x.0, x.1.now)) result ≡ symbol_found text.now }
    ensures shorter { IfSome result (λ x. length x.1.now < length text.now) }
{
    let bytes = text.as_bytes();
    let first = *bytes.first()?;
    if let Some(second) = bytes.get(1) {
        if let Some(symbol) = symbol_of_two(first, *second) {
            return Some((Word::Symbol(symbol), behind(text, 1)));
        }
    }
    let symbol = symbol_of_one(first)?;
    Some((Word::Symbol(symbol), behind(text, 0)))
}

fn symbol_of_two(first: u8, second: u8) -> Option<Symbol>
    ensures value { result ≡ symbol_of_two first second }
    ensures ascii { IfSome result (λ _. (first < 128) × (second < 128)) }
{
    match (first, second) {
        (b'<', b'=') => Some(Symbol::LessEqual),
        (b'>', b'=') => Some(Symbol::GreaterEqual),
        (b'=', b'=') => Some(Symbol::Equal),
        (b'!', b'=') => Some(Symbol::Unequal),
        (b'&', b'&') => Some(Symbol::And),
        (b'|', b'|') => Some(Symbol::Or),
        _ => None,
    }
}

fn symbol_of_one(byte: u8) -> Option<Symbol>
    ensures value { result ≡ symbol_of_one byte }
    ensures ascii { IfSome result (λ _. byte < 128) }
{
    match byte {
        b'(' => Some(Symbol::Open),
        b')' => Some(Symbol::Close),
        b'{' => Some(Symbol::OpenBrace),
        b'}' => Some(Symbol::CloseBrace),
        b',' => Some(Symbol::Comma),
        b'.' => Some(Symbol::Dot),
        b'?' => Some(Symbol::Question),
        b':' => Some(Symbol::Colon),
        b'=' => Some(Symbol::Assign),
        b'!' => Some(Symbol::Not),
        b'-' => Some(Symbol::Minus),
        b'+' => Some(Symbol::Plus),
        b'*' => Some(Symbol::Star),
        b'/' => Some(Symbol::Slash),
        b'%' => Some(Symbol::Percent),
        b'<' => Some(Symbol::Less),
        b'>' => Some(Symbol::Greater),
        _ => None,
    }
}

/// The content of a string up to its closing quote, and the text behind that.
fn string_at(alloc: Global, text: &str) -> Result<Option<(Word, &str)>, AllocError>
    ensures value { IfOk result (λ found. option_map (λ x. (x.0, x.1.now)) found ≡ quoted_at text.now) }
    ensures shorter { IfOk result (λ found. IfSome found (λ x. length x.1.now ≤ length text.now)) }
{
    let mut content = String::new(alloc);
    let mut rest = text;
    loop {
        let count = plain_count(rest);
        content.push_str(&rest[..count])?;
        match mark_at(&rest[count..]) {
            Some((Some(c), behind)) => {
                content.push(c)?;
                rest = behind;
            }
            Some((None, behind)) => {
                let word = Word::Quoted(Text::of(alloc, content.as_str())?);
                return Ok(Some((word, behind)));
            }
            None => return Ok(None),
        }
    }
}

/// How many bytes at the front are neither a quote nor a backslash.
fn plain_count(text: &str) -> usize
    ensures value { result ≡ prefix_len is_plain text.now }
    ensures cut { IsCharBoundary text.now result }
{
    text.as_bytes()
        .iter()
        .take_while(|b| **b != b'"' && **b != b'\\')
        .count()
}

/// What stands in a string where a run of plain bytes ends, and the text behind it: an escaped character, or the closing quote.
fn mark_at(text: &str) -> Option<(Option<char>, &str)>
    ensures value { option_map (λ x. (x.0, x.1.now)) result ≡ mark_at text.now }
    ensures ascii { IfSome result (λ x. IfSome x.0 (λ c. c < 128)) }
    ensures shorter { IfSome result (λ x. length x.1.now < length text.now) }
    ensures utf8 { IfSome result (λ x. IsUtf8 x.1.now) }
{
    let bytes = text.as_bytes();
    match *bytes.first()? {
        b'"' => Some((None, behind(text, 0))),
        b'\\' => {
            let c = escape_of(*bytes.get(1)?)?;
            Some((Some(c), behind(text, 1)))
        }
        _ => None,
    }
}

fn escape_of(letter: u8) -> Option<char>
    ensures value { result ≡ escape_of letter }
    ensures ascii { IfSome result (λ c. (c < 128) × (letter < 128)) }
{
    match letter {
        b'"' => Some('"'),
        b'\\' => Some('\\'),
        b'n' => Some('\n'),
        b't' => Some('\t'),
        b'r' => Some('\r'),
        _ => None,
    }
}
