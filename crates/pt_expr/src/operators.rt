//! What each operator makes of its operands.
ghost use Rattle.std.specs.Prelude.{◌≡◌, ◌⊎◌, ◌++◌, IfOk, IfErr, OnErr, map, option_map, slice_get, length, chars, pos};
ghost use Rattle.pt_value.specs.Value.{Int, Words};
ghost use Rattle.pt_value.specs.Token.{value_of, entry_of_pair};
ghost use Rattle.pt_language.specs.declared.eval_fault.EvalFault.TheVariants.{Memory};
ghost use Rattle.pt_language.specs.Outcome.{Gives, Stops, Wrong, and_then};
ghost use Rattle.pt_language.specs.Meaning as meaning;

use pt_language::{BinaryOp, EvalFault};
use pt_value::{Fields, Items, Text, Token, TokenText};
use std::alloc::Global;

/// The greatest size of a token that an expression makes.
const LARGEST: u64 = 65_536;

/// The token, where its size is at most 65,536.
pub(crate) fn within(token: Token) -> Result<Token, EvalFault>
    ensures ok { IfOk result (λ t. meaning.within (value_of token) ≡ Gives (value_of t)) }
    ensures err { IfErr result (λ fault. meaning.within (value_of token) ≡ Stops fault) }
{
    if token.size() <= LARGEST {
        Ok(token)
    } else {
        Err(EvalFault::Size)
    }
}

pub(crate) fn truth(operand: Token) -> bool
    requires right { ¬ (meaning.truth (value_of operand) ≡ Wrong) }
    ensures { meaning.truth (value_of operand) ≡ Gives result }
{
    match operand {
        Token::Bool(b) => b,
        _ => unreachable!(),
    }
}

pub(crate) fn negated(operand: Token) -> Result<Token, EvalFault>
    requires right { ¬ (meaning.negated (value_of operand) ≡ Wrong) }
    ensures ok { IfOk result (λ t. meaning.negated (value_of operand) ≡ Gives (value_of t)) }
    ensures err { IfErr result (λ fault. meaning.negated (value_of operand) ≡ Stops fault) }
{
    match operand {
        Token::Int(n) => n.checked_neg().map(Token::Int).ok_or(EvalFault::Overflow),
        _ => unreachable!(),
    }
}

pub(crate) fn denied(operand: Token) -> Result<Token, EvalFault>
    requires right { ¬ (meaning.denied (value_of operand) ≡ Wrong) }
    ensures ok { IfOk result (λ t. meaning.denied (value_of operand) ≡ Gives (value_of t)) }
    ensures err { IfErr result (λ fault. meaning.denied (value_of operand) ≡ Stops fault) }
{
    match operand {
        Token::Bool(b) => Ok(Token::Bool(!b)),
        _ => unreachable!(),
    }
}

pub(crate) fn magnitude(operand: Token) -> Result<Token, EvalFault>
    requires right { ¬ (meaning.magnitude (value_of operand) ≡ Wrong) }
    ensures ok { IfOk result (λ t. meaning.magnitude (value_of operand) ≡ Gives (value_of t)) }
    ensures err { IfErr result (λ fault. meaning.magnitude (value_of operand) ≡ Stops fault) }
{
    match operand {
        Token::Int(n) => n.checked_abs().map(Token::Int).ok_or(EvalFault::Overflow),
        _ => unreachable!(),
    }
}

pub(crate) fn greatest(first: Token, second: Token) -> Token
    requires right { ¬ (meaning.greatest (value_of first) (value_of second) ≡ Wrong) }
    ensures { meaning.greatest (value_of first) (value_of second) ≡ Gives (value_of result) }
{
    match (first, second) {
        (Token::Int(m), Token::Int(n)) => Token::Int(if m < n { n } else { m }),
        _ => unreachable!(),
    }
}

pub(crate) fn least(first: Token, second: Token) -> Token
    requires right { ¬ (meaning.least (value_of first) (value_of second) ≡ Wrong) }
    ensures { meaning.least (value_of first) (value_of second) ≡ Gives (value_of result) }
{
    match (first, second) {
        (Token::Int(m), Token::Int(n)) => Token::Int(if n < m { n } else { m }),
        _ => unreachable!(),
    }
}

/// What an operator that takes both of its operands makes of them.
pub(crate) fn applied(
    alloc: Global,
    op: BinaryOp,
    first: Token,
    second: Token,
) -> Result<Token, EvalFault>
    requires right { ¬ (meaning.applied op (value_of first) (value_of second) ≡ Wrong) }
    ensures ok { IfOk result (λ t. meaning.applied op (value_of first) (value_of second) ≡ Gives (value_of t)) }
    ensures err { IfErr result (λ fault. (fault ≡ Memory) ⊎ (meaning.applied op (value_of first) (value_of second) ≡ Stops fault)) }
{
    match op {
        BinaryOp::Equal => Ok(Token::Bool(first.same(&second))),
        BinaryOp::Unequal => Ok(Token::Bool(!first.same(&second))),
        BinaryOp::Add => sum(alloc, first, second),
        _ => match (first, second) {
            (Token::Int(m), Token::Int(n)) => arithmetic(op, m, n),
            _ => unreachable!(),
        },
    }
}

fn sum(alloc: Global, first: Token, second: Token) -> Result<Token, EvalFault>
    requires right { ¬ (meaning.sum (value_of first) (value_of second) ≡ Wrong) }
    ensures ok { IfOk result (λ t. meaning.sum (value_of first) (value_of second) ≡ Gives (value_of t)) }
    ensures err { IfErr result (λ fault. (fault ≡ Memory) ⊎ (meaning.sum (value_of first) (value_of second) ≡ Stops fault)) }
{
    match (first, second) {
        (Token::Int(m), Token::Int(n)) => m
            .checked_add(n)
            .map(Token::Int)
            .ok_or(EvalFault::Overflow),
        (Token::Text(a), Token::Text(b)) => joined(alloc, a.as_str(), b.as_str()),
        _ => unreachable!(),
    }
}

/// Two texts as one.
fn joined(alloc: Global, first: &str, second: &str) -> Result<Token, EvalFault>
    ensures ok { IfOk result (λ t. meaning.within (Words (first.now ++ second.now)) ≡ Gives (value_of t)) }
    ensures err { IfErr result (λ fault. (fault ≡ Memory) ⊎ (meaning.within (Words (first.now ++ second.now)) ≡ Stops fault)) }
{
    let text = TokenText::of(alloc, format!(in alloc; "{first}{second}")?.as_str())?;
    within(Token::Text(text))
}

fn arithmetic(op: BinaryOp, m: i64, n: i64) -> Result<Token, EvalFault>
    requires right { ¬ (meaning.arithmetic op m n ≡ Wrong) }
    ensures ok { IfOk result (λ t. meaning.arithmetic op m n ≡ Gives (value_of t)) }
    ensures err { IfErr result (λ fault. meaning.arithmetic op m n ≡ Stops fault) }
{
    match op {
        BinaryOp::Or | BinaryOp::And | BinaryOp::Equal | BinaryOp::Unequal => unreachable!(),
        BinaryOp::Less => Ok(Token::Bool(m < n)),
        BinaryOp::LessEqual => Ok(Token::Bool(m <= n)),
        BinaryOp::Greater => Ok(Token::Bool(m > n)),
        BinaryOp::GreaterEqual => Ok(Token::Bool(m >= n)),
        BinaryOp::Add => m.checked_add(n).map(Token::Int).ok_or(EvalFault::Overflow),
        BinaryOp::Subtract => m.checked_sub(n).map(Token::Int).ok_or(EvalFault::Overflow),
        BinaryOp::Multiply => m.checked_mul(n).map(Token::Int).ok_or(EvalFault::Overflow),
        BinaryOp::Divide => quotient(m, n),
        BinaryOp::Remainder => remainder(m, n),
    }
}

/// The quotient, truncated toward zero.
fn quotient(m: i64, n: i64) -> Result<Token, EvalFault>
    ensures ok { IfOk result (λ t. meaning.quotient m n ≡ Gives (value_of t)) }
    ensures err { IfErr result (λ fault. meaning.quotient m n ≡ Stops fault) }
{
    if n == 0 {
        return Err(EvalFault::DivideByZero);
    }
    m.checked_div(n).map(Token::Int).ok_or(EvalFault::Overflow)
}

/// What the quotient leaves, with the sign of the dividend.
fn remainder(m: i64, n: i64) -> Result<Token, EvalFault>
    ensures ok { IfOk result (λ t. meaning.remainder m n ≡ Gives (value_of t)) }
    ensures err { IfErr result (λ fault. meaning.remainder m n ≡ Stops fault) }
{
    match n {
        0 => Err(EvalFault::DivideByZero),
        -1 => Ok(Token::Int(0)),
        _ => Ok(Token::Int(m % n)),
    }
}

/// The element at an index.
pub(crate) fn element(array: Token, index: Token) -> Result<Token, EvalFault>
    requires right { ¬ (meaning.element (value_of array) (value_of index) ≡ Wrong) }
    ensures ok { IfOk result (λ t. meaning.element (value_of array) (value_of index) ≡ Gives (value_of t)) }
    ensures err { IfErr result (λ fault. meaning.element (value_of array) (value_of index) ≡ Stops fault) }
{
    match (array, index) {
        (Token::Array(items), Token::Int(index)) => at(items, index),
        _ => unreachable!(),
    }
}

fn at(items: Items, index: i64) -> Result<Token, EvalFault>
    ensures ok { IfOk result (λ t. meaning.at items index ≡ Gives (value_of t)) }
    ensures err { IfErr result (λ fault. meaning.at items index ≡ Stops fault) }
{
    if index < 0 {
        return Err(EvalFault::Index);
    }
    nth(items.into_vec(), index as usize).ok_or(EvalFault::Index)
}

fn nth(mut tokens: Vec<Token>, place: usize) -> Option<Token>
    ensures { option_map value_of result ≡ slice_get (map value_of tokens.items) place }
{
    if place < tokens.len() {
        Some(tokens.swap_remove(place))
    } else {
        None
    }
}

/// The value of a field.
pub(crate) fn field(alloc: Global, operand: Token, name: &str) -> Result<Token, EvalFault>
    requires right { ¬ (meaning.field name.now (value_of operand) ≡ Wrong) }
    ensures ok { IfOk result (λ t. meaning.field name.now (value_of operand) ≡ Gives (value_of t)) }
    ensures err { IfErr result (λ fault. fault ≡ Memory) }
{
    match operand {
        Token::Record(fields) => match fields.get(name) {
            Some(value) => Ok(value.copy(alloc)?),
            None => unreachable!(),
        },
        _ => unreachable!(),
    }
}

/// The number of elements of an array, or of characters of a text.
pub(crate) fn length_of(operand: Token) -> Result<Token, EvalFault>
    requires right { ¬ (meaning.length_of (value_of operand) ≡ Wrong) }
    ensures ok { IfOk result (λ t. meaning.length_of (value_of operand) ≡ Gives (value_of t)) }
    ensures err { IfErr result (λ fault. meaning.length_of (value_of operand) ≡ Stops fault) }
{
    match operand {
        Token::Text(text) => counted(characters(text.as_str())),
        Token::Array(items) => counted(items.len()),
        _ => unreachable!(),
    }
}

fn counted(length: usize) -> Result<Token, EvalFault>
    ensures ok { IfOk result (λ t. meaning.exact (pos length) ≡ Gives (value_of t)) }
    ensures err { IfErr result (λ fault. meaning.exact (pos length) ≡ Stops fault) }
{
    match i64::try_from(length) {
        Ok(length) => Ok(Token::Int(length)),
        Err(_) => Err(EvalFault::Overflow),
    }
}

pub(crate) fn characters(text: &str) -> usize
    ensures { result ≡ length (chars text.now) }
{
    text.chars().count()
}

/// The record of some fields, in whichever order they stand.
pub(crate) fn record_of(alloc: Global, fields: Vec<(Text, Token)>) -> Result<Token, EvalFault>
    requires right { ¬ (meaning.recorded (map entry_of_pair fields.items) ≡ Wrong) }
    ensures ok { IfOk result (λ t. meaning.recorded (map entry_of_pair fields.items) ≡ Gives (value_of t)) }
    ensures err { IfErr result (λ fault. (fault ≡ Memory) ⊎ (meaning.recorded (map entry_of_pair fields.items) ≡ Stops fault)) }
{
    match Fields::of(alloc, fields) {
        Ok(fields) => within(Token::Record(fields)),
        // What makes no record is wrong, so only memory can be wanting.
        Err(_) => Err(EvalFault::Memory),
    }
}
