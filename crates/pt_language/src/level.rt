ghost use Rattle.std.specs.Prelude.{◌≡◌};
ghost use Rattle.pt_language.specs.Level.{operator_at, binding_of, binding, binding_at, rank, operator_of};

use crate::expr::BinaryOp;
use crate::word::{Symbol, Word};

/// A level of operators between two operands, from the one that binds least.
#[derive(Clone, Copy, Debug, PartialEq, Eq)]
pub enum Level {
    /// `||`
    Or,
    /// `&&`
    And,
    /// `==` and `!=`
    Equality,
    /// `<`, `<=`, `>` and `>=`
    Comparison,
    /// `+` and `-`
    Sum,
    /// `*`, `/` and `%`
    Term,
}

impl Level {
    /// The operator of this level that a word is.
    pub fn operator(self, word: &Word) -> Option<BinaryOp>
        ensures { result ≡ operator_at self word.now }
    {
        match word {
            Word::Symbol(symbol) if binding_of(*symbol) == rank(self) => operator_of(*symbol),
            _ => None,
        }
    }
}

/// The number of a level, from 2 on.
fn rank(level: Level) -> u8
    ensures { result ≡ rank level }
{
    match level {
        Level::Or => 2,
        Level::And => 3,
        Level::Equality => 4,
        Level::Comparison => 5,
        Level::Sum => 6,
        Level::Term => 7,
    }
}

/// How tightly a symbol binds to what stands before it: from 1 for `?` to 8 for what follows a primary, and 0 for all else.
fn binding_of(symbol: Symbol) -> u8
    ensures { result ≡ binding_of symbol }
{
    match symbol {
        Symbol::Question => 1,
        Symbol::Or => 2,
        Symbol::And => 3,
        Symbol::Equal | Symbol::Unequal => 4,
        Symbol::Less | Symbol::LessEqual | Symbol::Greater | Symbol::GreaterEqual => 5,
        Symbol::Plus | Symbol::Minus => 6,
        Symbol::Star | Symbol::Slash | Symbol::Percent => 7,
        Symbol::Open | Symbol::Dot => 8,
        Symbol::True
        | Symbol::False
        | Symbol::Abs
        | Symbol::Max
        | Symbol::Min
        | Symbol::Close
        | Symbol::OpenBrace
        | Symbol::CloseBrace
        | Symbol::Comma
        | Symbol::Colon
        | Symbol::Assign
        | Symbol::Not => 0,
    }
}

/// The same of a word.
pub fn binding(word: &Word) -> u8
    ensures { result ≡ binding word.now }
{
    match word {
        Word::Symbol(symbol) => binding_of(*symbol),
        _ => 0,
    }
}

/// The same of the first of some words.
pub fn binding_at(words: &[Word]) -> u8
    ensures { result ≡ binding_at words.now }
{
    match words.first() {
        Some(Word::Symbol(symbol)) => binding_of(*symbol),
        _ => 0,
    }
}

/// The operator that a symbol stands for between two operands.
fn operator_of(symbol: Symbol) -> Option<BinaryOp>
    ensures { result ≡ operator_of symbol }
{
    match symbol {
        Symbol::Or => Some(BinaryOp::Or),
        Symbol::And => Some(BinaryOp::And),
        Symbol::Equal => Some(BinaryOp::Equal),
        Symbol::Unequal => Some(BinaryOp::Unequal),
        Symbol::Less => Some(BinaryOp::Less),
        Symbol::LessEqual => Some(BinaryOp::LessEqual),
        Symbol::Greater => Some(BinaryOp::Greater),
        Symbol::GreaterEqual => Some(BinaryOp::GreaterEqual),
        Symbol::Plus => Some(BinaryOp::Add),
        Symbol::Minus => Some(BinaryOp::Subtract),
        Symbol::Star => Some(BinaryOp::Multiply),
        Symbol::Slash => Some(BinaryOp::Divide),
        Symbol::Percent => Some(BinaryOp::Remainder),
        Symbol::True
        | Symbol::False
        | Symbol::Abs
        | Symbol::Max
        | Symbol::Min
        | Symbol::Open
        | Symbol::Close
        | Symbol::OpenBrace
        | Symbol::CloseBrace
        | Symbol::Comma
        | Symbol::Dot
        | Symbol::Question
        | Symbol::Colon
        | Symbol::Assign
        | Symbol::Not => None,
    }
}
