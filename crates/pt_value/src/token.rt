ghost use Rattle.std.specs.Prelude.{◌≡◌, ◌↔◌, ◌++◌, IsTrue, IsOk, IfOk, OnOk, min};
ghost use Rattle.pt_value.specs.Value.{size};
ghost use Rattle.pt_value.specs.Token.{value_of, IsScalar};
ghost use Rattle.pt_value.specs.Printed.{printed, IsExtended};

use crate::fields::Fields;
use crate::items::Items;
use crate::printed::{write_bool, write_int, write_quoted};
use crate::token_text::TokenText;
use std::alloc::{AllocError, Global};

/// A datum that an actor takes or gives.
#[derive(Drop)]
#[cycle(token)]
pub enum Token {
    Int(i64),
    Bool(bool),
    Text(TokenText),
    Array(Items),
    Record(Fields),
}

impl Token {
    /// Another token of the same value. An integer or a truth value takes no memory.
    #[cycle(copies)]
    pub fn copy(&self, alloc: Global) -> Result<Token, AllocError>
        ensures value { IfOk result (λ t. t ≡ self.now) }
        ensures scalar { IsScalar self.now → IsOk result }
    {
        match self {
            Token::Int(n) => Ok(Token::Int(*n)),
            Token::Bool(b) => Ok(Token::Bool(*b)),
            Token::Text(text) => Ok(Token::Text(text.copy(alloc)?)),
            Token::Array(items) => Ok(Token::Array(items.copy(alloc)?)),
            Token::Record(fields) => Ok(Token::Record(fields.copy(alloc)?)),
        }
    }

    /// The size, or the greatest `u64` where it is more.
    #[cycle(sizes)]
    pub fn size(&self) -> u64
        ensures { result ≡ min (size (value_of self.now)) u64.MAX }
    {
        match self {
            Token::Int(_) | Token::Bool(_) => 1,
            Token::Text(text) => (text.as_str().len() as u64).saturating_add(1),
            Token::Array(items) => items.size().saturating_add(1),
            Token::Record(fields) => fields.size().saturating_add(1),
        }
    }

    /// Whether the other token has the same value.
    #[cycle(sames)]
    pub fn same(&self, other: &Token) -> bool
        ensures { IsTrue result ↔ (self.now ≡ other.now) }
    {
        match (self, other) {
            (Token::Int(a), Token::Int(b)) => a == b,
            (Token::Bool(a), Token::Bool(b)) => a == b,
            (Token::Text(a), Token::Text(b)) => a == b,
            (Token::Array(a), Token::Array(b)) => a.same(b),
            (Token::Record(a), Token::Record(b)) => a.same(b),
            _ => false,
        }
    }

    #[cycle(writes)]
    pub(crate) fn write(&self, out: &mut Vec<u8>) -> Result<(), AllocError>
        ensures ok { OnOk result (out.new.items ≡ out.old.items ++ printed (value_of self.now)) }
        ensures kept { IsExtended out.old.items out.new.items }
    {
        match self {
            Token::Int(n) => write_int(*n, out),
            Token::Bool(b) => write_bool(*b, out),
            Token::Text(text) => write_quoted(text.as_str(), out),
            Token::Array(items) => items.write(out),
            Token::Record(fields) => fields.write(out),
        }
    }
}
