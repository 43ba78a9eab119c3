ghost use Rattle.std.specs.Prelude.{◌≡◌, ◌↔◌, [], ◌∷◌, ◌++◌, length, is_ok, IsOk, IsTrue, IfOk, IfSome, if◌then◌else◌};
ghost use Rattle.pt_value.specs.declared.token.Token.TheVariants.{Int};
ghost use Rattle.pt_firing.specs.Tokens.{tokens_in};

use pt_value::Token;
use std::alloc::{AllocError, Global};
use std::marker::Model;
use std::{mem, slice, vec};

/// A list of tokens. One that has a single token, and never had more, holds it in place and takes no memory.
#[derive(Drop)]
pub struct Tokens {
    held: Held,
}

#[derive(Drop)]
pub(crate) enum Held {
    Nothing,
    One(Token),
    Many(Vec<Token>),
}

impl Model for Tokens {
    ghost use Rattle.std.specs.Prelude.{List};
    ghost use Rattle.std.specs.Coded.{coded_list};
    ghost use Rattle.pt_value.specs.declared.token.Token.{Token};
    ghost use Rattle.pt_value.specs.Token.{coded_token};

    ghost Value = { List Token };

    ghost coded = { coded_list coded_token };

    ghost use Rattle.pt_firing.specs.Tokens.{tokens_in, HasRoom};

    ghost view = { λ t. tokens_in t.held };

    ghost invariant = { λ t. HasRoom t.held };
}

impl Tokens {
    pub const fn new() -> Tokens
        ensures { result ≡ [] }
    {
        Tokens {
            held: Held::Nothing,
        }
    }

    pub const fn one(token: Token) -> Tokens
        ensures { result ≡ token ∷ [] }
    {
        Tokens {
            held: Held::One(token),
        }
    }

    pub fn of(tokens: Vec<Token>) -> Tokens
        ensures { result ≡ tokens.items }
    {
        if tokens.is_empty() {
            return Tokens::new();
        }
        Tokens {
            held: Held::Many(tokens),
        }
    }

    pub fn as_slice(&self) -> &[Token]
        ensures { result.now ≡ self.now }
    {
        match &self.held {
            Held::Nothing => &[],
            Held::One(token) => slice::from_ref(token),
            Held::Many(tokens) => tokens.as_slice(),
        }
    }

    pub fn len(&self) -> usize
        ensures { result ≡ length self.now }
    {
        self.as_slice().len()
    }

    pub fn is_empty(&self) -> bool
        ensures { IsTrue result ↔ (self.now ≡ []) }
    {
        self.as_slice().is_empty()
    }

    /// Puts a token at the end. Where there is none yet, it takes no memory.
    pub fn push(&mut self, alloc: Global, token: Token) -> Result<(), AllocError>
        ensures tokens { self.new ≡ (if is_ok result then self.old ++ token ∷ [] else self.old) }
        ensures first { self.old ≡ [] → IsOk result }
    {
        match &mut self.held {
            Held::Nothing => self.held = Held::One(token),
            Held::One(_) => {
                // The room is made first, so that the moves after it can't fail.
                let mut many = Vec::with_capacity(alloc, 2)?;
                if let Held::One(first) = mem::replace(&mut self.held, Held::Nothing) {
                    many.push_reserved(first);
                }
                many.push_reserved(token);
                self.held = Held::Many(many);
            }
            Held::Many(tokens) => tokens.push(token)?,
        }
        Ok(())
    }

    /// Holds one integer alone, in the place of the token that it held alone, if any.
    #[inline(always)]
    pub fn set_number(&mut self, number: i64)
        ensures { self.new ≡ Int number ∷ [] }
    {
        match &mut self.held {
            Held::One(Token::Int(there)) => *there = number,
            _ => self.held = Held::One(Token::Int(number)),
        }
    }

    /// Takes every token away, and keeps the room.
    pub fn clear(&mut self)
        ensures { self.new ≡ [] }
    {
        match &mut self.held {
            Held::Many(tokens) => tokens.clear(),
            Held::Nothing | Held::One(_) => self.held = Held::Nothing,
        }
    }

    /// The tokens, leaving none.
    pub fn take(&mut self) -> Tokens
        ensures taken { result ≡ self.old }
        ensures left { self.new ≡ [] }
    {
        mem::replace(self, Tokens::new())
    }

    /// The room of a list that has or had several tokens, emptied, leaving no token. `None` where it has no room.
    pub fn take_room(&mut self) -> Option<Vec<Token>>
        ensures room { IfSome result (λ room. room.items ≡ []) }
        ensures left { self.new ≡ [] }
    {
        match mem::replace(&mut self.held, Held::Nothing) {
            Held::Many(mut tokens) => {
                tokens.clear();
                Some(tokens)
            }
            Held::Nothing | Held::One(_) => None,
        }
    }

    pub(crate) fn into_held(self) -> Held
        ensures { tokens_in result ≡ self }
    {
        let Tokens { held } = self;
        held
    }

    pub fn copy(&self, alloc: Global) -> Result<Tokens, AllocError>
        ensures { IfOk result (λ tokens. tokens ≡ self.now) }
    {
        match &self.held {
            Held::Nothing => Ok(Tokens::new()),
            Held::One(token) => Ok(Tokens::one(token.copy(alloc)?)),
            Held::Many(tokens) => Ok(Tokens::of(copies(alloc, tokens)?)),
        }
    }
}

impl IntoIterator for Tokens {
    ghost use Rattle.std.specs.Prelude.{◌≡◌};

    type Item = Token;

    type IntoIter = IntoTokens;

    ghost into_iter_gives = { λ tokens rest. rest ≡ tokens };

    fn into_iter(self) -> IntoTokens {
        let Tokens { held } = self;
        IntoTokens {
            rest: match held {
                Held::Nothing => Rest::Nothing,
                Held::One(token) => Rest::One(token),
                Held::Many(tokens) => Rest::Many(tokens.into_iter()),
            },
        }
    }
}

/// The tokens of a list, in order.
#[derive(Drop)]
pub struct IntoTokens {
    rest: Rest,
}

#[derive(Drop)]
enum Rest {
    Nothing,
    One(Token),
    Many(vec::IntoIter<Token>),
}

impl Model for IntoTokens {
    ghost use Rattle.std.specs.Prelude.{List};
    ghost use Rattle.std.specs.Coded.{coded_list};
    ghost use Rattle.pt_value.specs.declared.token.Token.{Token};
    ghost use Rattle.pt_value.specs.Token.{coded_token};

    ghost Value = { List Token };

    ghost coded = { coded_list coded_token };

    ghost use Rattle.pt_firing.specs.Tokens.{tokens_left};

    ghost view = { λ t. tokens_left t.rest };
}

impl Iterator for IntoTokens {
    ghost use Rattle.std.specs.Iterator.{YieldsFirst, item_count};

    type Item = Token;

    ghost next_gives = { YieldsFirst (λ tokens. tokens) };

    ghost remaining = { item_count (λ tokens. tokens) };

    fn next(&mut self) -> Option<Token> {
        match mem::replace(&mut self.rest, Rest::Nothing) {
            Rest::Nothing => None,
            Rest::One(token) => Some(token),
            Rest::Many(mut tokens) => {
                let next = tokens.next();
                self.rest = Rest::Many(tokens);
                next
            }
        }
    }
}

fn copies(alloc: Global, tokens: &[Token]) -> Result<Vec<Token>, AllocError>
    ensures { IfOk result (λ copies. copies.items ≡ tokens.now) }
{
    let mut copies = Vec::with_capacity(alloc, tokens.len())?;
    for token in tokens {
        let token = token.copy(alloc)?;
        copies.push_reserved(token);
    }
    Ok(copies)
}
