ghost use Rattle.std.specs.Prelude.{◌≡◌, ◌↔◌, ℕ, ◌+◌, ◌<◌, ◌≤◌, [], ◌∷◌, ◌++◌, length, drop, IsTrue, IfOk, OnOk};
ghost use Rattle.pt_reaction.specs.Lines.{first_from};

use pt_firing::Tokens;
use pt_value::Token;
use std::alloc::{AllocError, Global};
use std::marker::Model;
use std::mem;

/// The tokens of a channel at a tag, in order, with room for more. One that has a single token takes no memory.
#[derive(Drop)]
pub struct Line {
    held: Held,
}

#[derive(Drop)]
pub(crate) enum Held {
    Nothing,
    One(Token),
    Many(Vec<Token>),
}

impl Model for Line {
    ghost use Rattle.pt_value.specs.declared.token.Token.{Token};
    ghost use Rattle.pt_value.specs.Token.{coded_token};
    ghost use Rattle.pt_reaction.specs.Spared.{Spared, spared_code};

    ghost Value = { Spared Token };

    ghost coded = { spared_code coded_token };

    ghost use Rattle.pt_reaction.specs.Lines.{held_list, held_spare};

    ghost view = { λ l. record { list = held_list l.held; spare = held_spare l.held } };
}

impl Line {
    /// No token, and room for one.
    pub fn new() -> Line
        ensures { result.list ≡ [] }
    {
        Line {
            held: Held::Nothing,
        }
    }

    /// How many tokens there are.
    pub fn len(&self) -> usize
        ensures { result ≡ length self.now.list }
    {
        self.as_slice().len()
    }

    pub fn is_empty(&self) -> bool
        ensures { IsTrue result ↔ (self.now.list ≡ []) }
    {
        self.as_slice().is_empty()
    }

    pub fn as_slice(&self) -> &[Token]
        ensures { result.now ≡ self.now.list }
    {
        match &self.held {
            Held::Nothing => &[],
            Held::One(token) => std::slice::from_ref(token),
            Held::Many(tokens) => tokens.as_slice(),
        }
    }

    /// Makes room for so many more tokens.
    pub fn reserve(&mut self, alloc: Global, more: usize) -> Result<(), AllocError>
        ensures list { self.new.list ≡ self.old.list }
        ensures room { OnOk result (more ≤ self.new.spare) }
        ensures keeps { self.old.spare ≤ self.new.spare }
    {
        match &mut self.held {
            Held::Many(tokens) => tokens.reserve(more),
            Held::Nothing => {
                if more > 1 {
                    self.held = Held::Many(Vec::with_capacity(alloc, more)?);
                }
                Ok(())
            }
            Held::One(_) => {
                if more == 0 {
                    return Ok(());
                }
                let Some(all) = more.checked_add(1) else {
                    return Err(AllocError);
                };
                // The room is made first, so that the moves after it can't fail.
                let mut many = Vec::with_capacity(alloc, all)?;
                if let Held::One(first) = mem::replace(&mut self.held, Held::Nothing) {
                    many.push_reserved(first);
                }
                self.held = Held::Many(many);
                Ok(())
            }
        }
    }

    /// Puts a token behind the others. It takes no memory.
    pub fn put(&mut self, token: Token)
        requires { 0 < self.old.spare }
        ensures list { self.new.list ≡ self.old.list ++ token ∷ [] }
        ensures spare { self.new.spare + 1 ≡ self.old.spare }
    {
        match &mut self.held {
            Held::Nothing => self.held = Held::One(token),
            Held::One(_) => unreachable!(),
            Held::Many(tokens) => tokens.push_reserved(token),
        }
    }

    /// Has this token alone, whatever it had. It takes no memory.
    #[inline(always)]
    pub fn put_first(&mut self, token: Token)
        ensures { self.new.list ≡ token ∷ [] }
    {
        match &mut self.held {
            Held::Many(tokens) if tokens.capacity() > 0 => {
                tokens.clear();
                tokens.push_reserved(token);
            }
            _ => self.held = Held::One(token),
        }
    }

    /// The tokens, leaving none. A single one leaves the room where it was.
    pub fn take(&mut self) -> Tokens
        ensures taken { result ≡ self.old.list }
        ensures left { self.new.list ≡ [] }
    {
        match mem::replace(&mut self.held, Held::Nothing) {
            Held::Nothing => Tokens::new(),
            Held::One(token) => Tokens::one(token),
            Held::Many(tokens) => Tokens::of(tokens),
        }
    }

    /// The token at a number, if there is one, where those before it were picked already: it leaves another in its place.
    pub fn pick(&mut self, number: usize) -> Tokens
        ensures picked { result ≡ first_from number self.old.list }
        ensures behind { drop (number + 1) self.new.list ≡ drop (number + 1) self.old.list }
    {
        match &mut self.held {
            Held::Nothing => Tokens::new(),
            Held::One(token) => pick_one(token, number),
            Held::Many(tokens) => pick_from(tokens, number),
        }
    }

    /// Takes every token away.
    pub fn clear(&mut self)
        ensures { self.new.list ≡ [] }
    {
        match &mut self.held {
            Held::Many(tokens) => tokens.clear(),
            Held::Nothing | Held::One(_) => self.held = Held::Nothing,
        }
    }

    /// Another line with the same tokens.
    pub fn copy(&self, alloc: Global) -> Result<Line, AllocError>
        ensures { IfOk result (λ line. line.list ≡ self.now.list) }
    {
        let held = match &self.held {
            Held::Nothing => Held::Nothing,
            Held::One(token) => Held::One(token.copy(alloc)?),
            Held::Many(tokens) => Held::Many(copies(alloc, tokens)?),
        };
        Ok(Line { held })
    }
}

/// The same of a single token.
fn pick_one(token: &mut Token, number: usize) -> Tokens
    ensures picked { result ≡ first_from number (token.old ∷ []) }
    ensures behind { drop (number + 1) (token.new ∷ []) ≡ drop (number + 1) (token.old ∷ []) }
{
    if number > 0 {
        return Tokens::new();
    }
    Tokens::one(mem::replace(token, Token::Int(0)))
}

/// The token at a number, if there is one, with another in its place.
fn pick_from(tokens: &mut Vec<Token>, number: usize) -> Tokens
    ensures picked { result ≡ first_from number tokens.old.items }
    ensures behind { drop (number + 1) tokens.new.items ≡ drop (number + 1) tokens.old.items }
{
    if number >= tokens.len() {
        return Tokens::new();
    }
    Tokens::one(mem::replace(&mut tokens[number], Token::Int(0)))
}

fn copies(alloc: Global, tokens: &[Token]) -> Result<Vec<Token>, AllocError>
    ensures { IfOk result (λ copies. copies.items ≡ tokens.now) }
{
    let mut copies = Vec::with_capacity(alloc, tokens.len())?;
    for token in tokens {
        copies.push(token.copy(alloc)?)?;
    }
    Ok(copies)
}
