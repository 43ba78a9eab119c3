ghost use Rattle.std.specs.Prelude.{◌≡◌, ◌↔◌, ℕ, ◌+◌, ◌<◌, ◌≤◌, [], ◌∷◌, ◌++◌, length, replicate, slice_set, true, IsTrue, IfOk, OnOk};
ghost use Rattle.pt_meaning.specs.Streams.{at};
ghost use Rattle.pt_reaction.specs.Channels.{spare_at, lists_of, lists_in, spares_in};

use crate::line::Line;
use crate::marks::Marks;
use pt_firing::Tokens;
use pt_value::Token;
use std::alloc::{AllocError, Global};
use std::marker::Model;
use std::mem;

/// The tokens of each channel at a tag, with room for more. All channels are emptied at once, without a walk over them.
#[derive(Drop)]
pub struct Channels {
    // Which channels were used since all were emptied. The tokens of the others don't count.
    used: Marks,
    lines: Vec<Line>,
}

impl Model for Channels {
    ghost use Rattle.std.specs.Prelude.{◌≡◌, length};
    ghost use Rattle.pt_value.specs.declared.token.Token.{Token};
    ghost use Rattle.pt_value.specs.Token.{coded_token};
    ghost use Rattle.pt_reaction.specs.Channels.{Lanes, lanes_code, lanes_in};

    ghost Value = { Lanes Token };

    ghost coded = { lanes_code coded_token };

    ghost view = { λ c. lanes_in c.used c.lines.items };

    ghost invariant = { λ c. length c.used ≡ length c.lines.items };
}

impl Channels {
    /// So many channels without tokens.
    pub fn new(alloc: Global, count: usize) -> Result<Channels, AllocError>
        ensures { IfOk result (λ channels. channels.lists ≡ replicate count []) }
    {
        let used = Marks::new(alloc, count)?;
        let lines = empty_lines(alloc, count)?;
        Ok(Channels { used, lines })
    }

    /// The tokens of a channel.
    pub fn list(&self, c: usize) -> &[Token]
        requires { c < length self.now.lists }
        ensures { result.now ≡ at self.now.lists c }
    {
        if !self.used.is_marked(c) {
            return &[];
        }
        self.lines[c].as_slice()
    }

    /// Whether a channel has no token.
    pub fn is_empty(&self, c: usize) -> bool
        requires { c < length self.now.lists }
        ensures { IsTrue result ↔ (at self.now.lists c ≡ []) }
    {
        self.list(c).is_empty()
    }

    /// Whether a channel has one token at most.
    pub fn is_single(&self, c: usize) -> bool
        requires { c < length self.now.lists }
        ensures { IsTrue result ↔ (length (at self.now.lists c) ≤ 1) }
    {
        self.list(c).len() <= 1
    }

    /// Makes room for so many more tokens on a channel.
    pub fn reserve(&mut self, alloc: Global, c: usize, more: usize) -> Result<(), AllocError>
        requires { c < length self.old.lists }
        ensures lists { self.new.lists ≡ self.old.lists }
        ensures room { OnOk result (more ≤ spare_at self.new.spares c) }
        ensures keeps { (d : ℕ) → spare_at self.old.spares d ≤ spare_at self.new.spares d }
    {
        refresh(&mut self.used, &mut self.lines, c);
        self.lines[c].reserve(alloc, more)
    }

    /// Puts a token behind the others of a channel. It takes no memory.
    pub fn put(&mut self, c: usize, token: Token)
        requires there { c < length self.old.lists }
        requires room { 0 < spare_at self.old.spares c }
        ensures lists { self.new.lists ≡ slice_set self.old.lists c (at self.old.lists c ++ token ∷ []) }
        ensures spare { spare_at self.new.spares c + 1 ≡ spare_at self.old.spares c }
        ensures others { (d : ℕ) → (d ≡ c → ⊥) → spare_at self.new.spares d ≡ spare_at self.old.spares d }
    {
        self.lines[c].put(token);
    }

    /// Puts the first token on a channel that has none. It takes no memory.
    #[inline(always)]
    pub fn put_first(&mut self, c: usize, token: Token)
        requires there { c < length self.old.lists }
        requires empty { at self.old.lists c ≡ [] }
        ensures { self.new.lists ≡ slice_set self.old.lists c (token ∷ []) }
    {
        self.used.mark(c);
        self.lines[c].put_first(token);
    }

    /// The tokens of a channel, leaving none there.
    pub fn take(&mut self, c: usize) -> Line
        requires { c < length self.old.lists }
        ensures taken { result.list ≡ at self.old.lists c }
        ensures left { self.new.lists ≡ slice_set self.old.lists c [] }
    {
        if !self.used.is_marked(c) {
            return Line::new();
        }
        mem::replace(&mut self.lines[c], Line::new())
    }

    /// The tokens of a channel as a list, leaving none there.
    pub fn take_list(&mut self, c: usize) -> Tokens
        requires { c < length self.old.lists }
        ensures taken { result ≡ at self.old.lists c }
        ensures left { self.new.lists ≡ slice_set self.old.lists c [] }
    {
        if !self.used.is_marked(c) {
            return Tokens::new();
        }
        self.lines[c].take()
    }

    /// Empties each channel.
    pub fn clear(&mut self)
        ensures { self.new.lists ≡ replicate (length self.old.lists) [] }
    {
        self.used.clear();
    }

    /// Other channels with the same tokens.
    pub fn copy(&self, alloc: Global) -> Result<Channels, AllocError>
        ensures { IfOk result (λ channels. channels.lists ≡ self.now.lists) }
    {
        let used = self.used.copy(alloc)?;
        let lines = copies(alloc, &self.lines)?;
        Ok(Channels { used, lines })
    }
}

/// Notes that a channel is used. One that wasn't has no tokens.
fn refresh(used: &mut Marks, lines: &mut Vec<Line>, c: usize)
    requires there { c < length used.old }
    requires same { length used.old ≡ length lines.old.items }
    ensures used { used.new ≡ slice_set used.old c true }
    ensures same { length lines.new.items ≡ length lines.old.items }
    ensures lists { lists_in used.new lines.new.items ≡ lists_in used.old lines.old.items }
    ensures spares { (d : ℕ) → spare_at (spares_in used.old lines.old.items) d ≤ spare_at (spares_in used.new lines.new.items) d }
{
    if used.is_marked(c) {
        return;
    }
    lines[c].clear();
    used.mark(c);
}

fn empty_lines(alloc: Global, count: usize) -> Result<Vec<Line>, AllocError>
    ensures { IfOk result (λ lines. length lines.items ≡ count) }
{
    let mut lines = Vec::with_capacity(alloc, count)?;
    for _ in 0..count {
        lines.push(Line::new())?;
    }
    Ok(lines)
}

fn copies(alloc: Global, lines: &[Line]) -> Result<Vec<Line>, AllocError>
    ensures { IfOk result (λ copies. lists_of copies.items ≡ lists_of lines.now) }
{
    let mut copies = Vec::with_capacity(alloc, lines.len())?;
    for line in lines {
        let copy = line.copy(alloc)?;
        copies.push(copy)?;
    }
    Ok(copies)
}
