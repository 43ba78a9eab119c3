ghost use Rattle.std.specs.Prelude.{◌≡◌, ◌↔◌, ◌+◌, ◌<◌, ◌≤◌, [], ◌∷◌, ◌++◌, length, is_ok, is_some, IsOk, IsSome, IfOk, IfErr, IsTrue, OnOk, option_to_list, if◌then◌else◌};

use pt_value::Token;
use std::alloc::{AllocError, Global};
use std::collections::VecDeque;
use std::marker::Model;

/// Tokens in order, with room for more.
#[derive(Drop)]
pub struct Queue {
    tokens: VecDeque<Token>,
}

impl Model for Queue {
    ghost use Rattle.std.specs.Prelude.{◌-◌};
    ghost use Rattle.std.specs.VecDeque.{deque_len, deque_capacity};
    ghost use Rattle.pt_value.specs.declared.token.Token.{Token};
    ghost use Rattle.pt_value.specs.Token.{coded_token};
    ghost use Rattle.pt_recv.specs.Spared.{Spared, spared_code};

    ghost Value = { Spared Token };

    ghost coded = { spared_code coded_token };

    ghost view = { λ q. record { list = q.tokens.items; spare = deque_capacity q.tokens - deque_len q.tokens } };
}

impl Queue {
    /// A queue without tokens, which takes no memory yet.
    pub fn new(alloc: Global) -> Queue
        ensures { result.list ≡ [] }
    {
        Queue {
            tokens: VecDeque::new(alloc),
        }
    }

    /// Makes room for `n` more tokens.
    pub fn reserve(&mut self, n: usize) -> Result<(), AllocError>
        ensures list { self.new.list ≡ self.old.list }
        ensures room { OnOk result (n ≤ self.new.spare) }
        ensures keeps { self.old.spare ≤ self.new.spare }
    {
        self.tokens.reserve(n)
    }

    /// Puts a token behind the others. Where there is room it takes no memory; for want of memory the token is given back.
    pub fn put(&mut self, token: Token) -> Result<(), Token>
        ensures list { self.new.list ≡ (if is_ok result then self.old.list ++ token ∷ [] else self.old.list) }
        ensures room { 0 < self.old.spare → IsOk result }
        ensures spare { 0 < self.old.spare → self.new.spare + 1 ≡ self.old.spare }
        ensures back { IfErr result (λ given. given ≡ token) }
    {
        match self.tokens.push_back(token) {
            Ok(()) => Ok(()),
            Err(failed) => Err(failed.value),
        }
    }

    /// Takes the token in front, or `None` where there is none.
    pub fn take(&mut self) -> Option<Token>
        ensures list { self.old.list ≡ option_to_list result ++ self.new.list }
        ensures some { IsSome result ↔ (0 < length self.old.list) }
        ensures spare { self.new.spare ≡ (if is_some result then self.old.spare + 1 else self.old.spare) }
    {
        self.tokens.pop_front()
    }

    /// Takes every token away, and keeps the room.
    pub fn clear(&mut self)
        ensures list { self.new.list ≡ [] }
        ensures spare { self.old.spare ≤ self.new.spare }
    {
        self.tokens.clear();
    }

    pub fn len(&self) -> usize
        ensures { result ≡ length self.now.list }
    {
        self.tokens.len()
    }

    pub fn is_empty(&self) -> bool
        ensures { IsTrue result ↔ (self.now.list ≡ []) }
    {
        self.tokens.is_empty()
    }

    /// Another queue with the same tokens, and no less room.
    pub fn copy(&self, alloc: Global) -> Result<Queue, AllocError>
        ensures list { IfOk result (λ queue. queue.list ≡ self.now.list) }
        ensures spare { IfOk result (λ queue. self.now.spare ≤ queue.spare) }
    {
        let mut tokens = VecDeque::with_capacity(alloc, self.tokens.capacity())?;
        for k in 0..self.tokens.len() {
            tokens.push_back_reserved(self.tokens[k].copy(alloc)?);
        }
        Ok(Queue { tokens })
    }
}
