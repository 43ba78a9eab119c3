use pt_firing::Tokens;
use pt_reaction::Line;
use pt_value::Token;
use std::alloc::{AllocError, Global};
use std::marker::Model;

/// An own output of a composite: what has come to it, with room for so many tokens that were promised.
#[derive(Drop)]
pub struct Outlet {
    line: Line,
    promised: usize,
}

impl Model for Outlet {
    ghost use Rattle.std.specs.Prelude.{◌≤◌};
    ghost use Rattle.pt_value.specs.declared.token.Token.{Token};
    ghost use Rattle.pt_value.specs.Token.{coded_token};
    ghost use Rattle.pt_reaction.specs.Spared.{Spared, spared_code};

    ghost Value = { Spared Token };

    ghost coded = { spared_code coded_token };

    ghost view = { λ o. record { list = o.line.list; spare = o.promised } };

    ghost invariant = { λ o. o.promised ≤ o.line.spare };
}

impl Outlet {
    ghost use Rattle.std.specs.Prelude.{◌≡◌, ◌+◌, ◌<◌, [], ◌∷◌, ◌++◌, IfOk, OnOk, OnErr};

    /// An own output to which nothing has come.
    pub fn new() -> Outlet
        ensures list { result.list ≡ [] }
        ensures spare { result.spare ≡ 0 }
    {
        Outlet {
            line: Line::new(),
            promised: 0,
        }
    }

    /// Makes room for one token more.
    pub fn promise(&mut self, alloc: Global) -> Result<(), AllocError>
        ensures list { self.new.list ≡ self.old.list }
        ensures spare { OnOk result (self.new.spare ≡ self.old.spare + 1) }
        ensures kept { OnErr result (self.new.spare ≡ self.old.spare) }
    {
        let Some(wanted) = self.promised.checked_add(1) else {
            return Err(AllocError);
        };
        self.line.reserve(alloc, wanted)?;
        self.promised = wanted;
        Ok(())
    }

    /// A token comes behind the others. It takes no memory.
    pub fn put(&mut self, token: Token)
        requires { 0 < self.old.spare }
        ensures list { self.new.list ≡ self.old.list ++ token ∷ [] }
        ensures spare { self.new.spare + 1 ≡ self.old.spare }
    {
        self.line.put(token);
        self.promised -= 1;
    }

    /// An own output to which nothing has come, with the same room.
    pub fn emptied(&self, alloc: Global) -> Result<Outlet, AllocError>
        ensures list { IfOk result (λ outlet. outlet.list ≡ []) }
        ensures spare { IfOk result (λ outlet. outlet.spare ≡ self.now.spare) }
    {
        let mut line = Line::new();
        line.reserve(alloc, self.promised)?;
        Ok(Outlet {
            line,
            promised: self.promised,
        })
    }

    /// Takes out what has come to it, and promises no more.
    pub fn take(&mut self) -> Tokens
        ensures taken { result ≡ self.old.list }
        ensures left { self.new.list ≡ [] }
        ensures spare { self.new.spare ≡ 0 }
    {
        self.promised = 0;
        self.line.take()
    }

    /// Another one with the same tokens and the same room.
    pub fn copy(&self, alloc: Global) -> Result<Outlet, AllocError>
        ensures { IfOk result (λ outlet. outlet ≡ self.now) }
    {
        let mut line = self.line.copy(alloc)?;
        line.reserve(alloc, self.promised)?;
        Ok(Outlet {
            line,
            promised: self.promised,
        })
    }
}
