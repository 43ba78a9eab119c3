ghost use Rattle.std.specs.Prelude.{◌≡◌, ◌<◌, ◌+◌, [], ◌∷◌, ◌++◌, length, is_ok, IsOk, IfOk, replicate, slice_set, vec_capacity, if◌then◌else◌};
ghost use Rattle.pt_meaning.specs.Basics.{at};
ghost use Rattle.pt_firing.specs.Outputs.{on_first};

use crate::tokens::Tokens;
use pt_value::Token;
use std::alloc::{AllocError, Global};
use std::marker::Model;

/// What a firing gives: a list of tokens for each port. With tokens on the first port alone it takes no memory for the others.
#[derive(Drop)]
pub struct Outputs {
    lists: Lists,
}

#[derive(Drop)]
enum Lists {
    OnFirst { ports: usize, first: Tokens },
    All(Vec<Tokens>),
}

impl Model for Outputs {
    ghost use Rattle.std.specs.Prelude.{List};
    ghost use Rattle.std.specs.Coded.{coded_list};
    ghost use Rattle.pt_meaning.specs.Basics.{Streams};
    ghost use Rattle.pt_value.specs.declared.token.Token.{Token};
    ghost use Rattle.pt_value.specs.Token.{coded_token};

    ghost Value = { Streams Token };

    ghost coded = { coded_list (coded_list coded_token) };

    ghost use Rattle.pt_firing.specs.Outputs.{streams_in};

    ghost view = { λ o. streams_in o.lists };
}

impl Outputs {
    /// No token on any of so many ports.
    pub fn none(ports: usize) -> Outputs
        ensures { result ≡ replicate ports [] }
    {
        Outputs::first(ports, Tokens::new())
    }

    /// One token, on the one port.
    pub fn one(token: Token) -> Outputs
        ensures { result ≡ (token ∷ []) ∷ [] }
    {
        Outputs::first(1, Tokens::one(token))
    }

    /// Tokens on the first of so many ports.
    pub fn first(ports: usize, tokens: Tokens) -> Outputs
        ensures { result ≡ on_first ports tokens }
    {
        Outputs {
            lists: Lists::OnFirst {
                ports,
                first: tokens,
            },
        }
    }

    /// A list for each port.
    pub fn of(lists: Vec<Tokens>) -> Outputs
        ensures { result ≡ lists.items }
    {
        Outputs {
            lists: Lists::All(lists),
        }
    }

    pub fn ports(&self) -> usize
        ensures { result ≡ length self.now }
    {
        match &self.lists {
            Lists::OnFirst { ports, .. } => *ports,
            Lists::All(lists) => lists.len(),
        }
    }

    pub fn list(&self, port: usize) -> &[Token]
        requires { port < length self.now }
        ensures { result.now ≡ at self.now port }
    {
        match &self.lists {
            Lists::OnFirst { first, .. } => { if port == 0 { first.as_slice() } else { &[] } }
            Lists::All(lists) => lists[port].as_slice(),
        }
    }

    /// Puts a token behind the others of a port. The first one on the first port takes no memory.
    pub fn push(&mut self, alloc: Global, port: usize, token: Token) -> Result<(), AllocError>
        requires { port < length self.old }
        ensures streams { self.new ≡ (if is_ok result then slice_set self.old port (at self.old port ++ token ∷ []) else self.old) }
        ensures first { port ≡ 0 → at self.old 0 ≡ [] → IsOk result }
    {
        match &mut self.lists {
            Lists::OnFirst { first, .. } if port == 0 => first.push(alloc, token),
            Lists::OnFirst { ports, first } => {
                let mut lists = Vec::with_capacity(alloc, *ports)?;
                spread(&mut lists, *ports, first.take());
                let pushed = lists[port].push(alloc, token);
                self.lists = Lists::All(lists);
                pushed
            }
            Lists::All(lists) => lists[port].push(alloc, token),
        }
    }

    /// The tokens of a port, leaving none there.
    pub fn take(&mut self, port: usize) -> Tokens
        requires { port < length self.old }
        ensures taken { result ≡ at self.old port }
        ensures left { self.new ≡ slice_set self.old port [] }
    {
        match &mut self.lists {
            Lists::OnFirst { first, .. } => {
                if port == 0 {
                    first.take()
                } else {
                    Tokens::new()
                }
            }
            Lists::All(lists) => lists[port].take(),
        }
    }

    pub fn copy(&self, alloc: Global) -> Result<Outputs, AllocError>
        ensures { IfOk result (λ outputs. outputs ≡ self.now) }
    {
        match &self.lists {
            Lists::OnFirst { ports, first } => Ok(Outputs::first(*ports, first.copy(alloc)?)),
            Lists::All(lists) => Ok(Outputs::of(copies(alloc, lists)?)),
        }
    }
}

fn copies(alloc: Global, lists: &[Tokens]) -> Result<Vec<Tokens>, AllocError>
    ensures { IfOk result (λ copies. copies.items ≡ lists.now) }
{
    let mut copies = Vec::with_capacity(alloc, lists.len())?;
    for tokens in lists {
        let tokens = tokens.copy(alloc)?;
        copies.push_reserved(tokens);
    }
    Ok(copies)
}

/// Puts a list for each port into room that was made, the first as given.
fn spread(lists: &mut Vec<Tokens>, ports: usize, first: Tokens)
    requires empty { lists.old.items ≡ [] }
    requires room { ports < vec_capacity lists.old + 1 }
    ensures { lists.new.items ≡ on_first ports first }
{
    if ports == 0 {
        return;
    }
    lists.push_reserved(first);
    for _ in 1..ports {
        lists.push_reserved(Tokens::new());
    }
}
