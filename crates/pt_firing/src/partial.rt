ghost use Rattle.std.specs.Prelude.{◌≡◌, ◌<◌, ◌≤◌, ◌∷◌, [], ◌++◌, length, map, is_ok, IfOk, option_map, replicate, slice_set, slice_index_or, vec_capacity, if◌then◌else◌};
ghost use Rattle.pt_meaning.specs.Machine as machine;
ghost use Rattle.pt_meaning.specs.Valuation.{known};
ghost use Rattle.pt_firing.specs.TriState.{partial_of, tokens_known, if_known};

use crate::outputs::Outputs;
use crate::tokens::{Held, Tokens};
use pt_value::{Items, Token};
use std::alloc::{AllocError, Global};
use std::marker::Model;

/// What is known of a place at a tag.
#[derive(Drop)]
pub enum TriState {
    Unknown,
    Absent,
    Present(Token),
    /// Two tokens or more, which only a discrete-event model has.
    More(Items),
}

impl TriState {
    /// Known tokens, of which there may be none. It takes no memory.
    pub fn known(tokens: Tokens) -> TriState
        ensures { partial_of result ≡ machine.Known tokens }
    {
        match tokens.into_held() {
            Held::Nothing => TriState::Absent,
            Held::One(token) => TriState::Present(token),
            Held::Many(mut tokens) if tokens.len() <= 1 => match tokens.pop() {
                Some(token) => TriState::Present(token),
                None => TriState::Absent,
            },
            Held::Many(tokens) => TriState::More(Items::of(tokens)),
        }
    }

    /// A copy of the tokens that are known, none where nothing is.
    pub fn tokens(&self, alloc: Global) -> Result<Tokens, AllocError>
        ensures { IfOk result (λ tokens. tokens ≡ tokens_known (partial_of self.now)) }
    {
        match self {
            TriState::Unknown | TriState::Absent => Ok(Tokens::new()),
            TriState::Present(token) => Ok(Tokens::one(token.copy(alloc)?)),
            TriState::More(items) => Ok(Tokens::of(items.copy(alloc)?.into_vec())),
        }
    }

    /// A copy of the tokens, where they are known.
    pub fn known_tokens(&self, alloc: Global) -> Result<Option<Tokens>, AllocError>
        ensures { IfOk result (λ found. found ≡ if_known (partial_of self.now)) }
    {
        match self {
            TriState::Unknown => Ok(None),
            TriState::Absent => Ok(Some(Tokens::new())),
            TriState::Present(token) => Ok(Some(Tokens::one(token.copy(alloc)?))),
            TriState::More(items) => Ok(Some(Tokens::of(items.copy(alloc)?.into_vec()))),
        }
    }

    pub fn copy(&self, alloc: Global) -> Result<TriState, AllocError>
        ensures { IfOk result (λ state. state ≡ self.now) }
    {
        Ok(match self {
            TriState::Unknown => TriState::Unknown,
            TriState::Absent => TriState::Absent,
            TriState::Present(token) => TriState::Present(token.copy(alloc)?),
            TriState::More(items) => TriState::More(items.copy(alloc)?),
        })
    }
}

/// What is known of each place at a tag.
#[derive(Drop)]
pub struct Partial {
    states: Vec<TriState>,
}

impl Model for Partial {
    ghost use Rattle.std.specs.Prelude.{List, map};
    ghost use Rattle.std.specs.Coded.{coded_list};
    ghost use Rattle.pt_meaning.specs.Machine as machine;
    ghost use Rattle.pt_value.specs.declared.token.Token.{Token};
    ghost use Rattle.pt_firing.specs.PartialCode.{coded_partial};

    ghost Value = { List (machine.Partial Token) };

    ghost coded = { coded_list coded_partial };

    ghost use Rattle.pt_firing.specs.TriState.{partial_of};

    ghost view = { λ p. map partial_of p.states.items };
}

impl Partial {
    ghost use Rattle.std.specs.Prelude.{map};
    ghost use Rattle.pt_firing.specs.TriState.{partial_of};

    /// Nothing is known of so many places.
    pub fn unknown(alloc: Global, places: usize) -> Result<Partial, AllocError>
        ensures { IfOk result (λ partial. partial ≡ replicate places machine.Unknown) }
    {
        let mut states = Vec::with_capacity(alloc, places)?;
        for _ in 0..places {
            states.push(TriState::Unknown)?;
        }
        Ok(Partial { states })
    }

    pub fn of(states: Vec<TriState>) -> Partial
        ensures { result ≡ map partial_of states.items }
    {
        Partial { states }
    }

    pub fn places(&self) -> usize
        ensures { result ≡ length self.now }
    {
        self.states.len()
    }

    pub fn get(&self, place: usize) -> &TriState
        requires { place < length self.now }
        ensures { partial_of result.now ≡ machine.partial_at self.now place }
    {
        &self.states[place]
    }

    pub fn set(&mut self, place: usize, state: TriState)
        requires { place < length self.old }
        ensures { self.new ≡ slice_set self.old place (partial_of state) }
    {
        self.states[place] = state;
    }

    /// A copy of the tokens of each place, where all are known.
    pub fn known(&self, alloc: Global) -> Result<Option<Vec<Tokens>>, AllocError>
        ensures { IfOk result (λ lists. option_map (λ tokens. tokens.items) lists ≡ known self.now) }
    {
        let mut lists = Vec::with_capacity(alloc, self.states.len())?;
        for state in &self.states {
            let Some(tokens) = state.known_tokens(alloc)? else {
                return Ok(None);
            };
            lists.push(tokens)?;
        }
        Ok(Some(lists))
    }

    /// What a firing gave.
    pub fn told(alloc: Global, outputs: Outputs) -> Result<Partial, AllocError>
        ensures { IfOk result (λ partial. partial ≡ map machine.Known outputs) }
    {
        let mut outputs = outputs;
        let ports = outputs.ports();
        let mut states = Vec::with_capacity(alloc, ports)?;
        take_known(&mut states, ports, &mut outputs);
        Ok(Partial { states })
    }

    pub fn copy(&self, alloc: Global) -> Result<Partial, AllocError>
        ensures { IfOk result (λ partial. partial ≡ self.now) }
    {
        let mut states = Vec::with_capacity(alloc, self.states.len())?;
        for state in &self.states {
            let state = state.copy(alloc)?;
            states.push_reserved(state);
        }
        Ok(Partial { states })
    }
}

/// Puts the tokens of each port, which are taken from the outputs, into room that was made.
fn take_known(states: &mut Vec<TriState>, ports: usize, outputs: &mut Outputs)
    requires empty { states.old.items ≡ [] }
    requires room { ports ≤ vec_capacity states.old }
    requires ports { ports ≡ length outputs.old }
    ensures { map partial_of states.new.items ≡ map machine.Known outputs.old }
{
    for port in 0..ports {
        states.push_reserved(TriState::known(outputs.take(port)));
    }
}
