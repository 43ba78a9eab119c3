ghost use Rattle.std.specs.Prelude.{◌≡◌, [], ◌∷◌, map, IfOk, OnOk};
ghost use Rattle.pt_value.specs.declared.token.Token.TheVariants.{Int};
ghost use Rattle.pt_flow_base.specs.Number.{GivesNumbers};
ghost use Rattle.pt_flow_base.specs.Rates.{IsCount, repeated};
ghost use Rattle.pt_flow_streams.specs.Repeat as repeat;

use pt_firing::{
    Actor, Counts, Fires, Inputs, IntInputs, Need, Outputs, Partial, Step, Tokens, strict_early,
};
use pt_flow_base::{Params, first_list, push_copies, times_and_size};
use pt_time::Tag;
use pt_value::Token;
use std::alloc::{AllocError, Global};

/// `Repeat`: gives a block of tokens so many times.
#[derive(Debug, Drop)]
pub struct Repeat {
    needed: Counts,
    times: usize,
}

impl Repeat {
    pub fn new(alloc: Global, times: usize, size: usize) -> Result<Repeat, AllocError>
        ensures { IfOk result (λ actor. actor ≡ record { needed = size ∷ []; times = times }) }
    {
        Ok(Repeat {
            needed: Counts::of(vec![in alloc; size]?),
            times,
        })
    }

    /// The actor that the parameters start, if they are such as its row has them.
    pub fn start(alloc: Global, params: &Params) -> Result<Option<Repeat>, AllocError>
        ensures { IfOk result (λ actor. actor ≡ repeat.start params.now) }
    {
        match times_and_size(&params.values) {
            Some((times, size)) => Ok(Some(Repeat::new(alloc, times, size)?)),
            None => Ok(None),
        }
    }

    /// How many tokens it gives.
    pub fn rate(&self) -> usize
        requires { IsCount (repeat.rate self.now) }
        ensures { result ≡ repeat.rate self.now }
    {
        match self.needed.as_slice() {
            [] => 0,
            [size, ..] => self.times * *size,
        }
    }

    /// Makes the firing where it gives numbers, and puts them into the buffer. Else it makes none.
    pub fn numbers(&self, inputs: &IntInputs<'_>, given: &mut Vec<i64>) -> bool
        ensures { GivesNumbers repeat.step self.now inputs.now result given.new.items self.now }
    {
        given.clear();
        put_repeated(given, self.times, inputs.list(0)).is_ok()
    }
}

/// Puts copies of a block into an empty buffer.
fn put_repeated(given: &mut Vec<i64>, times: usize, block: &[i64]) -> Result<(), AllocError>
    requires { given.old.items ≡ [] }
    ensures { OnOk result (map Int given.new.items ≡ repeated times (map Int block.now)) }
{
    for _ in 0..times {
        given.extend_from_slice(block)?;
    }
    Ok(())
}

/// Copies of a block, one behind the other.
fn repeated(alloc: Global, times: usize, block: &[Token]) -> Result<Tokens, AllocError>
    ensures { IfOk result (λ tokens. tokens ≡ repeated times block.now) }
{
    let mut given = Vec::new(alloc);
    for _ in 0..times {
        push_copies(alloc, &mut given, block)?;
    }
    Ok(Tokens::of(given))
}

impl Fires for Repeat {
    ghost use Rattle.pt_flow_streams.specs.Repeat as repeat;

    ghost step = { repeat.step };

    ghost Takes = { λ tag actor X. Unit {0} };

    ghost IsSpare = { λ actor. ⊥ };

    fn step(&mut self, alloc: Global, _tag: Tag, inputs: &Inputs<'_>) -> Step {
        match repeated(alloc, self.times, first_list(inputs)) {
            Ok(tokens) => Step::Done(Outputs::first(1, tokens)),
            Err(_) => Step::Memory,
        }
    }

    fn copy(&self, alloc: Global) -> Result<Repeat, AllocError> {
        Ok(Repeat {
            needed: self.needed.copy(alloc)?,
            times: self.times,
        })
    }
}

impl Actor for Repeat {
    ghost use Rattle.std.specs.Prelude.{[], None};
    ghost use Rattle.pt_firing.specs.Strict.{strict};
    ghost use Rattle.pt_flow_streams.specs.Repeat as repeat;

    ghost first = { λ actor. [] };

    ghost need = { repeat.need };

    ghost next = { λ actor. None };

    ghost early = { strict 1 repeat.step };

    fn first(&self) -> &[Token] {
        &[]
    }

    fn need(&self) -> Need<'_> {
        Need::All(&self.needed)
    }

    fn early(&self, alloc: Global, tag: Tag, partial: &Partial) -> Result<Partial, AllocError> {
        strict_early(self, 1, alloc, tag, partial)
    }

    fn next(&self) -> Option<Tag> {
        None
    }
}
