ghost use Rattle.std.specs.Prelude.{◌≡◌, ◌+◌, ◌-◌, ◌++◌, IfOk, IfSome, IsTrue, OnOk, None};
ghost use Rattle.pt_flow_base.specs.Number.{GivesNumbers, GivesStretch};
ghost use Rattle.pt_flow_base.specs.Rates.{IsCount};
ghost use Rattle.pt_flow_streams.specs.UpSample.{zeros, among_zeros, number_among};
ghost use Rattle.pt_flow_streams.specs.UpSample as up_sample;

use pt_firing::{
    Actor, Fires, Inputs, IntInputs, IntRows, Need, OneEach, Outputs, Partial, Step, Tokens,
    strict_early,
};
use pt_flow_base::{Params, factor_and_phase};
use pt_time::Tag;
use pt_value::Token;
use std::alloc::{AllocError, Global};

/// `UpSample`: gives its input among zeros.
#[derive(Debug, Drop)]
pub struct UpSample {
    before: usize,
    after: usize,
    places: OneEach,
}

impl UpSample {
    /// An actor that gives so many tokens as the factor says, of which the input has the phase as its number.
    pub fn new(alloc: Global, factor: usize, phase: usize) -> Result<UpSample, AllocError>
        ensures { IfOk result (λ actor. actor ≡ record { before = phase; after = factor - 1 - phase; places = 1 }) }
    {
        Ok(UpSample {
            before: phase,
            after: factor.saturating_sub(1).saturating_sub(phase),
            places: OneEach::of(alloc, 1)?,
        })
    }

    /// The actor that the parameters start, if they are such as its row has them.
    pub fn start(alloc: Global, params: &Params) -> Result<Option<UpSample>, AllocError>
        ensures { IfOk result (λ actor. actor ≡ up_sample.start params.now) }
    {
        match factor_and_phase(&params.values) {
            Some((factor, phase)) => Ok(Some(UpSample::new(alloc, factor, phase)?)),
            None => Ok(None),
        }
    }

    /// How many tokens it gives.
    pub fn rate(&self) -> usize
        requires { IsCount (up_sample.rate self.now) }
        ensures { result ≡ up_sample.rate self.now }
    {
        self.before + 1 + self.after
    }

    /// Makes the firing where it gives numbers, and puts them into the buffer. Else it makes none.
    pub fn numbers(&self, inputs: &IntInputs<'_>, given: &mut Vec<i64>) -> bool
        ensures { GivesNumbers up_sample.step self.now inputs.now result given.new.items self.now }
    {
        given.clear();
        match inputs.number_at(0) {
            Some(input) => put_among_zeros(given, self.before, input, self.after).is_some(),
            None => false,
        }
    }

    /// Makes the first firings of a stretch, where each gives `rate` numbers, and tells how many. The buffer has the numbers then.
    pub fn stretch(&self, inputs: &IntRows<'_>, rate: usize, given: &mut Vec<i64>) -> usize
        ensures { GivesStretch up_sample.step self.now inputs.now rate result given.new.items self.now }
    {
        given.clear();
        let firings = inputs.firings();
        if !is_sum(rate, self.before, self.after) {
            return 0;
        }
        for k in 0..firings {
            let Some(input) = inputs.firing(k).number_at(0) else {
                return k;
            };
            if put_among_zeros(given, self.before, input, self.after).is_none() {
                return k;
            }
        }
        firings
    }
}

/// Puts a number with so many zeros before it and after it behind those in the buffer. Where that isn't told, the buffer is as before.
fn put_among_zeros(given: &mut Vec<i64>, before: usize, number: i64, after: usize) -> Option<()>
    ensures put { IfSome result (λ _. given.new.items ≡ given.old.items ++ number_among before number after) }
    ensures kept { result ≡ None → given.new.items ≡ given.old.items }
{
    let at = given.len().checked_add(before)?;
    let count = at.checked_add(1)?.checked_add(after)?;
    given.resize(count, 0).ok()?;
    given[at] = number;
    Some(())
}

/// Whether so many numbers are one, and those before it and after it.
fn is_sum(count: usize, before: usize, after: usize) -> bool
    ensures { IsTrue result → count ≡ before + 1 + after }
{
    match before.checked_add(1) {
        Some(first) => first.checked_add(after) == Some(count),
        None => false,
    }
}

/// A number with so many zeros before it and after it.
fn among_zeros(
    alloc: Global,
    before: usize,
    number: i64,
    after: usize,
) -> Result<Tokens, AllocError>
    ensures { IfOk result (λ tokens. tokens ≡ among_zeros before number after) }
{
    let mut tokens = Vec::new(alloc);
    push_zeros(&mut tokens, before)?;
    tokens.push(Token::Int(number))?;
    push_zeros(&mut tokens, after)?;
    Ok(Tokens::of(tokens))
}

fn push_zeros(tokens: &mut Vec<Token>, count: usize) -> Result<(), AllocError>
    ensures { OnOk result (tokens.new.items ≡ tokens.old.items ++ zeros count) }
{
    for _ in 0..count {
        tokens.push(Token::Int(0))?;
    }
    Ok(())
}

impl Fires for UpSample {
    ghost use Rattle.pt_flow_streams.specs.UpSample as up_sample;

    ghost step = { up_sample.step };

    ghost Takes = { λ tag actor X. Unit {0} };

    ghost IsSpare = { λ actor. ⊥ };

    fn step(&mut self, alloc: Global, _tag: Tag, inputs: &Inputs<'_>) -> Step {
        let Some(input) = inputs.number_at(0) else {
            return Step::Done(Outputs::none(1));
        };
        match among_zeros(alloc, self.before, input, self.after) {
            Ok(tokens) => Step::Done(Outputs::first(1, tokens)),
            Err(_) => Step::Memory,
        }
    }

    fn copy(&self, alloc: Global) -> Result<UpSample, AllocError> {
        Ok(UpSample {
            before: self.before,
            after: self.after,
            places: self.places.copy(alloc)?,
        })
    }
}

impl Actor for UpSample {
    ghost use Rattle.std.specs.Prelude.{[], None};
    ghost use Rattle.pt_firing.specs.Strict.{strict};
    ghost use Rattle.pt_flow_streams.specs.UpSample as up_sample;

    ghost first = { λ actor. [] };

    ghost need = { up_sample.need };

    ghost next = { λ actor. None };

    ghost early = { strict 1 up_sample.step };

    fn first(&self) -> &[Token] {
        &[]
    }

    fn need(&self) -> Need<'_> {
        Need::All(self.places.counts())
    }

    fn early(&self, alloc: Global, tag: Tag, partial: &Partial) -> Result<Partial, AllocError> {
        strict_early(self, 1, alloc, tag, partial)
    }

    fn next(&self) -> Option<Tag> {
        None
    }
}
