ghost use Rattle.std.specs.Prelude.{◌≡◌, IfOk};
ghost use Rattle.pt_flow_numbers.specs.Counter.{is_up, is_down, change};
ghost use Rattle.pt_flow_numbers.specs.Counter as counter;
ghost use Rattle.pt_flow_base.specs.Number.{GivesNumber};

use pt_firing::{
    Actor, Fires, Inputs, IntInputs, Need, OneEach, Outputs, Partial, RunFault, Step, strict_early,
};
use pt_flow_base::{Numbered, Params};
use pt_time::Tag;
use pt_value::Token;
use std::alloc::{AllocError, Global};

/// `Counter`: counts up and down, from 0.
#[derive(Debug, Drop)]
pub struct Counter {
    count: i64,
    has_increment: bool,
    places: OneEach,
}

impl Counter {
    /// A counter with so many increment places and so many decrement places: none, or one.
    pub fn new(alloc: Global, increments: u32, decrements: u32) -> Result<Counter, AllocError>
        ensures { IfOk result (λ actor. Some actor ≡ counter.start_by increments decrements) }
    {
        Ok(Counter {
            count: 0,
            has_increment: 0 < increments,
            places: OneEach::of(alloc, increments as usize + decrements as usize)?,
        })
    }

    /// The actor that the parameters start, if they are such as its row has them.
    pub fn start(alloc: Global, params: &Params) -> Result<Option<Counter>, AllocError>
        ensures { IfOk result (λ actor. actor ≡ counter.start params.now) }
    {
        let increments = params.ports.channels("increment");
        let decrements = params.ports.channels("decrement");
        Ok(Some(Counter::new(alloc, increments, decrements)?))
    }

    #[inline(always)]
    fn is_up<I: Numbered>(&self, inputs: &I) -> bool
        ensures { result ≡ is_up self.now (I.streams inputs.now) }
    {
        self.has_increment && inputs.is_present(0)
    }

    #[inline(always)]
    fn is_down<I: Numbered>(&self, inputs: &I) -> bool
        ensures { result ≡ is_down self.now (I.streams inputs.now) }
    {
        inputs.is_present(if self.has_increment { 1 } else { 0 })
    }

    /// Makes the firing where it gives a number. Else it makes none.
    #[inline(always)]
    pub fn number(&mut self, inputs: &IntInputs<'_>) -> Option<i64>
        ensures { GivesNumber counter.step self.old inputs.now result self.new }
    {
        let change = change(self.is_up(inputs), self.is_down(inputs))?;
        self.count = self.count.checked_add(change)?;
        Some(self.count)
    }
}

/// By how much the count changes, if anything is present.
fn change(is_up: bool, is_down: bool) -> Option<i64>
    ensures { result ≡ change is_up is_down }
{
    match (is_up, is_down) {
        (true, true) => Some(0),
        (true, false) => Some(1),
        (false, true) => Some(-1),
        (false, false) => None,
    }
}

impl Fires for Counter {
    ghost use Rattle.pt_flow_numbers.specs.Counter as counter;

    ghost step = { counter.step };

    ghost Takes = { λ tag actor X. Unit {0} };

    ghost IsSpare = { λ actor. Unit {0} };

    fn step(&mut self, _alloc: Global, _tag: Tag, inputs: &Inputs<'_>) -> Step {
        let Some(change) = change(self.is_up(inputs), self.is_down(inputs)) else {
            return Step::Done(Outputs::none(1));
        };
        match self.count.checked_add(change) {
            Some(count) => {
                self.count = count;
                Step::Done(Outputs::one(Token::Int(count)))
            }
            None => Step::Fault(RunFault::Overflow),
        }
    }

    fn copy(&self, alloc: Global) -> Result<Counter, AllocError> {
        Ok(Counter {
            count: self.count,
            has_increment: self.has_increment,
            places: self.places.copy(alloc)?,
        })
    }
}

impl Actor for Counter {
    ghost use Rattle.std.specs.Prelude.{[], None};
    ghost use Rattle.pt_firing.specs.Strict.{strict};
    ghost use Rattle.pt_flow_numbers.specs.Counter as counter;

    ghost first = { λ actor. [] };

    ghost need = { counter.need };

    ghost next = { λ actor. None };

    ghost early = { strict 1 counter.step };

    fn first(&self) -> &[Token] {
        &[]
    }

    fn need(&self) -> Need<'_> {
        Need::All(self.places.counts())
    }

    fn early(&self, alloc: Global, tag: Tag, partial: &Partial) -> Result<Partial, AllocError> {
        strict_early(self, 1, alloc, tag, partial)
    }

    fn next(&self) -> Option<Tag> {
        None
    }
}
