ghost use Rattle.std.specs.Prelude.{◌≡◌, IfOk};
ghost use Rattle.pt_flow_base.specs.Limit.{is_endless};
ghost use Rattle.pt_flow_base.specs.Number.{GivesNumber};
ghost use Rattle.pt_flow_numbers.specs.Ramp as ramp;

use crate::exact_sum::ExactSum;
use pt_firing::{
    Actor, Fires, Inputs, IntInputs, Need, OneEach, Outputs, Partial, RunFault, Step, strict_early,
};
use pt_flow_base::{Limit, Params, is_called};
use pt_time::Tag;
use pt_value::Token;
use std::alloc::{AllocError, Global};

/// `Ramp`: a source that gives a number, and at each later firing a step more.
///
/// The number may pass the range of `i64` after the last firing that fits.
#[derive(Debug, Drop)]
pub struct Ramp {
    next: ExactSum,
    step: i64,
    limit: Limit,
    places: OneEach,
}

impl Ramp {
    /// A ramp with so many trigger places: none, or one.
    pub fn new(
        alloc: Global,
        init: i64,
        step: i64,
        limit: Limit,
        triggers: usize,
    ) -> Result<Ramp, AllocError>
        ensures { IfOk result (λ actor. actor ≡ record { next = init; step = step; limit = limit; places = triggers }) }
    {
        Ok(Ramp {
            next: ExactSum::alone(init),
            step,
            limit,
            places: OneEach::of(alloc, triggers)?,
        })
    }

    /// The actor that the parameters start, if they are such as its row has them.
    pub fn start(alloc: Global, params: &Params) -> Result<Option<Ramp>, AllocError>
        ensures { IfOk result (λ actor. actor ≡ ramp.start params.now) }
    {
        let triggers = params.ports.channels("trigger") as usize;
        match (
            params.values.int_or("init", 0),
            params.values.int_or("step", 1),
            Limit::within(&params.values),
        ) {
            (Some(init), Some(step), Some(limit)) => {
                Ok(Some(Ramp::new(alloc, init, step, limit, triggers)?))
            }
            _ => Ok(None),
        }
    }
}

impl Ramp {
    /// A ramp that stands for another while that one is taken out. It takes no memory.
    pub fn idle(alloc: Global) -> Ramp {
        Ramp {
            next: ExactSum::alone(0),
            step: 0,
            limit: Limit::Endless,
            places: OneEach::none(alloc),
        }
    }

    /// How many trigger places it has: none, or one.
    pub fn triggers(&self) -> usize
        ensures { result ≡ self.now.places }
    {
        self.places.places()
    }

    /// It has no limit.
    pub fn is_endless(&self) -> bool
        ensures { result ≡ is_endless self.now.limit }
    {
        self.limit.is_endless()
    }

    /// Makes the firing where it gives a number. Else it makes none.
    #[inline(always)]
    pub fn number(&mut self, inputs: &IntInputs<'_>) -> Option<i64>
        ensures { GivesNumber ramp.step self.old inputs.now result self.new }
    {
        if self.limit.is_over() || !is_called(inputs) {
            return None;
        }
        let Some(given) = self.next.number() else {
            return None;
        };
        self.next = ExactSum::of(given, self.step);
        self.limit = self.limit.after_one();
        Some(given)
    }
}

impl Fires for Ramp {
    ghost use Rattle.pt_flow_numbers.specs.Ramp as ramp;

    ghost step = { ramp.step };

    ghost Takes = { λ tag actor X. Unit {0} };

    ghost IsSpare = { λ actor. Unit {0} };

    fn step(&mut self, _alloc: Global, _tag: Tag, inputs: &Inputs<'_>) -> Step {
        if self.limit.is_over() || !is_called(inputs) {
            return Step::Done(Outputs::none(1));
        }
        let Some(given) = self.next.number() else {
            return Step::Fault(RunFault::Overflow);
        };
        self.next = ExactSum::of(given, self.step);
        self.limit = self.limit.after_one();
        Step::Done(Outputs::one(Token::Int(given)))
    }

    fn copy(&self, alloc: Global) -> Result<Ramp, AllocError> {
        Ok(Ramp {
            next: self.next.copy(),
            step: self.step,
            limit: self.limit,
            places: self.places.copy(alloc)?,
        })
    }
}

impl Actor for Ramp {
    ghost use Rattle.std.specs.Prelude.{[], None};
    ghost use Rattle.pt_firing.specs.Strict.{strict};
    ghost use Rattle.pt_flow_numbers.specs.Ramp as ramp;

    ghost first = { λ actor. [] };

    ghost need = { ramp.need };

    ghost next = { λ actor. None };

    ghost early = { strict 1 ramp.step };

    fn first(&self) -> &[Token] {
        &[]
    }

    fn need(&self) -> Need<'_> {
        if self.limit.is_over() {
            return Need::Over;
        }
        Need::All(self.places.counts())
    }

    fn early(&self, alloc: Global, tag: Tag, partial: &Partial) -> Result<Partial, AllocError> {
        strict_early(self, 1, alloc, tag, partial)
    }

    fn next(&self) -> Option<Tag> {
        None
    }
}
