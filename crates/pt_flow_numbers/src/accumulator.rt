ghost use Rattle.std.specs.Prelude.{◌≡◌, ◌+◌, false, unwrap_or, IfOk, if◌then◌else◌};
ghost use Rattle.pt_flow_base.specs.Number.{GivesNumber};
ghost use Rattle.pt_flow_numbers.specs.Accumulator as accumulator;

use pt_firing::{
    Actor, Fires, Inputs, IntInputs, Need, OneEach, Outputs, Partial, RunFault, Step, strict_early,
};
use pt_flow_base::Params;
use pt_time::Tag;
use pt_value::Token;
use std::alloc::{AllocError, Global};

/// `Accumulator`: gives the sum of all inputs since the start or the last true reset.
#[derive(Debug, Drop)]
pub struct Accumulator {
    init: i64,
    sum: i64,
    places: OneEach,
}

impl Accumulator {
    /// An accumulator with so many reset places: none, or one.
    pub fn new(alloc: Global, init: i64, resets: u32) -> Result<Accumulator, AllocError>
        ensures { IfOk result (λ actor. actor ≡ record { init = init; sum = init; places = resets + 1 }) }
    {
        Ok(Accumulator {
            init,
            sum: init,
            places: OneEach::of(alloc, resets as usize + 1)?,
        })
    }

    /// The actor that the parameters start, if they are such as its row has them.
    pub fn start(alloc: Global, params: &Params) -> Result<Option<Accumulator>, AllocError>
        ensures { IfOk result (λ actor. actor ≡ accumulator.start params.now) }
    {
        let resets = params.ports.channels("reset");
        match params.values.int_or("init", 0) {
            Some(init) => Ok(Some(Accumulator::new(alloc, init, resets)?)),
            None => Ok(None),
        }
    }

    /// An accumulator that stands for another while that one is taken out. It takes no memory.
    pub fn idle(alloc: Global) -> Accumulator {
        Accumulator {
            init: 0,
            sum: 0,
            places: OneEach::none(alloc),
        }
    }

    /// The sum before the input is added, where there is such a reset.
    #[inline(always)]
    fn before(&self, reset: Option<bool>) -> i64
        ensures { result ≡ (if unwrap_or reset false then self.now.init else self.now.sum) }
    {
        if reset.unwrap_or(false) {
            self.init
        } else {
            self.sum
        }
    }

    /// Makes the firing where it gives a number. Else it makes none.
    #[inline(always)]
    pub fn number(&mut self, inputs: &IntInputs<'_>) -> Option<i64>
        ensures { GivesNumber accumulator.step self.old inputs.now result self.new }
    {
        let sum = self
            .before(inputs.truth_at(1))
            .checked_add(inputs.number_at(0)?)?;
        self.sum = sum;
        Some(sum)
    }
}

impl Fires for Accumulator {
    ghost use Rattle.pt_flow_numbers.specs.Accumulator as accumulator;

    ghost step = { accumulator.step };

    ghost Takes = { λ tag actor X. Unit {0} };

    ghost IsSpare = { λ actor. Unit {0} };

    fn step(&mut self, _alloc: Global, _tag: Tag, inputs: &Inputs<'_>) -> Step {
        let before = self.before(inputs.truth_at(1));
        match inputs.number_at(0) {
            None => {
                self.sum = before;
                Step::Done(Outputs::none(1))
            }
            Some(input) => match before.checked_add(input) {
                Some(sum) => {
                    self.sum = sum;
                    Step::Done(Outputs::one(Token::Int(sum)))
                }
                None => Step::Fault(RunFault::Overflow),
            },
        }
    }

    fn copy(&self, alloc: Global) -> Result<Accumulator, AllocError> {
        Ok(Accumulator {
            init: self.init,
            sum: self.sum,
            places: self.places.copy(alloc)?,
        })
    }
}

impl Actor for Accumulator {
    ghost use Rattle.std.specs.Prelude.{[], None};
    ghost use Rattle.pt_firing.specs.Strict.{strict};
    ghost use Rattle.pt_flow_numbers.specs.Accumulator as accumulator;

    ghost first = { λ actor. [] };

    ghost need = { accumulator.need };

    ghost next = { λ actor. None };

    ghost early = { strict 1 accumulator.step };

    fn first(&self) -> &[Token] {
        &[]
    }

    fn need(&self) -> Need<'_> {
        Need::All(self.places.counts())
    }

    fn early(&self, alloc: Global, tag: Tag, partial: &Partial) -> Result<Partial, AllocError> {
        strict_early(self, 1, alloc, tag, partial)
    }

    fn next(&self) -> Option<Tag> {
        None
    }
}
