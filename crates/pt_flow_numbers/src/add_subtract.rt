ghost use Rattle.std.specs.Prelude.{◌≡◌, ◌+◌, IfOk};
ghost use Rattle.pt_flow_base.specs.Row.{sum_of};
ghost use Rattle.pt_flow_base.specs.Number.{GivesNumber};
ghost use Rattle.pt_flow_numbers.specs.AddSubtract as add_subtract;

use pt_firing::{
    Actor, Fires, Inputs, IntInputs, Need, OneEach, Outputs, Partial, RunFault, Step, strict_early,
};
use pt_flow_base::{Numbered, Params, sum_between};
use pt_time::Tag;
use pt_value::Token;
use std::alloc::{AllocError, Global};

/// `AddSubtract`: gives the sum of its plus inputs without its minus inputs.
#[derive(Debug, Drop)]
pub struct AddSubtract {
    plus: usize,
    places: OneEach,
}

impl AddSubtract {
    /// A sum with so many plus places, and then so many minus places.
    pub fn new(alloc: Global, plus: u32, minus: u32) -> Result<AddSubtract, AllocError>
        ensures { IfOk result (λ actor. actor ≡ record { plus = plus; places = plus + minus }) }
    {
        Ok(AddSubtract {
            plus: plus as usize,
            places: OneEach::of(alloc, plus as usize + minus as usize)?,
        })
    }

    /// The actor that the parameters start, if they are such as its row has them.
    pub fn start(alloc: Global, params: &Params) -> Result<Option<AddSubtract>, AllocError>
        ensures { IfOk result (λ actor. actor ≡ add_subtract.start params.now) }
    {
        let plus = params.ports.channels("plus");
        let minus = params.ports.channels("minus");
        Ok(Some(AddSubtract::new(alloc, plus, minus)?))
    }

    /// The exact sum, if any number is present.
    fn sum<I: Numbered>(&self, inputs: &I) -> Option<i128>
        ensures { result ≡ sum_of self.now.plus (I.streams inputs.now) }
    {
        let end = inputs.places();
        let middle = self.plus.min(end);
        let plus = sum_between(inputs, 0, middle);
        let minus = sum_between(inputs, middle, end);
        plus.without(minus)
    }

    /// Makes the firing where it gives a number. Else it makes none.
    #[inline(always)]
    pub fn number(&self, inputs: &IntInputs<'_>) -> Option<i64>
        ensures { GivesNumber add_subtract.step self.now inputs.now result self.now }
    {
        match (self.plus, inputs.places()) {
            (1, 2) => inputs.number_at(0)?.checked_sub(inputs.number_at(1)?),
            (2, 2) => inputs.number_at(0)?.checked_add(inputs.number_at(1)?),
            _ => i64::try_from(self.sum(inputs)?).ok(),
        }
    }
}

impl Fires for AddSubtract {
    ghost use Rattle.pt_flow_numbers.specs.AddSubtract as add_subtract;

    ghost step = { add_subtract.step };

    ghost Takes = { λ tag actor X. Unit {0} };

    ghost IsSpare = { λ actor. Unit {0} };

    fn step(&mut self, _alloc: Global, _tag: Tag, inputs: &Inputs<'_>) -> Step {
        match self.sum(inputs) {
            None => Step::Done(Outputs::none(1)),
            Some(sum) => match i64::try_from(sum) {
                Ok(sum) => Step::Done(Outputs::one(Token::Int(sum))),
                Err(_) => Step::Fault(RunFault::Overflow),
            },
        }
    }

    fn copy(&self, alloc: Global) -> Result<AddSubtract, AllocError> {
        Ok(AddSubtract {
            plus: self.plus,
            places: self.places.copy(alloc)?,
        })
    }
}

impl Actor for AddSubtract {
    ghost use Rattle.std.specs.Prelude.{[], None};
    ghost use Rattle.pt_firing.specs.Strict.{strict};
    ghost use Rattle.pt_flow_numbers.specs.AddSubtract as add_subtract;

    ghost first = { λ actor. [] };

    ghost need = { add_subtract.need };

    ghost next = { λ actor. None };

    ghost early = { strict 1 add_subtract.step };

    fn first(&self) -> &[Token] {
        &[]
    }

    fn need(&self) -> Need<'_> {
        Need::All(self.places.counts())
    }

    fn early(&self, alloc: Global, tag: Tag, partial: &Partial) -> Result<Partial, AllocError> {
        strict_early(self, 1, alloc, tag, partial)
    }

    fn next(&self) -> Option<Tag> {
        None
    }
}
