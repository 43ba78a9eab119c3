ghost use Rattle.std.specs.Prelude.{◌≡◌, IfOk};
ghost use Rattle.pt_flow_base.specs.Number.{GivesNumber};
ghost use Rattle.pt_flow_numbers.specs.Scale as scale;

use pt_firing::{
    Actor, Fires, Inputs, IntInputs, Need, OneEach, Outputs, Partial, RunFault, Step, strict_early,
};
use pt_flow_base::Params;
use pt_time::Tag;
use pt_value::Token;
use std::alloc::{AllocError, Global};

/// `Scale`: multiplies its input by a factor.
#[derive(Debug, Drop)]
pub struct Scale {
    factor: i64,
    places: OneEach,
}

impl Scale {
    pub fn new(alloc: Global, factor: i64) -> Result<Scale, AllocError>
        ensures { IfOk result (λ actor. actor ≡ record { factor = factor; places = 1 }) }
    {
        Ok(Scale {
            factor,
            places: OneEach::of(alloc, 1)?,
        })
    }

    /// The actor that the parameters start, if they are such as its row has them.
    pub fn start(alloc: Global, params: &Params) -> Result<Option<Scale>, AllocError>
        ensures { IfOk result (λ actor. actor ≡ scale.start params.now) }
    {
        match params.values.int_or("factor", 1) {
            Some(factor) => Ok(Some(Scale::new(alloc, factor)?)),
            None => Ok(None),
        }
    }

    /// Makes the firing where it gives a number. Else it makes none.
    #[inline(always)]
    pub fn number(&self, inputs: &IntInputs<'_>) -> Option<i64>
        ensures { GivesNumber scale.step self.now inputs.now result self.now }
    {
        inputs.number_at(0)?.checked_mul(self.factor)
    }
}

impl Fires for Scale {
    ghost use Rattle.pt_flow_numbers.specs.Scale as scale;

    ghost step = { scale.step };

    ghost Takes = { λ tag actor X. Unit {0} };

    ghost IsSpare = { λ actor. Unit {0} };

    fn step(&mut self, _alloc: Global, _tag: Tag, inputs: &Inputs<'_>) -> Step {
        match inputs.number_at(0) {
            None => Step::Done(Outputs::none(1)),
            Some(input) => match input.checked_mul(self.factor) {
                Some(product) => Step::Done(Outputs::one(Token::Int(product))),
                None => Step::Fault(RunFault::Overflow),
            },
        }
    }

    fn copy(&self, alloc: Global) -> Result<Scale, AllocError> {
        Ok(Scale {
            factor: self.factor,
            places: self.places.copy(alloc)?,
        })
    }
}

impl Actor for Scale {
    ghost use Rattle.std.specs.Prelude.{[], None};
    ghost use Rattle.pt_firing.specs.Strict.{strict};
    ghost use Rattle.pt_flow_numbers.specs.Scale as scale;

    ghost first = { λ actor. [] };

    ghost need = { scale.need };

    ghost next = { λ actor. None };

    ghost early = { strict 1 scale.step };

    fn first(&self) -> &[Token] {
        &[]
    }

    fn need(&self) -> Need<'_> {
        Need::All(self.places.counts())
    }

    fn early(&self, alloc: Global, tag: Tag, partial: &Partial) -> Result<Partial, AllocError> {
        strict_early(self, 1, alloc, tag, partial)
    }

    fn next(&self) -> Option<Tag> {
        None
    }
}
