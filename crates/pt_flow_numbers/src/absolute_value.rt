ghost use Rattle.std.specs.Prelude.{◌≡◌, IfOk};
ghost use Rattle.pt_flow_base.specs.Number.{GivesNumber};
ghost use Rattle.pt_flow_numbers.specs.AbsoluteValue as absolute_value;

use pt_firing::{
    Actor, Fires, Inputs, IntInputs, Need, OneEach, Outputs, Partial, RunFault, Step, strict_early,
};
use pt_flow_base::Params;
use pt_time::Tag;
use pt_value::Token;
use std::alloc::{AllocError, Global};

/// `AbsoluteValue`: gives how far its input is from 0.
#[derive(Debug, Drop)]
pub struct AbsoluteValue {
    places: OneEach,
}

impl AbsoluteValue {
    pub fn new(alloc: Global) -> Result<AbsoluteValue, AllocError>
        ensures { IfOk result (λ actor. actor ≡ record { places = 1 }) }
    {
        Ok(AbsoluteValue {
            places: OneEach::of(alloc, 1)?,
        })
    }

    /// The actor that the parameters start, if they are such as its row has them.
    pub fn start(alloc: Global, _params: &Params) -> Result<Option<AbsoluteValue>, AllocError>
        ensures { IfOk result (λ actor. actor ≡ absolute_value.start _params.now) }
    {
        Ok(Some(AbsoluteValue::new(alloc)?))
    }

    /// Makes the firing where it gives a number. Else it makes none.
    #[inline(always)]
    pub fn number(&self, inputs: &IntInputs<'_>) -> Option<i64>
        ensures { GivesNumber absolute_value.step self.now inputs.now result self.now }
    {
        inputs.number_at(0)?.checked_abs()
    }
}

impl Fires for AbsoluteValue {
    ghost use Rattle.pt_flow_numbers.specs.AbsoluteValue as absolute_value;

    ghost step = { absolute_value.step };

    ghost Takes = { λ tag actor X. Unit {0} };

    ghost IsSpare = { λ actor. Unit {0} };

    fn step(&mut self, _alloc: Global, _tag: Tag, inputs: &Inputs<'_>) -> Step {
        match inputs.number_at(0) {
            None => Step::Done(Outputs::none(1)),
            Some(input) => match input.checked_abs() {
                Some(distance) => Step::Done(Outputs::one(Token::Int(distance))),
                None => Step::Fault(RunFault::Overflow),
            },
        }
    }

    fn copy(&self, alloc: Global) -> Result<AbsoluteValue, AllocError> {
        Ok(AbsoluteValue {
            places: self.places.copy(alloc)?,
        })
    }
}

impl Actor for AbsoluteValue {
    ghost use Rattle.std.specs.Prelude.{[], None};
    ghost use Rattle.pt_firing.specs.Strict.{strict};
    ghost use Rattle.pt_flow_numbers.specs.AbsoluteValue as absolute_value;

    ghost first = { λ actor. [] };

    ghost need = { absolute_value.need };

    ghost next = { λ actor. None };

    ghost early = { strict 1 absolute_value.step };

    fn first(&self) -> &[Token] {
        &[]
    }

    fn need(&self) -> Need<'_> {
        Need::All(self.places.counts())
    }

    fn early(&self, alloc: Global, tag: Tag, partial: &Partial) -> Result<Partial, AllocError> {
        strict_early(self, 1, alloc, tag, partial)
    }

    fn next(&self) -> Option<Tag> {
        None
    }
}
