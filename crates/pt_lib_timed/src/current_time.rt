ghost use Rattle.std.specs.Prelude.{◌≡◌, IfOk};
ghost use Rattle.pt_lib_timed.specs.CurrentTime as current_time;
ghost use Rattle.pt_lib_timed.specs.Signal.{GivesSignal};

use pt_firing::{
    Actor, Fires, Inputs, Need, OneEach, Outputs, Partial, RunFault, Step, strict_early,
};
use pt_flow_base::Params;
use pt_time::Tag;
use pt_value::Token;
use std::alloc::{AllocError, Global};

/// `CurrentTime`: gives the time of the tag, in ticks, where its trigger is present.
#[derive(Debug, Drop)]
pub struct CurrentTime {
    places: OneEach,
}

impl CurrentTime {
    /// The actor that the parameters start, if they are such as its row has them.
    pub fn start(alloc: Global, _params: &Params) -> Result<Option<CurrentTime>, AllocError>
        ensures { IfOk result (λ actor. actor ≡ current_time.start _params.now) }
    {
        let places = OneEach::of(alloc, 1)?;
        Ok(Some(CurrentTime { places }))
    }

    /// Makes a firing that gives one integer at most. Where it makes none, `step` makes the firing.
    pub fn signal(&self, tag: Tag, inputs: &Inputs<'_>) -> Option<Option<i64>>
        ensures { GivesSignal current_time.step self.now tag inputs.now result self.now }
    {
        if !inputs.is_present(0) {
            return Some(None);
        }
        let time = i64::try_from(tag.time).ok()?;
        Some(Some(time))
    }
}

impl Fires for CurrentTime {
    ghost use Rattle.pt_lib_timed.specs.CurrentTime as current_time;

    ghost step = { current_time.step };

    ghost Takes = { λ tag actor X. Unit {0} };

    ghost IsSpare = { λ actor. Unit {0} };

    fn step(&mut self, _alloc: Global, tag: Tag, inputs: &Inputs<'_>) -> Step {
        if !inputs.is_present(0) {
            return Step::Done(Outputs::none(1));
        }
        match i64::try_from(tag.time) {
            Ok(time) => Step::Done(Outputs::one(Token::Int(time))),
            Err(_) => Step::Fault(RunFault::Overflow),
        }
    }

    fn copy(&self, alloc: Global) -> Result<CurrentTime, AllocError> {
        Ok(CurrentTime {
            places: self.places.copy(alloc)?,
        })
    }
}

impl Actor for CurrentTime {
    ghost use Rattle.std.specs.Prelude.{[], None};
    ghost use Rattle.pt_firing.specs.Strict.{strict};
    ghost use Rattle.pt_lib_timed.specs.CurrentTime as current_time;

    ghost first = { λ actor. [] };

    ghost need = { current_time.need };

    ghost next = { λ actor. None };

    ghost early = { strict 1 current_time.step };

    fn first(&self) -> &[Token] {
        &[]
    }

    fn need(&self) -> Need<'_> {
        Need::All(self.places.counts())
    }

    fn early(&self, alloc: Global, tag: Tag, partial: &Partial) -> Result<Partial, AllocError> {
        strict_early(self, 1, alloc, tag, partial)
    }

    fn next(&self) -> Option<Tag> {
        None
    }
}
