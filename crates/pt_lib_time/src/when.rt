ghost use Rattle.std.specs.Prelude.{◌≡◌, IfOk};
ghost use Rattle.pt_lib_time.specs.When as when;

use crate::signal::{copy_of, outputs_of};
use pt_firing::{Actor, Fires, Inputs, Need, OneEach, Outputs, Partial, Step, strict_early};
use pt_flow_base::Params;
use pt_time::Tag;
use pt_value::Token;
use std::alloc::{AllocError, Global};

/// `When`: gives its input where its control is present and true.
#[derive(Debug, Drop)]
pub struct When {
    places: OneEach,
}

impl When {
    /// The actor that the parameters start, if they are such as its row has them.
    pub fn start(alloc: Global, _params: &Params) -> Result<Option<When>, AllocError>
        ensures { IfOk result (λ actor. actor ≡ when.start _params.now) }
    {
        let places = OneEach::of(alloc, 2)?;
        Ok(Some(When { places }))
    }
}

impl Fires for When {
    ghost use Rattle.pt_lib_time.specs.When as when;

    ghost step = { when.step };

    ghost Takes = { λ tag actor X. Unit {0} };

    ghost IsSpare = { λ actor. ⊥ };

    fn step(&mut self, alloc: Global, _tag: Tag, inputs: &Inputs<'_>) -> Step {
        let Some(true) = inputs.truth_at(1) else {
            return Step::Done(Outputs::none(1));
        };
        match copy_of(alloc, inputs.token_at(0)) {
            Ok(input) => Step::Done(outputs_of(input)),
            Err(_) => Step::Memory,
        }
    }

    fn copy(&self, alloc: Global) -> Result<When, AllocError> {
        Ok(When {
            places: self.places.copy(alloc)?,
        })
    }
}

impl Actor for When {
    ghost use Rattle.std.specs.Prelude.{[], None};
    ghost use Rattle.pt_firing.specs.Strict.{strict};
    ghost use Rattle.pt_lib_time.specs.When as when;

    ghost first = { λ actor. [] };

    ghost need = { when.need };

    ghost next = { λ actor. None };

    ghost early = { strict 1 when.step };

    fn first(&self) -> &[Token] {
        &[]
    }

    fn need(&self) -> Need<'_> {
        Need::All(self.places.counts())
    }

    fn early(&self, alloc: Global, tag: Tag, partial: &Partial) -> Result<Partial, AllocError> {
        strict_early(self, 1, alloc, tag, partial)
    }

    fn next(&self) -> Option<Tag> {
        None
    }
}
