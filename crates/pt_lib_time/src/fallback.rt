ghost use Rattle.std.specs.Prelude.{◌≡◌, IfOk};
ghost use Rattle.pt_firing.specs.TriState.{partial_of};
ghost use Rattle.pt_lib_time.specs.Default as fallback;

use crate::signal::{copy_of, decided_or_strict, known_token, outputs_of};
use pt_firing::{Actor, Fires, Inputs, Need, OneEach, Partial, Step, TriState};
use pt_flow_base::Params;
use pt_time::Tag;
use pt_value::Token;
use std::alloc::{AllocError, Global};

/// `Default`: gives its preferred input where that is present, else the alternate one.
#[derive(Debug, Drop)]
pub struct Default {
    places: OneEach,
}

impl Default {
    /// The actor that the parameters start, if they are such as its row has them.
    pub fn start(alloc: Global, _params: &Params) -> Result<Option<Default>, AllocError>
        ensures { IfOk result (λ actor. actor ≡ fallback.start _params.now) }
    {
        let places = OneEach::of(alloc, 2)?;
        Ok(Some(Default { places }))
    }
}

/// What a preferred input that is known to be present decides.
fn decided(alloc: Global, partial: &Partial) -> Result<TriState, AllocError>
    ensures { IfOk result (λ state. partial_of state ≡ fallback.decided partial.now) }
{
    match known_token(partial, 0) {
        Some(preferred) => Ok(TriState::Present(preferred.copy(alloc)?)),
        None => Ok(TriState::Unknown),
    }
}

impl Fires for Default {
    ghost use Rattle.pt_lib_time.specs.Default as fallback;

    ghost step = { fallback.step };

    ghost Takes = { λ tag actor X. Unit {0} };

    ghost IsSpare = { λ actor. ⊥ };

    fn step(&mut self, alloc: Global, _tag: Tag, inputs: &Inputs<'_>) -> Step {
        match copy_of(alloc, inputs.token_at(0).or(inputs.token_at(1))) {
            Ok(input) => Step::Done(outputs_of(input)),
            Err(_) => Step::Memory,
        }
    }

    fn copy(&self, alloc: Global) -> Result<Default, AllocError> {
        Ok(Default {
            places: self.places.copy(alloc)?,
        })
    }
}

impl Actor for Default {
    ghost use Rattle.std.specs.Prelude.{[], None};
    ghost use Rattle.pt_lib_time.specs.Default as fallback;

    ghost first = { λ actor. [] };

    ghost need = { fallback.need };

    ghost next = { λ actor. None };

    ghost early = { fallback.early };

    fn first(&self) -> &[Token] {
        &[]
    }

    fn need(&self) -> Need<'_> {
        Need::All(self.places.counts())
    }

    fn early(&self, alloc: Global, tag: Tag, partial: &Partial) -> Result<Partial, AllocError> {
        let decided = decided(alloc, partial)?;
        decided_or_strict(self, decided, alloc, tag, partial)
    }

    fn next(&self) -> Option<Tag> {
        None
    }
}
