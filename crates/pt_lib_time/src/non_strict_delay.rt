ghost use Rattle.std.specs.Prelude.{◌≡◌, IfOk};
ghost use Rattle.pt_lib_time.specs.NonStrictDelay as non_strict_delay;

use crate::signal::{copy_of, outputs_of, told};
use pt_firing::{Actor, Fires, Inputs, Need, OneEach, Partial, Step};
use pt_flow_base::Params;
use pt_time::Tag;
use pt_value::Token;
use std::alloc::{AllocError, Global};
use std::mem;

/// `NonStrictDelay`: gives its input of the last tick, absent where that was.
#[derive(Drop)]
pub struct NonStrictDelay {
    kept: Option<Token>,
    places: OneEach,
}

impl NonStrictDelay {
    /// The actor that the parameters start, if they are such as its row has them.
    pub fn start(alloc: Global, params: &Params) -> Result<Option<NonStrictDelay>, AllocError>
        ensures { IfOk result (λ actor. actor ≡ non_strict_delay.start params.now) }
    {
        let kept = copy_of(alloc, params.values.get("initialValue"))?;
        let places = OneEach::of(alloc, 1)?;
        Ok(Some(NonStrictDelay { kept, places }))
    }
}

impl Fires for NonStrictDelay {
    ghost use Rattle.pt_lib_time.specs.NonStrictDelay as non_strict_delay;

    ghost step = { non_strict_delay.step };

    ghost Takes = { λ tag actor X. Unit {0} };

    ghost IsSpare = { λ actor. ⊥ };

    fn step(&mut self, alloc: Global, _tag: Tag, inputs: &Inputs<'_>) -> Step {
        match copy_of(alloc, inputs.token_at(0)) {
            Ok(input) => Step::Done(outputs_of(mem::replace(&mut self.kept, input))),
            Err(_) => Step::Memory,
        }
    }

    fn copy(&self, alloc: Global) -> Result<NonStrictDelay, AllocError> {
        Ok(NonStrictDelay {
            kept: copy_of(alloc, self.kept.as_ref())?,
            places: self.places.copy(alloc)?,
        })
    }
}

impl Actor for NonStrictDelay {
    ghost use Rattle.std.specs.Prelude.{[], None};
    ghost use Rattle.pt_lib_time.specs.NonStrictDelay as non_strict_delay;

    ghost first = { λ actor. [] };

    ghost need = { non_strict_delay.need };

    ghost next = { λ actor. None };

    ghost early = { non_strict_delay.early };

    fn first(&self) -> &[Token] {
        &[]
    }

    fn need(&self) -> Need<'_> {
        Need::All(self.places.counts())
    }

    fn early(&self, alloc: Global, _tag: Tag, _partial: &Partial) -> Result<Partial, AllocError> {
        told(alloc, copy_of(alloc, self.kept.as_ref())?)
    }

    fn next(&self) -> Option<Tag> {
        None
    }
}
