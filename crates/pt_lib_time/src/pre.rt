ghost use Rattle.std.specs.Prelude.{◌≡◌, IfOk};
ghost use Rattle.pt_lib_time.specs.Pre as pre;

use crate::signal::{copy_of, outputs_of};
use pt_firing::{Actor, Fires, Inputs, Need, OneEach, Outputs, Partial, Step, strict_early};
use pt_flow_base::Params;
use pt_time::Tag;
use pt_value::Token;
use std::alloc::{AllocError, Global};
use std::mem;

/// `Pre`: where its input is present it gives the present input before it.
#[derive(Drop)]
pub struct Pre {
    kept: Option<Token>,
    places: OneEach,
}

impl Pre {
    /// The actor that the parameters start, if they are such as its row has them.
    pub fn start(alloc: Global, params: &Params) -> Result<Option<Pre>, AllocError>
        ensures { IfOk result (λ actor. actor ≡ pre.start params.now) }
    {
        let kept = copy_of(alloc, params.values.get("initialValue"))?;
        let places = OneEach::of(alloc, 1)?;
        Ok(Some(Pre { kept, places }))
    }
}

impl Fires for Pre {
    ghost use Rattle.pt_lib_time.specs.Pre as pre;

    ghost step = { pre.step };

    ghost Takes = { λ tag actor X. Unit {0} };

    ghost IsSpare = { λ actor. ⊥ };

    fn step(&mut self, alloc: Global, _tag: Tag, inputs: &Inputs<'_>) -> Step {
        let Some(input) = inputs.token_at(0) else {
            return Step::Done(Outputs::none(1));
        };
        match input.copy(alloc) {
            Ok(input) => Step::Done(outputs_of(mem::replace(&mut self.kept, Some(input)))),
            Err(_) => Step::Memory,
        }
    }

    fn copy(&self, alloc: Global) -> Result<Pre, AllocError> {
        Ok(Pre {
            kept: copy_of(alloc, self.kept.as_ref())?,
            places: self.places.copy(alloc)?,
        })
    }
}

impl Actor for Pre {
    ghost use Rattle.std.specs.Prelude.{[], None};
    ghost use Rattle.pt_firing.specs.Strict.{strict};
    ghost use Rattle.pt_lib_time.specs.Pre as pre;

    ghost first = { λ actor. [] };

    ghost need = { pre.need };

    ghost next = { λ actor. None };

    ghost early = { strict 1 pre.step };

    fn first(&self) -> &[Token] {
        &[]
    }

    fn need(&self) -> Need<'_> {
        Need::All(self.places.counts())
    }

    fn early(&self, alloc: Global, tag: Tag, partial: &Partial) -> Result<Partial, AllocError> {
        strict_early(self, 1, alloc, tag, partial)
    }

    fn next(&self) -> Option<Tag> {
        None
    }
}
