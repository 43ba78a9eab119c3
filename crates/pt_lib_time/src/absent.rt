ghost use Rattle.std.specs.Prelude.{◌≡◌, IfOk};
ghost use Rattle.pt_lib_time.specs.Absent as absent;

use pt_firing::{Actor, Fires, Inputs, Need, OneEach, Outputs, Partial, Step, strict_early};
use pt_flow_base::Params;
use pt_time::Tag;
use pt_value::Token;
use std::alloc::{AllocError, Global};

/// `Absent`: a source that is absent at every tick.
#[derive(Debug, Drop)]
pub struct Absent {
    places: OneEach,
}

impl Absent {
    /// The actor that the parameters start, if they are such as its row has them.
    pub fn start(alloc: Global, _params: &Params) -> Result<Option<Absent>, AllocError>
        ensures { IfOk result (λ actor. actor ≡ absent.start _params.now) }
    {
        let places = OneEach::of(alloc, 0)?;
        Ok(Some(Absent { places }))
    }
}

impl Fires for Absent {
    ghost use Rattle.pt_lib_time.specs.Absent as absent;

    ghost step = { absent.step };

    ghost Takes = { λ tag actor X. Unit {0} };

    ghost IsSpare = { λ actor. Unit {0} };

    fn step(&mut self, _alloc: Global, _tag: Tag, _inputs: &Inputs<'_>) -> Step {
        Step::Done(Outputs::none(1))
    }

    fn copy(&self, alloc: Global) -> Result<Absent, AllocError> {
        Ok(Absent {
            places: self.places.copy(alloc)?,
        })
    }
}

impl Actor for Absent {
    ghost use Rattle.std.specs.Prelude.{[], None};
    ghost use Rattle.pt_firing.specs.Strict.{strict};
    ghost use Rattle.pt_lib_time.specs.Absent as absent;

    ghost first = { λ actor. [] };

    ghost need = { absent.need };

    ghost next = { λ actor. None };

    ghost early = { strict 1 absent.step };

    fn first(&self) -> &[Token] {
        &[]
    }

    fn need(&self) -> Need<'_> {
        Need::All(self.places.counts())
    }

    fn early(&self, alloc: Global, tag: Tag, partial: &Partial) -> Result<Partial, AllocError> {
        strict_early(self, 1, alloc, tag, partial)
    }

    fn next(&self) -> Option<Tag> {
        None
    }
}
