ghost use Rattle.std.specs.Prelude.{◌≡◌, Some, IfOk};
ghost use Rattle.pt_firing.specs.Step.{Makes};
ghost use Rattle.pt_lib_time.specs.Current as current;

use crate::signal::{copy_of, outputs_of};
use pt_firing::{Actor, Fires, Inputs, Need, OneEach, Outputs, Partial, Step, strict_early};
use pt_flow_base::Params;
use pt_time::Tag;
use pt_value::Token;
use std::alloc::{AllocError, Global};

/// `Current`: gives the latest present input, this tick's among them.
#[derive(Drop)]
pub struct Current {
    kept: Option<Token>,
    places: OneEach,
}

impl Current {
    /// The actor that the parameters start, if they are such as its row has them.
    pub fn start(alloc: Global, _params: &Params) -> Result<Option<Current>, AllocError>
        ensures { IfOk result (λ actor. actor ≡ current.start _params.now) }
    {
        let places = OneEach::of(alloc, 1)?;
        Ok(Some(Current { kept: None, places }))
    }

    /// Keeps a token, and gives it.
    fn keep(&mut self, alloc: Global, input: &Token) -> Step
        ensures { Makes (current.with_latest self.old (Some input.now)) self.old result self.new }
    {
        let (Ok(kept), Ok(given)) = (input.copy(alloc), input.copy(alloc)) else {
            return Step::Memory;
        };
        self.kept = Some(kept);
        Step::Done(Outputs::one(given))
    }

    /// Gives what it keeps.
    fn show(&self, alloc: Global) -> Step
        ensures { Makes (current.with_latest self.now self.now.kept) self.now result self.now }
    {
        match copy_of(alloc, self.kept.as_ref()) {
            Ok(given) => Step::Done(outputs_of(given)),
            Err(_) => Step::Memory,
        }
    }
}

impl Fires for Current {
    ghost use Rattle.pt_lib_time.specs.Current as current;

    ghost step = { current.step };

    ghost Takes = { λ tag actor X. Unit {0} };

    ghost IsSpare = { λ actor. ⊥ };

    fn step(&mut self, alloc: Global, _tag: Tag, inputs: &Inputs<'_>) -> Step {
        match inputs.token_at(0) {
            Some(input) => self.keep(alloc, input),
            None => self.show(alloc),
        }
    }

    fn copy(&self, alloc: Global) -> Result<Current, AllocError> {
        Ok(Current {
            kept: copy_of(alloc, self.kept.as_ref())?,
            places: self.places.copy(alloc)?,
        })
    }
}

impl Actor for Current {
    ghost use Rattle.std.specs.Prelude.{[], None};
    ghost use Rattle.pt_firing.specs.Strict.{strict};
    ghost use Rattle.pt_lib_time.specs.Current as current;

    ghost first = { λ actor. [] };

    ghost need = { current.need };

    ghost next = { λ actor. None };

    ghost early = { strict 1 current.step };

    fn first(&self) -> &[Token] {
        &[]
    }

    fn need(&self) -> Need<'_> {
        Need::All(self.places.counts())
    }

    fn early(&self, alloc: Global, tag: Tag, partial: &Partial) -> Result<Partial, AllocError> {
        strict_early(self, 1, alloc, tag, partial)
    }

    fn next(&self) -> Option<Tag> {
        None
    }
}
