ghost use Rattle.std.specs.Prelude.{◌≡◌, IfOk, option_map};
ghost use Rattle.pt_lib_time.specs.Merge as merge;

use crate::signal::{copy_of, outputs_of};
use pt_firing::{Actor, Fires, Inputs, Need, Partial, Step, strict_early};
use pt_flow_base::Params;
use pt_time::Tag;
use pt_value::Token;
use std::alloc::{AllocError, Global};

/// `Merge`: gives the token of whichever channel has one.
#[derive(Debug, Drop)]
pub struct Merge {
    /// How many channels it has. It needs a token on one of them.
    pub(crate) places: usize,
}

impl Merge {
    /// The actor that the parameters start, if they are such as its row has them.
    pub fn start(params: &Params) -> Option<Merge>
        ensures { result ≡ merge.start params.now }
    {
        let places = params.ports.channels("input") as usize;
        Some(Merge { places })
    }
}

/// The first token that is there, in the order of the channels.
fn first_present<'a>(inputs: &'a Inputs<'_>) -> Option<&'a Token>
    ensures { option_map (λ token. token.now) result ≡ merge.first_present inputs.now }
{
    for place in 0..inputs.places() {
        if let Some(token) = inputs.token_at(place) {
            return Some(token);
        }
    }
    None
}

impl Fires for Merge {
    ghost use Rattle.pt_lib_time.specs.Merge as merge;

    ghost step = { merge.step };

    ghost Takes = { λ tag actor X. Unit {0} };

    ghost IsSpare = { λ actor. ⊥ };

    fn step(&mut self, alloc: Global, _tag: Tag, inputs: &Inputs<'_>) -> Step {
        match copy_of(alloc, first_present(inputs)) {
            Ok(token) => Step::Done(outputs_of(token)),
            Err(_) => Step::Memory,
        }
    }

    fn copy(&self, _alloc: Global) -> Result<Merge, AllocError> {
        Ok(Merge {
            places: self.places,
        })
    }
}

impl Actor for Merge {
    ghost use Rattle.std.specs.Prelude.{[], None};
    ghost use Rattle.pt_firing.specs.Strict.{strict};
    ghost use Rattle.pt_lib_time.specs.Merge as merge;

    ghost first = { λ actor. [] };

    ghost need = { merge.need };

    ghost next = { λ actor. None };

    ghost early = { strict 1 merge.step };

    fn first(&self) -> &[Token] {
        &[]
    }

    fn need(&self) -> Need<'_> {
        Need::Any
    }

    fn early(&self, alloc: Global, tag: Tag, partial: &Partial) -> Result<Partial, AllocError> {
        strict_early(self, 1, alloc, tag, partial)
    }

    fn next(&self) -> Option<Tag> {
        None
    }
}
