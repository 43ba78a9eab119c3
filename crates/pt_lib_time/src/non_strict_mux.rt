ghost use Rattle.std.specs.Prelude.{◌≡◌, IfOk};
ghost use Rattle.pt_firing.specs.TriState.{partial_of};
ghost use Rattle.pt_lib_time.specs.NonStrictMux as non_strict_mux;

use crate::signal::{copy_of, decided_or_strict, is_known, known_signal, known_token, outputs_of};
use pt_firing::{Actor, Fires, Inputs, Need, OneEach, Outputs, Partial, RunFault, Step, TriState};
use pt_flow_base::Params;
use pt_time::Tag;
use pt_value::Token;
use std::alloc::{AllocError, Global};

/// `NonStrictMux`: gives what the channel has that its select names.
#[derive(Debug, Drop)]
pub struct NonStrictMux {
    // That of select, and behind it those of the channels.
    places: OneEach,
}

impl NonStrictMux {
    /// The actor that the parameters start, if they are such as its row has them.
    pub fn start(alloc: Global, params: &Params) -> Result<Option<NonStrictMux>, AllocError>
        ensures { IfOk result (λ actor. actor ≡ non_strict_mux.start params.now) }
    {
        let channels = params.ports.channels("input") as usize;
        let places = OneEach::of(alloc, channels + 1)?;
        Ok(Some(NonStrictMux { places }))
    }

    /// The place of the channel of a number, if there is such a channel.
    fn place_of(&self, number: i64) -> Option<usize>
        ensures { result ≡ non_strict_mux.place_of self.now.places number }
    {
        if number < 0 {
            return None;
        }
        let place = number as usize + 1;
        if place < self.places.places() {
            Some(place)
        } else {
            None
        }
    }

    /// What select and the channel that it names decide.
    fn decided(&self, alloc: Global, partial: &Partial) -> Result<TriState, AllocError>
        ensures { IfOk result (λ state. partial_of state ≡ non_strict_mux.decided self.now partial.now) }
    {
        if !is_known(partial, 0) {
            return Ok(TriState::Unknown);
        }
        let Some(Token::Int(number)) = known_token(partial, 0) else {
            return Ok(TriState::Absent);
        };
        match self.place_of(*number) {
            Some(place) => known_signal(alloc, partial, place),
            None => Ok(TriState::Unknown),
        }
    }
}

impl Fires for NonStrictMux {
    ghost use Rattle.pt_lib_time.specs.NonStrictMux as non_strict_mux;

    ghost step = { non_strict_mux.step };

    ghost Takes = { λ tag actor X. Unit {0} };

    ghost IsSpare = { λ actor. ⊥ };

    fn step(&mut self, alloc: Global, _tag: Tag, inputs: &Inputs<'_>) -> Step {
        let Some(number) = inputs.number_at(0) else {
            return Step::Done(Outputs::none(1));
        };
        let Some(place) = self.place_of(number) else {
            return Step::Fault(RunFault::Index);
        };
        match copy_of(alloc, inputs.token_at(place)) {
            Ok(input) => Step::Done(outputs_of(input)),
            Err(_) => Step::Memory,
        }
    }

    fn copy(&self, alloc: Global) -> Result<NonStrictMux, AllocError> {
        Ok(NonStrictMux {
            places: self.places.copy(alloc)?,
        })
    }
}

impl Actor for NonStrictMux {
    ghost use Rattle.std.specs.Prelude.{[], None};
    ghost use Rattle.pt_lib_time.specs.NonStrictMux as non_strict_mux;

    ghost first = { λ actor. [] };

    ghost need = { non_strict_mux.need };

    ghost next = { λ actor. None };

    ghost early = { non_strict_mux.early };

    fn first(&self) -> &[Token] {
        &[]
    }

    fn need(&self) -> Need<'_> {
        Need::All(self.places.counts())
    }

    fn early(&self, alloc: Global, tag: Tag, partial: &Partial) -> Result<Partial, AllocError> {
        let decided = self.decided(alloc, partial)?;
        decided_or_strict(self, decided, alloc, tag, partial)
    }

    fn next(&self) -> Option<Tag> {
        None
    }
}
