ghost use Rattle.std.specs.Prelude.{◌≡◌, false, IfOk};
ghost use Rattle.pt_lib_timed.specs.Signal.{GivesSignal, TellsSignal};
ghost use Rattle.pt_lib_timed.specs.TimeDelay as time_delay;

use crate::arrivals::{Wait, fire, list_at, pass};
use crate::pending::Pending;
use crate::signal::{LAST_TIME, told};
use pt_firing::{Actor, Fires, Inputs, Need, OneEach, Partial, Step};
use pt_flow_base::Params;
use pt_time::Tag;
use pt_value::Token;
use std::alloc::{AllocError, Global};

/// `TimeDelay`: gives each token of its input so many ticks later, or at the next microstep.
#[derive(Drop)]
pub struct TimeDelay {
    delay: u64,
    pending: Pending,
    places: OneEach,
}

impl TimeDelay {
    /// The actor that the parameters start, if they are such as its row has them.
    pub fn start(alloc: Global, params: &Params) -> Result<Option<TimeDelay>, AllocError>
        ensures { IfOk result (λ actor. actor ≡ time_delay.start params.now) }
    {
        let Some(delay) = params.values.int_within("delay", -1, 0, LAST_TIME) else {
            return Ok(None);
        };
        let places = OneEach::of(alloc, 1)?;
        Ok(Some(TimeDelay {
            delay: delay.unsigned_abs(),
            pending: Pending::new(alloc),
            places,
        }))
    }

    /// Makes a firing that takes and gives one integer at most. Where it makes none, `step` makes the firing.
    #[inline(always)]
    pub fn signal(&mut self, tag: Tag, inputs: &Inputs<'_>) -> Option<Option<i64>>
        ensures { GivesSignal time_delay.step self.old tag inputs.now result self.new }
    {
        let wait = self.wait_from(tag);
        pass(&mut self.pending, tag, list_at(inputs, 0), wait)
    }

    /// What it gives early, where that is one integer at most.
    #[inline(always)]
    pub fn early_signal(&self, tag: Tag) -> Option<Option<i64>>
        ensures { TellsSignal time_delay.early self.now tag result }
    {
        self.pending.due_number(tag)
    }

    /// When the tokens that arrive at a tag are due: each after the delay.
    fn wait_from(&self, tag: Tag) -> Wait
        ensures { result ≡ record { from = tag; delay = self.now.delay; in_turn = false } }
    {
        Wait {
            from: tag,
            delay: self.delay,
            in_turn: false,
        }
    }
}

impl Fires for TimeDelay {
    ghost use Rattle.pt_lib_timed.specs.TimeDelay as time_delay;

    ghost step = { time_delay.step };

    ghost Takes = { λ tag actor X. Unit {0} };

    ghost IsSpare = { λ actor. ⊥ };

    fn step(&mut self, alloc: Global, tag: Tag, inputs: &Inputs<'_>) -> Step {
        let wait = self.wait_from(tag);
        fire(&mut self.pending, alloc, tag, list_at(inputs, 0), wait).into()
    }

    fn copy(&self, alloc: Global) -> Result<TimeDelay, AllocError> {
        Ok(TimeDelay {
            delay: self.delay,
            pending: self.pending.copy(alloc)?,
            places: self.places.copy(alloc)?,
        })
    }
}

impl Actor for TimeDelay {
    ghost use Rattle.std.specs.Prelude.{[]};
    ghost use Rattle.pt_lib_timed.specs.TimeDelay as time_delay;

    ghost first = { λ actor. [] };

    ghost need = { time_delay.need };

    ghost next = { time_delay.next };

    ghost early = { time_delay.early };

    fn first(&self) -> &[Token] {
        &[]
    }

    fn need(&self) -> Need<'_> {
        Need::All(self.places.counts())
    }

    fn early(&self, alloc: Global, tag: Tag, _partial: &Partial) -> Result<Partial, AllocError> {
        told(alloc, self.pending.due(alloc, tag)?)
    }

    fn next(&self) -> Option<Tag> {
        self.pending.wake()
    }
}
