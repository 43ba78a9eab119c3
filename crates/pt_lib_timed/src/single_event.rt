ghost use Rattle.std.specs.Prelude.{◌≡◌, IfOk};
ghost use Rattle.pt_meaning.specs.Basics.{Streams};
ghost use Rattle.pt_value.specs.declared.token.Token as token;
ghost use Rattle.pt_lib_timed.specs.Signal.{GivesSignal};
ghost use Rattle.pt_lib_timed.specs.SingleEvent.{next};
ghost use Rattle.pt_lib_timed.specs.SingleEvent as single_event;

use crate::signal::{LAST_TIME, copy_of, int_of, is_due, outputs_of};
use pt_firing::{Actor, Fires, Inputs, Need, OneEach, Outputs, Partial, Step, strict_early};
use pt_flow_base::Params;
use pt_time::Tag;
use pt_value::Token;
use std::alloc::{AllocError, Global};

/// `SingleEvent`: a source of one event, which it gives once, at or after its time.
#[derive(Drop)]
pub struct SingleEvent {
    time: u64,
    event: Option<Token>,
    places: OneEach,
}

impl SingleEvent {
    /// The actor that the parameters start, if they are such as its row has them.
    pub fn start(alloc: Global, params: &Params) -> Result<Option<SingleEvent>, AllocError>
        ensures { IfOk result (λ actor. actor ≡ single_event.start params.now) }
    {
        let Some(time) = params.values.int_within("time", 0, 0, LAST_TIME) else {
            return Ok(None);
        };
        let value = copy_of(alloc, params.values.get("value"))?;
        let places = OneEach::of(alloc, 0)?;
        Ok(Some(SingleEvent {
            time: time.unsigned_abs(),
            event: value.or(Some(Token::Int(1))),
            places,
        }))
    }

    /// Makes a firing that gives one integer at most. Where it makes none, `step` makes the firing.
    pub fn signal(&mut self, tag: Tag) -> Option<Option<i64>>
        ensures { (X : Streams token.Token) → GivesSignal single_event.step self.old tag X result self.new }
    {
        if !is_due(tag, self.due()) {
            return Some(None);
        }
        let given = int_of(self.event.as_ref())?;
        self.event = None;
        Some(given)
    }

    /// When the event is due, until it is given.
    fn due(&self) -> Option<Tag>
        ensures { result ≡ next self.now }
    {
        match &self.event {
            Some(_) => Some(Tag {
                time: self.time,
                step: 0,
            }),
            None => None,
        }
    }
}

impl Fires for SingleEvent {
    ghost use Rattle.pt_lib_timed.specs.SingleEvent as single_event;

    ghost step = { single_event.step };

    ghost Takes = { λ tag actor X. Unit {0} };

    ghost IsSpare = { λ actor. Unit {0} };

    fn step(&mut self, _alloc: Global, tag: Tag, _inputs: &Inputs<'_>) -> Step {
        if is_due(tag, self.due()) {
            Step::Done(outputs_of(self.event.take()))
        } else {
            Step::Done(Outputs::none(1))
        }
    }

    fn copy(&self, alloc: Global) -> Result<SingleEvent, AllocError> {
        Ok(SingleEvent {
            time: self.time,
            event: copy_of(alloc, self.event.as_ref())?,
            places: self.places.copy(alloc)?,
        })
    }
}

impl Actor for SingleEvent {
    ghost use Rattle.std.specs.Prelude.{[]};
    ghost use Rattle.pt_firing.specs.Strict.{strict};
    ghost use Rattle.pt_lib_timed.specs.SingleEvent as single_event;

    ghost first = { λ actor. [] };

    ghost need = { single_event.need };

    ghost next = { single_event.next };

    ghost early = { strict 1 single_event.step };

    fn first(&self) -> &[Token] {
        &[]
    }

    fn need(&self) -> Need<'_> {
        Need::All(self.places.counts())
    }

    fn early(&self, alloc: Global, tag: Tag, partial: &Partial) -> Result<Partial, AllocError> {
        strict_early(self, 1, alloc, tag, partial)
    }

    fn next(&self) -> Option<Tag> {
        self.due()
    }
}
