ghost use Rattle.std.specs.Prelude.{◌≡◌, IfOk, true};
ghost use Rattle.pt_meaning.specs.Tag.{tag_le};
ghost use Rattle.pt_lib_timed.specs.Pending.{later_of, last_tag};
ghost use Rattle.pt_lib_timed.specs.Server as server;
ghost use Rattle.pt_lib_timed.specs.Signal.{GivesSignal, TellsSignal};

use crate::arrivals::{Wait, fire, list_at, pass};
use crate::pending::Pending;
use crate::signal::{LAST_TIME, told};
use pt_firing::{Actor, Fires, Inputs, Need, OneEach, Partial, Step};
use pt_flow_base::Params;
use pt_time::Tag;
use pt_value::Token;
use std::alloc::{AllocError, Global};

/// `Server`: gives each token of its input after so many ticks of service, one token after the other.
#[derive(Drop)]
pub struct Server {
    service: u64,
    pending: Pending,
    places: OneEach,
}

impl Server {
    /// The actor that the parameters start, if they are such as its row has them.
    pub fn start(alloc: Global, params: &Params) -> Result<Option<Server>, AllocError>
        ensures { IfOk result (λ actor. actor ≡ server.start params.now) }
    {
        let Some(service) = params.values.int_within("serviceTime", -1, 0, LAST_TIME) else {
            return Ok(None);
        };
        let places = OneEach::of(alloc, 1)?;
        Ok(Some(Server {
            service: service.unsigned_abs(),
            pending: Pending::new(alloc),
            places,
        }))
    }

    /// Makes a firing that takes and gives one integer at most. Where it makes none, `step` makes the firing.
    #[inline(always)]
    pub fn signal(&mut self, tag: Tag, inputs: &Inputs<'_>) -> Option<Option<i64>>
        ensures { GivesSignal server.step self.old tag inputs.now result self.new }
    {
        let wait = self.wait_from(tag);
        pass(&mut self.pending, tag, list_at(inputs, 0), wait)
    }

    /// What it gives early, where that is one integer at most.
    #[inline(always)]
    pub fn early_signal(&self, tag: Tag) -> Option<Option<i64>>
        ensures { TellsSignal server.early self.now tag result }
    {
        self.pending.due_number(tag)
    }

    /// When the service of a token that arrives at a tag begins: then, or where the last pending one ends later, when it does.
    fn free_from(&self, tag: Tag) -> Tag
        ensures from { result ≡ later_of tag (last_tag self.now.pending) }
        ensures later { tag_le tag result ≡ true }
    {
        match self.pending.last() {
            Some(last) if last > tag => last,
            _ => tag,
        }
    }

    /// When the tokens that arrive at a tag are due: each is served in turn.
    fn wait_from(&self, tag: Tag) -> Wait
        ensures wait { result ≡ record { from = later_of tag (last_tag self.now.pending); delay = self.now.service; in_turn = true } }
        ensures later { tag_le tag result.from ≡ true }
    {
        Wait {
            from: self.free_from(tag),
            delay: self.service,
            in_turn: true,
        }
    }
}

impl Fires for Server {
    ghost use Rattle.pt_lib_timed.specs.Server as server;

    ghost step = { server.step };

    ghost Takes = { λ tag actor X. Unit {0} };

    ghost IsSpare = { λ actor. ⊥ };

    fn step(&mut self, alloc: Global, tag: Tag, inputs: &Inputs<'_>) -> Step {
        let wait = self.wait_from(tag);
        fire(&mut self.pending, alloc, tag, list_at(inputs, 0), wait).into()
    }

    fn copy(&self, alloc: Global) -> Result<Server, AllocError> {
        Ok(Server {
            service: self.service,
            pending: self.pending.copy(alloc)?,
            places: self.places.copy(alloc)?,
        })
    }
}

impl Actor for Server {
    ghost use Rattle.std.specs.Prelude.{[]};
    ghost use Rattle.pt_lib_timed.specs.Server as server;

    ghost first = { λ actor. [] };

    ghost need = { server.need };

    ghost next = { server.next };

    ghost early = { server.early };

    fn first(&self) -> &[Token] {
        &[]
    }

    fn need(&self) -> Need<'_> {
        Need::All(self.places.counts())
    }

    fn early(&self, alloc: Global, tag: Tag, _partial: &Partial) -> Result<Partial, AllocError> {
        told(alloc, self.pending.due(alloc, tag)?)
    }

    fn next(&self) -> Option<Tag> {
        self.pending.wake()
    }
}
