ghost use Rattle.std.specs.Prelude.{◌≡◌, IfOk, IsSome, Some};
ghost use Rattle.pt_lib_timed.specs.TimedActor as timed_actor;
ghost use Rattle.pt_lib_timed.specs.TimedActor.{class_of, start_as, start};
ghost use Rattle.pt_lib_timed.specs.Signal.{GivesSignal, TellsSignal};

use crate::current_time::CurrentTime;
use crate::discrete_clock::DiscreteClock;
use crate::register::Register;
use crate::sampler::Sampler;
use crate::server::Server;
use crate::single_event::SingleEvent;
use crate::time_delay::TimeDelay;
use pt_firing::{Actor, Fires, Inputs, Need, Partial, Step};
use pt_flow_base::Params;
use pt_time::Tag;
use pt_value::Token;
use std::alloc::{AllocError, Global};

/// An actor of this library, by its class.
#[derive(Drop)]
pub enum TimedActor {
    CurrentTime(CurrentTime),
    DiscreteClock(DiscreteClock),
    Register(Register),
    Sampler(Sampler),
    Server(Server),
    SingleEvent(SingleEvent),
    TimeDelay(TimeDelay),
}

/// The classes of this library.
#[derive(Clone, Copy, Debug, PartialEq, Eq)]
pub enum Class {
    CurrentTime,
    DiscreteClock,
    Register,
    Sampler,
    Server,
    SingleEvent,
    TimeDelay,
}

impl Class {
    pub fn of(name: &str) -> Option<Class>
        ensures { result ≡ class_of name.now }
    {
        match name {
            "CurrentTime" => Some(Class::CurrentTime),
            "DiscreteClock" => Some(Class::DiscreteClock),
            "Register" => Some(Class::Register),
            "Sampler" => Some(Class::Sampler),
            "Server" => Some(Class::Server),
            "SingleEvent" => Some(Class::SingleEvent),
            "TimeDelay" => Some(Class::TimeDelay),
            _ => None,
        }
    }
}

/// The same code for whichever class the actor has.
macro_rules! of_class {
    ($held:expr, $actor:ident => $code:expr) => {
        match $held {
            TimedActor::CurrentTime($actor) => $code,
            TimedActor::DiscreteClock($actor) => $code,
            TimedActor::Register($actor) => $code,
            TimedActor::Sampler($actor) => $code,
            TimedActor::Server($actor) => $code,
            TimedActor::SingleEvent($actor) => $code,
            TimedActor::TimeDelay($actor) => $code,
        }
    };
}

/// The actor of a class, if it was started.
macro_rules! held_as {
    ($class:ident, $started:expr) => {
        match $started {
            Some(actor) => Some(TimedActor::$class(actor)),
            None => None,
        }
    };
}

impl TimedActor {
    /// The actor that the parameters start.
    pub fn start(alloc: Global, params: &Params) -> Result<TimedActor, AllocError>
        requires { IsSome (start params.now) }
        ensures { IfOk result (λ actor. Some actor ≡ start params.now) }
    {
        match TimedActor::started(alloc, params)? {
            Some(actor) => Ok(actor),
            None => unreachable!(),
        }
    }

    /// The actor that the parameters start, if the class is one of this library and they are such as its row has them.
    pub fn started(alloc: Global, params: &Params) -> Result<Option<TimedActor>, AllocError>
        ensures { IfOk result (λ actor. actor ≡ start params.now) }
    {
        match Class::of(params.class.as_str()) {
            Some(class) => TimedActor::started_as(class, alloc, params),
            None => Ok(None),
        }
    }

    fn started_as(
        class: Class,
        alloc: Global,
        params: &Params,
    ) -> Result<Option<TimedActor>, AllocError>
        ensures { IfOk result (λ actor. actor ≡ start_as class params.now) }
    {
        Ok(match class {
            Class::CurrentTime => held_as!(CurrentTime, CurrentTime::start(alloc, params)?),
            Class::DiscreteClock => held_as!(DiscreteClock, DiscreteClock::start(alloc, params)?),
            Class::Register => held_as!(Register, Register::start(alloc, params)?),
            Class::Sampler => held_as!(Sampler, Sampler::start(alloc, params)?),
            Class::Server => held_as!(Server, Server::start(alloc, params)?),
            Class::SingleEvent => held_as!(SingleEvent, SingleEvent::start(alloc, params)?),
            Class::TimeDelay => held_as!(TimeDelay, TimeDelay::start(alloc, params)?),
        })
    }

    /// The number of its outputs. Each of these actors has one.
    pub fn outputs(&self) -> usize
        ensures { result ≡ timed_actor.outputs self.now }
    {
        1
    }

    /// Whether it needs the same at each firing. Each of these actors does.
    pub fn is_steady(&self) -> bool
        ensures { result ≡ timed_actor.is_steady self.now }
    {
        true
    }

    /// Whether it begins by itself. None of these actors does: each has input places or wakes of its own.
    pub fn begins(&self) -> bool
        ensures { result ≡ timed_actor.rows.begins self.now }
    {
        false
    }

    /// Whether under DE it takes its lists whole: several tokens of one tag in one firing.
    pub fn whole(&self) -> bool
        ensures { result ≡ timed_actor.whole self.now }
    {
        matches!(
            self,
            TimedActor::Register(_) | TimedActor::Server(_) | TimedActor::TimeDelay(_)
        )
    }

    /// Whether it has no early answer before all its inputs are known.
    pub fn is_strict(&self) -> bool
        ensures { result ≡ timed_actor.is_strict self.now }
    {
        !self.whole()
    }

    /// Whether what comes on a place has no part in what is given at its tag.
    pub fn is_delay(&self, place: usize) -> bool
        ensures { result ≡ timed_actor.is_delay self.now place }
    {
        match self {
            TimedActor::Server(_) | TimedActor::TimeDelay(_) => true,
            TimedActor::Register(_) => place != 1,
            TimedActor::CurrentTime(_)
            | TimedActor::DiscreteClock(_)
            | TimedActor::Sampler(_)
            | TimedActor::SingleEvent(_) => false,
        }
    }

    /// Makes a firing that gives one integer at most, on the one port. Where it makes none, `step` makes the firing.
    #[inline(always)]
    pub fn signal(&mut self, tag: Tag, inputs: &Inputs<'_>) -> Option<Option<i64>>
        ensures { GivesSignal timed_actor.step self.old tag inputs.now result self.new }
    {
        match self {
            TimedActor::CurrentTime(actor) => actor.signal(tag, inputs),
            TimedActor::DiscreteClock(actor) => actor.signal(tag),
            TimedActor::Register(_) => None,
            TimedActor::Sampler(actor) => actor.signal(inputs),
            TimedActor::Server(actor) => actor.signal(tag, inputs),
            TimedActor::SingleEvent(actor) => actor.signal(tag),
            TimedActor::TimeDelay(actor) => actor.signal(tag, inputs),
        }
    }

    /// What it gives early at a tag, whatever is known of its inputs, where that is one integer at most, on the one port.
    #[inline(always)]
    pub fn early_signal(&self, tag: Tag) -> Option<Option<i64>>
        ensures { TellsSignal timed_actor.early self.now tag result }
    {
        match self {
            TimedActor::Server(actor) => actor.early_signal(tag),
            TimedActor::TimeDelay(actor) => actor.early_signal(tag),
            TimedActor::CurrentTime(_)
            | TimedActor::DiscreteClock(_)
            | TimedActor::Register(_)
            | TimedActor::Sampler(_)
            | TimedActor::SingleEvent(_) => None,
        }
    }
}

impl Fires for TimedActor {
    ghost use Rattle.pt_lib_timed.specs.TimedActor as timed_actor;

    ghost step = { timed_actor.step };

    ghost Takes = { λ tag actor X. Unit {0} };

    ghost IsSpare = { timed_actor.IsSpare };

    fn step(&mut self, alloc: Global, tag: Tag, inputs: &Inputs<'_>) -> Step {
        of_class!(self, actor => actor.step(alloc, tag, inputs))
    }

    fn copy(&self, alloc: Global) -> Result<TimedActor, AllocError> {
        Ok(match self {
            TimedActor::CurrentTime(actor) => TimedActor::CurrentTime(actor.copy(alloc)?),
            TimedActor::DiscreteClock(actor) => TimedActor::DiscreteClock(actor.copy(alloc)?),
            TimedActor::Register(actor) => TimedActor::Register(actor.copy(alloc)?),
            TimedActor::Sampler(actor) => TimedActor::Sampler(actor.copy(alloc)?),
            TimedActor::Server(actor) => TimedActor::Server(actor.copy(alloc)?),
            TimedActor::SingleEvent(actor) => TimedActor::SingleEvent(actor.copy(alloc)?),
            TimedActor::TimeDelay(actor) => TimedActor::TimeDelay(actor.copy(alloc)?),
        })
    }
}

impl Actor for TimedActor {
    ghost use Rattle.std.specs.Prelude.{[]};
    ghost use Rattle.pt_lib_timed.specs.TimedActor as timed_actor;

    ghost first = { λ actor. [] };

    ghost need = { timed_actor.need };

    ghost next = { timed_actor.next };

    ghost early = { timed_actor.early };

    fn first(&self) -> &[Token] {
        of_class!(self, actor => actor.first())
    }

    fn need(&self) -> Need<'_> {
        of_class!(self, actor => actor.need())
    }

    fn early(&self, alloc: Global, tag: Tag, partial: &Partial) -> Result<Partial, AllocError> {
        of_class!(self, actor => actor.early(alloc, tag, partial))
    }

    #[inline(always)]
    fn next(&self) -> Option<Tag> {
        of_class!(self, actor => actor.next())
    }
}
