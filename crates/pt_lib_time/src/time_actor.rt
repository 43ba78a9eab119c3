ghost use Rattle.std.specs.Prelude.{◌≡◌, IfOk, IsSome, Some};
ghost use Rattle.pt_lib_time.specs.TimeActor as time_actor;
ghost use Rattle.pt_lib_time.specs.TimeActor.{class_of, start_as, start};

use crate::absent::Absent;
use crate::current::Current;
use crate::fallback::Default;
use crate::merge::Merge;
use crate::non_strict_delay::NonStrictDelay;
use crate::non_strict_logic_gate::NonStrictLogicGate;
use crate::non_strict_mux::NonStrictMux;
use crate::pre::Pre;
use crate::when::When;
use pt_firing::{Actor, Fires, Inputs, Need, Partial, Step};
use pt_flow_base::{Params, has_no_places};
use pt_time::Tag;
use pt_value::Token;
use std::alloc::{AllocError, Global};

/// An actor of this library, by its class.
#[derive(Drop)]
pub enum TimeActor {
    Absent(Absent),
    Current(Current),
    Default(Default),
    Merge(Merge),
    NonStrictDelay(NonStrictDelay),
    NonStrictLogicGate(NonStrictLogicGate),
    NonStrictMux(NonStrictMux),
    Pre(Pre),
    When(When),
}

/// The classes of this library.
#[derive(Clone, Copy, Debug, PartialEq, Eq)]
pub enum Class {
    Absent,
    Current,
    Default,
    Merge,
    NonStrictDelay,
    NonStrictLogicGate,
    NonStrictMux,
    Pre,
    When,
}

impl Class {
    pub fn of(name: &str) -> Option<Class>
        ensures { result ≡ class_of name.now }
    {
        match name {
            "Absent" => Some(Class::Absent),
            "Current" => Some(Class::Current),
            "Default" => Some(Class::Default),
            "Merge" => Some(Class::Merge),
            "NonStrictDelay" => Some(Class::NonStrictDelay),
            "NonStrictLogicGate" => Some(Class::NonStrictLogicGate),
            "NonStrictMux" => Some(Class::NonStrictMux),
            "Pre" => Some(Class::Pre),
            "When" => Some(Class::When),
            _ => None,
        }
    }
}

/// The same code for whichever class the actor has.
macro_rules! of_class {
    ($held:expr, $actor:ident => $code:expr) => {
        match $held {
            TimeActor::Absent($actor) => $code,
            TimeActor::Current($actor) => $code,
            TimeActor::Default($actor) => $code,
            TimeActor::Merge($actor) => $code,
            TimeActor::NonStrictDelay($actor) => $code,
            TimeActor::NonStrictLogicGate($actor) => $code,
            TimeActor::NonStrictMux($actor) => $code,
            TimeActor::Pre($actor) => $code,
            TimeActor::When($actor) => $code,
        }
    };
}

/// The actor of a class, if it was started.
macro_rules! held_as {
    ($class:ident, $started:expr) => {
        match $started {
            Some(actor) => Some(TimeActor::$class(actor)),
            None => None,
        }
    };
}

impl TimeActor {
    /// The actor that the parameters start.
    pub fn start(alloc: Global, params: &Params) -> Result<TimeActor, AllocError>
        requires { IsSome (start params.now) }
        ensures { IfOk result (λ actor. Some actor ≡ start params.now) }
    {
        match TimeActor::started(alloc, params)? {
            Some(actor) => Ok(actor),
            None => unreachable!(),
        }
    }

    /// The actor that the parameters start, if the class is one of this library and they are such as its row has them.
    pub fn started(alloc: Global, params: &Params) -> Result<Option<TimeActor>, AllocError>
        ensures { IfOk result (λ actor. actor ≡ start params.now) }
    {
        match Class::of(params.class.as_str()) {
            Some(class) => TimeActor::started_as(class, alloc, params),
            None => Ok(None),
        }
    }

    fn started_as(
        class: Class,
        alloc: Global,
        params: &Params,
    ) -> Result<Option<TimeActor>, AllocError>
        ensures { IfOk result (λ actor. actor ≡ start_as class params.now) }
    {
        Ok(match class {
            Class::Absent => held_as!(Absent, Absent::start(alloc, params)?),
            Class::Current => held_as!(Current, Current::start(alloc, params)?),
            Class::Default => held_as!(Default, Default::start(alloc, params)?),
            Class::Merge => held_as!(Merge, Merge::start(params)),
            Class::NonStrictDelay => held_as!(
                NonStrictDelay,
                NonStrictDelay::start(alloc, params)?
            ),
            Class::NonStrictLogicGate => held_as!(
                NonStrictLogicGate,
                NonStrictLogicGate::start(alloc, params)?
            ),
            Class::NonStrictMux => held_as!(NonStrictMux, NonStrictMux::start(alloc, params)?),
            Class::Pre => held_as!(Pre, Pre::start(alloc, params)?),
            Class::When => held_as!(When, When::start(alloc, params)?),
        })
    }

    /// The number of its outputs. Each of these actors has one.
    pub fn outputs(&self) -> usize
        ensures { result ≡ time_actor.outputs self.now }
    {
        1
    }

    /// Whether it needs the same at each of its places, at each firing. Each but a Merge does.
    pub fn is_steady(&self) -> bool
        ensures { result ≡ time_actor.is_steady self.now }
    {
        match self {
            TimeActor::Merge(_) => false,
            TimeActor::Absent(_)
            | TimeActor::Current(_)
            | TimeActor::Default(_)
            | TimeActor::NonStrictDelay(_)
            | TimeActor::NonStrictLogicGate(_)
            | TimeActor::NonStrictMux(_)
            | TimeActor::Pre(_)
            | TimeActor::When(_) => true,
        }
    }

    /// Whether it has no early answer before all its inputs are known.
    pub fn is_strict(&self) -> bool
        ensures { result ≡ time_actor.is_strict self.now }
    {
        match self {
            TimeActor::Default(_)
            | TimeActor::NonStrictDelay(_)
            | TimeActor::NonStrictLogicGate(_)
            | TimeActor::NonStrictMux(_) => false,
            TimeActor::Absent(_)
            | TimeActor::Current(_)
            | TimeActor::Merge(_)
            | TimeActor::Pre(_)
            | TimeActor::When(_) => true,
        }
    }

    /// Whether it begins by itself: it has no input places.
    pub fn begins(&self) -> bool
        ensures { result ≡ time_actor.rows.begins self.now }
    {
        match self {
            TimeActor::Merge(actor) => actor.places == 0,
            TimeActor::Absent(_)
            | TimeActor::Current(_)
            | TimeActor::Default(_)
            | TimeActor::NonStrictDelay(_)
            | TimeActor::NonStrictLogicGate(_)
            | TimeActor::NonStrictMux(_)
            | TimeActor::Pre(_)
            | TimeActor::When(_) => has_no_places(self.need()),
        }
    }

    /// Whether under DE it takes its lists whole. None of these actors does.
    pub fn whole(&self) -> bool
        ensures { result ≡ time_actor.rows.whole self.now }
    {
        false
    }
}

impl Fires for TimeActor {
    ghost use Rattle.pt_lib_time.specs.TimeActor as time_actor;

    ghost step = { time_actor.step };

    ghost Takes = { λ tag actor X. Unit {0} };

    ghost IsSpare = { time_actor.IsSpare };

    fn step(&mut self, alloc: Global, tag: Tag, inputs: &Inputs<'_>) -> Step {
        of_class!(self, actor => actor.step(alloc, tag, inputs))
    }

    fn copy(&self, alloc: Global) -> Result<TimeActor, AllocError> {
        Ok(match self {
            TimeActor::Absent(actor) => TimeActor::Absent(actor.copy(alloc)?),
            TimeActor::Current(actor) => TimeActor::Current(actor.copy(alloc)?),
            TimeActor::Default(actor) => TimeActor::Default(actor.copy(alloc)?),
            TimeActor::Merge(actor) => TimeActor::Merge(actor.copy(alloc)?),
            TimeActor::NonStrictDelay(actor) => TimeActor::NonStrictDelay(actor.copy(alloc)?),
            TimeActor::NonStrictLogicGate(actor) => {
                TimeActor::NonStrictLogicGate(actor.copy(alloc)?)
            }
            TimeActor::NonStrictMux(actor) => TimeActor::NonStrictMux(actor.copy(alloc)?),
            TimeActor::Pre(actor) => TimeActor::Pre(actor.copy(alloc)?),
            TimeActor::When(actor) => TimeActor::When(actor.copy(alloc)?),
        })
    }
}

impl Actor for TimeActor {
    ghost use Rattle.std.specs.Prelude.{[], None};
    ghost use Rattle.pt_lib_time.specs.TimeActor as time_actor;

    ghost first = { λ actor. [] };

    ghost need = { time_actor.need };

    ghost next = { λ actor. None };

    ghost early = { time_actor.early };

    fn first(&self) -> &[Token] {
        of_class!(self, actor => actor.first())
    }

    fn need(&self) -> Need<'_> {
        of_class!(self, actor => actor.need())
    }

    fn early(&self, alloc: Global, tag: Tag, partial: &Partial) -> Result<Partial, AllocError> {
        of_class!(self, actor => actor.early(alloc, tag, partial))
    }

    fn next(&self) -> Option<Tag> {
        of_class!(self, actor => actor.next())
    }
}
