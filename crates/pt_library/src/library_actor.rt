ghost use Rattle.std.specs.Prelude.{◌≡◌, IfOk, IfSome, option_map};
ghost use Rattle.pt_lib_flow.specs.FlowActor as flow_actor;
ghost use Rattle.pt_flow_base.specs.Rates.{IsCount};
ghost use Rattle.pt_flow_base.specs.Number.{GivesNumber, GivesNumbers, GivesStretch};
ghost use Rattle.pt_lib_timed.specs.Signal.{GivesSignal, TellsSignal};
ghost use Rattle.pt_library.specs.LibraryActor as library;
ghost use Rattle.pt_library.specs.Laws.{IsRatedActor};

use crate::integers::int_inputs;
use pt_firing::{Actor, Counts, Fires, Inputs, IntInputs, IntRows, Need, Partial, Step};
use pt_flow_base::Params;
use pt_lib_data::DataActor;
use pt_lib_flow::FlowActor;
use pt_lib_time::TimeActor;
use pt_lib_timed::TimedActor;
use pt_time::Tag;
use pt_value::Token;
use std::alloc::{AllocError, Global};

/// An actor of the libraries, by its library.
pub enum LibraryActor {
    Flow(FlowActor),
    Data(DataActor),
    Time(TimeActor),
    Timed(TimedActor),
}

/// The same code for whichever library the actor is of.
macro_rules! of_library {
    ($held:expr, $actor:ident => $code:expr) => {
        match $held {
            LibraryActor::Flow($actor) => $code,
            LibraryActor::Data($actor) => $code,
            LibraryActor::Time($actor) => $code,
            LibraryActor::Timed($actor) => $code,
        }
    };
}

// Written by hand, so that letting go of an actor is one call in the proofs of the crates above, however many classes there are.
impl Drop for LibraryActor {
    fn drop(self) {
        of_library!(self, actor => drop(actor))
    }
}

/// How many tokens a firing gives on the one output, where the number doesn't vary.
fn flow_rates(alloc: Global, actor: &FlowActor) -> Result<Option<Counts>, AllocError>
    requires { IfSome (flow_actor.rate actor.now) IsCount }
    ensures { IfOk result (λ rates. rates ≡ flow_actor.rates actor.now) }
{
    match actor.rate() {
        Some(rate) => Ok(Some(Counts::of(vec![in alloc; rate]?))),
        None => Ok(None),
    }
}

impl LibraryActor {
    /// The actor that the parameters start, if the class is one of a library and they are such as its row has them.
    pub fn started(alloc: Global, params: &Params) -> Result<Option<LibraryActor>, AllocError>
        ensures { IfOk result (λ actor. actor ≡ library.start params.now) }
    {
        if let Some(actor) = FlowActor::started(alloc, params)? {
            return Ok(Some(LibraryActor::Flow(actor)));
        }
        if let Some(actor) = DataActor::started(
            alloc,
            params.class.as_str(),
            &params.values,
            &params.ports,
        )? {
            return Ok(Some(LibraryActor::Data(actor)));
        }
        if let Some(actor) = TimeActor::started(alloc, params)? {
            return Ok(Some(LibraryActor::Time(actor)));
        }
        match TimedActor::started(alloc, params)? {
            Some(actor) => Ok(Some(LibraryActor::Timed(actor))),
            None => Ok(None),
        }
    }

    /// How many tokens a firing gives on each output, where the numbers don't vary.
    pub fn rates(&self, alloc: Global) -> Result<Option<Counts>, AllocError>
        requires { IsRatedActor self.now }
        ensures { IfOk result (λ rates. rates ≡ library.rates self.now) }
    {
        match self {
            LibraryActor::Flow(actor) => flow_rates(alloc, actor),
            LibraryActor::Data(actor) => Ok(Some(actor.rates(alloc)?)),
            LibraryActor::Time(_) | LibraryActor::Timed(_) => Ok(None),
        }
    }

    /// The number of its outputs.
    pub fn outputs(&self) -> usize
        ensures { result ≡ library.outputs self.now }
    {
        of_library!(self, actor => actor.outputs())
    }

    /// Whether it needs the same at each firing.
    pub fn is_steady(&self) -> bool
        ensures { result ≡ library.is_steady self.now }
    {
        of_library!(self, actor => actor.is_steady())
    }

    /// Whether it has no early answer before all its inputs are known.
    pub fn is_strict(&self) -> bool
        ensures { result ≡ library.is_strict self.now }
    {
        match self {
            LibraryActor::Flow(_) | LibraryActor::Data(_) => true,
            LibraryActor::Time(actor) => actor.is_strict(),
            LibraryActor::Timed(actor) => actor.is_strict(),
        }
    }

    /// Whether under Rendezvous it takes a token of each channel in one meeting.
    pub fn is_barrier(&self) -> bool
        ensures { result ≡ library.is_barrier self.now }
    {
        match self {
            LibraryActor::Data(actor) => actor.is_barrier(),
            LibraryActor::Flow(_) | LibraryActor::Time(_) | LibraryActor::Timed(_) => false,
        }
    }

    /// Whether it begins by itself: it has no input places and no wakes of its own.
    pub fn begins(&self) -> bool
        ensures { result ≡ library.begins self.now }
    {
        of_library!(self, actor => actor.begins())
    }

    /// Whether under DE it takes its lists whole.
    pub fn whole(&self) -> bool
        ensures { result ≡ library.whole self.now }
    {
        of_library!(self, actor => actor.whole())
    }

    /// Whether what comes on a place has no part in what is given at its tag.
    pub fn is_delay(&self, place: usize) -> bool
        ensures { result ≡ library.is_delay self.now place }
    {
        match self {
            LibraryActor::Flow(_) | LibraryActor::Data(_) | LibraryActor::Time(_) => false,
            LibraryActor::Timed(actor) => actor.is_delay(place),
        }
    }

    /// Makes a firing that gives one integer, and nothing else. Where it makes none, `step` makes the firing.
    #[inline(always)]
    pub fn number(&mut self, inputs: &IntInputs<'_>) -> Option<i64>
        ensures { GivesNumber library.step self.old inputs.now result self.new }
    {
        match self {
            LibraryActor::Flow(actor) => actor.number(inputs),
            LibraryActor::Data(_) | LibraryActor::Time(_) | LibraryActor::Timed(_) => None,
        }
    }

    /// Makes a firing that gives one integer at most on its one port. Where it makes none, `step` makes the firing. `row` is a buffer.
    #[inline(always)]
    pub fn signal(
        &mut self,
        tag: Tag,
        inputs: &Inputs<'_>,
        row: &mut Vec<i64>,
    ) -> Option<Option<i64>>
        ensures { GivesSignal library.step self.old tag inputs.now result self.new }
    {
        match self {
            LibraryActor::Flow(actor) => {
                let inputs = int_inputs(inputs, row)?;
                let number = actor.number(&inputs)?;
                Some(Some(number))
            }
            LibraryActor::Timed(actor) => actor.signal(tag, inputs),
            LibraryActor::Data(_) | LibraryActor::Time(_) => None,
        }
    }

    /// What it gives early at a tag, whatever is known of its inputs, where that is one integer at most on its one port.
    #[inline(always)]
    pub fn early_signal(&self, tag: Tag) -> Option<Option<i64>>
        ensures { TellsSignal library.early self.now tag result }
    {
        match self {
            LibraryActor::Timed(actor) => actor.early_signal(tag),
            LibraryActor::Flow(_) | LibraryActor::Data(_) | LibraryActor::Time(_) => None,
        }
    }

    /// Makes a firing that gives integers on its one port, and nothing else. `given` has them then, in order. Where it makes none, `step` makes the firing.
    #[inline(always)]
    pub fn numbers(&self, inputs: &IntInputs<'_>, given: &mut Vec<i64>) -> bool
        ensures { GivesNumbers library.step self.now inputs.now result given.new.items self.now }
    {
        match self {
            LibraryActor::Flow(actor) => actor.numbers(inputs, given),
            LibraryActor::Data(_) | LibraryActor::Time(_) | LibraryActor::Timed(_) => false,
        }
    }

    /// Makes the first firings of a stretch, one after another, where each gives `rate` integers on its one port, and nothing else, and tells how many. `given` has the integers then, in order. Where it makes none, `step` makes the firing.
    #[inline(always)]
    pub fn stretch(&mut self, inputs: &IntRows<'_>, rate: usize, given: &mut Vec<i64>) -> usize
        ensures { GivesStretch library.step self.old inputs.now rate result given.new.items self.new }
    {
        if let LibraryActor::Flow(actor) = self {
            return actor.stretch(inputs, rate, given);
        }
        given.clear();
        0
    }
}

impl Fires for LibraryActor {
    ghost use Rattle.pt_library.specs.LibraryActor as library;

    ghost step = { library.step };

    ghost Takes = { library.Takes };

    ghost IsSpare = { library.IsSpare };

    fn step(&mut self, alloc: Global, tag: Tag, inputs: &Inputs<'_>) -> Step {
        of_library!(self, actor => actor.step(alloc, tag, inputs))
    }

    fn copy(&self, alloc: Global) -> Result<LibraryActor, AllocError> {
        Ok(match self {
            LibraryActor::Flow(actor) => LibraryActor::Flow(actor.copy(alloc)?),
            LibraryActor::Data(actor) => LibraryActor::Data(actor.copy(alloc)?),
            LibraryActor::Time(actor) => LibraryActor::Time(actor.copy(alloc)?),
            LibraryActor::Timed(actor) => LibraryActor::Timed(actor.copy(alloc)?),
        })
    }
}

impl Actor for LibraryActor {
    ghost use Rattle.pt_library.specs.LibraryActor as library;

    ghost first = { library.first };

    ghost need = { library.need };

    ghost next = { library.next };

    ghost early = { library.early };

    fn first(&self) -> &[Token] {
        of_library!(self, actor => actor.first())
    }

    #[inline(always)]
    fn need(&self) -> Need<'_> {
        of_library!(self, actor => actor.need())
    }

    fn early(&self, alloc: Global, tag: Tag, partial: &Partial) -> Result<Partial, AllocError> {
        of_library!(self, actor => actor.early(alloc, tag, partial))
    }

    #[inline(always)]
    fn next(&self) -> Option<Tag> {
        of_library!(self, actor => actor.next())
    }
}
