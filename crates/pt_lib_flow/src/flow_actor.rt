ghost use Rattle.std.specs.Prelude.{◌≡◌, IfOk, IfSome, IsSome};
ghost use Rattle.pt_flow_base.specs.Rates.{IsCount};
ghost use Rattle.pt_flow_base.specs.Number.{GivesNumber, GivesNumbers, GivesStretch};
ghost use Rattle.pt_lib_flow.specs.FlowActor as flow_actor;
ghost use Rattle.pt_lib_flow.specs.FlowActor.{class_of, start_as, start, outputs, rate, is_steady};

use crate::expression::Expression;
use crate::ones::{stretch_of_ones, stretch_taken_out};
use pt_firing::{Actor, Fires, Inputs, IntInputs, IntRows, Need, Partial, Step, strict_early};
use pt_flow_base::{Params, has_no_places};
use pt_flow_numbers::{
    AbsoluteValue, Accumulator, AddSubtract, Counter, Extreme, MultiplyDivide, Ramp, Scale, Side,
};
use pt_flow_streams::{
    BooleanSelect, BooleanSwitch, Const, DownSample, Repeat, SampleDelay, Sequence, UpSample,
};
use pt_time::Tag;
use pt_value::Token;
use std::alloc::{AllocError, Global};

/// An actor of this library, by its class.
#[derive(Drop)]
pub enum FlowActor {
    AbsoluteValue(AbsoluteValue),
    Accumulator(Accumulator),
    AddSubtract(AddSubtract),
    BooleanSelect(BooleanSelect),
    BooleanSwitch(BooleanSwitch),
    Const(Const),
    Counter(Counter),
    DownSample(DownSample),
    Expression(Expression),
    Extreme(Extreme),
    MultiplyDivide(MultiplyDivide),
    Ramp(Ramp),
    Repeat(Repeat),
    SampleDelay(SampleDelay),
    Scale(Scale),
    Sequence(Sequence),
    UpSample(UpSample),
}

/// The classes of this library.
#[derive(Clone, Copy, Debug, PartialEq, Eq)]
pub enum Class {
    AbsoluteValue,
    Accumulator,
    AddSubtract,
    BooleanSelect,
    BooleanSwitch,
    Const,
    Counter,
    DownSample,
    Expression,
    Maximum,
    Minimum,
    MultiplyDivide,
    Ramp,
    Repeat,
    SampleDelay,
    Scale,
    Sequence,
    UpSample,
}

impl Class {
    pub fn of(name: &str) -> Option<Class>
        ensures { result ≡ class_of name.now }
    {
        match name {
            "AbsoluteValue" => Some(Class::AbsoluteValue),
            "Accumulator" => Some(Class::Accumulator),
            "AddSubtract" => Some(Class::AddSubtract),
            "BooleanSelect" => Some(Class::BooleanSelect),
            "BooleanSwitch" => Some(Class::BooleanSwitch),
            "Const" => Some(Class::Const),
            "Counter" => Some(Class::Counter),
            "DownSample" => Some(Class::DownSample),
            "Expression" => Some(Class::Expression),
            "Maximum" => Some(Class::Maximum),
            "Minimum" => Some(Class::Minimum),
            "MultiplyDivide" => Some(Class::MultiplyDivide),
            "Ramp" => Some(Class::Ramp),
            "Repeat" => Some(Class::Repeat),
            "SampleDelay" => Some(Class::SampleDelay),
            "Scale" => Some(Class::Scale),
            "Sequence" => Some(Class::Sequence),
            "UpSample" => Some(Class::UpSample),
            _ => None,
        }
    }
}

/// The same code for whichever class the actor has.
macro_rules! of_class {
    ($held:expr, $actor:ident => $code:expr) => {
        match $held {
            FlowActor::AbsoluteValue($actor) => $code,
            FlowActor::Accumulator($actor) => $code,
            FlowActor::AddSubtract($actor) => $code,
            FlowActor::BooleanSelect($actor) => $code,
            FlowActor::BooleanSwitch($actor) => $code,
            FlowActor::Const($actor) => $code,
            FlowActor::Counter($actor) => $code,
            FlowActor::DownSample($actor) => $code,
            FlowActor::Expression($actor) => $code,
            FlowActor::Extreme($actor) => $code,
            FlowActor::MultiplyDivide($actor) => $code,
            FlowActor::Ramp($actor) => $code,
            FlowActor::Repeat($actor) => $code,
            FlowActor::SampleDelay($actor) => $code,
            FlowActor::Scale($actor) => $code,
            FlowActor::Sequence($actor) => $code,
            FlowActor::UpSample($actor) => $code,
        }
    };
}

/// The actor of a class, if it was started.
macro_rules! held_as {
    ($class:ident, $started:expr) => {
        match $started {
            Some(actor) => Some(FlowActor::$class(actor)),
            None => None,
        }
    };
}

impl FlowActor {
    /// The actor that the parameters start.
    pub fn start(alloc: Global, params: &Params) -> Result<FlowActor, AllocError>
        requires { IsSome (start params.now) }
        ensures { IfOk result (λ actor. Some actor ≡ start params.now) }
    {
        match FlowActor::started(alloc, params)? {
            Some(actor) => Ok(actor),
            None => unreachable!(),
        }
    }

    /// The actor that the parameters start, if the class is one of this library and they are such as its row has them.
    pub fn started(alloc: Global, params: &Params) -> Result<Option<FlowActor>, AllocError>
        ensures { IfOk result (λ actor. actor ≡ start params.now) }
    {
        match Class::of(params.class.as_str()) {
            Some(class) => FlowActor::started_as(class, alloc, params),
            None => Ok(None),
        }
    }

    fn started_as(
        class: Class,
        alloc: Global,
        params: &Params,
    ) -> Result<Option<FlowActor>, AllocError>
        ensures { IfOk result (λ actor. actor ≡ start_as class params.now) }
    {
        Ok(match class {
            Class::AbsoluteValue => held_as!(AbsoluteValue, AbsoluteValue::start(alloc, params)?),
            Class::Accumulator => held_as!(Accumulator, Accumulator::start(alloc, params)?),
            Class::AddSubtract => held_as!(AddSubtract, AddSubtract::start(alloc, params)?),
            Class::BooleanSelect => held_as!(BooleanSelect, BooleanSelect::start(alloc, params)?),
            Class::BooleanSwitch => held_as!(BooleanSwitch, BooleanSwitch::start(alloc, params)?),
            Class::Const => held_as!(Const, Const::start(alloc, params)?),
            Class::Counter => held_as!(Counter, Counter::start(alloc, params)?),
            Class::DownSample => held_as!(DownSample, DownSample::start(alloc, params)?),
            Class::Expression => held_as!(Expression, Expression::start(alloc, params)?),
            Class::Maximum => held_as!(Extreme, Extreme::start(Side::Greatest, alloc, params)?),
            Class::Minimum => held_as!(Extreme, Extreme::start(Side::Least, alloc, params)?),
            Class::MultiplyDivide => held_as!(
                MultiplyDivide,
                MultiplyDivide::start(alloc, params)?
            ),
            Class::Ramp => held_as!(Ramp, Ramp::start(alloc, params)?),
            Class::Repeat => held_as!(Repeat, Repeat::start(alloc, params)?),
            Class::SampleDelay => held_as!(SampleDelay, SampleDelay::start(alloc, params)?),
            Class::Scale => held_as!(Scale, Scale::start(alloc, params)?),
            Class::Sequence => held_as!(Sequence, Sequence::start(alloc, params)?),
            Class::UpSample => held_as!(UpSample, UpSample::start(alloc, params)?),
        })
    }

    /// The number of its outputs.
    pub fn outputs(&self) -> usize
        ensures { result ≡ outputs self.now }
    {
        match self {
            FlowActor::BooleanSwitch(_) => 2,
            FlowActor::AbsoluteValue(_)
            | FlowActor::Accumulator(_)
            | FlowActor::AddSubtract(_)
            | FlowActor::BooleanSelect(_)
            | FlowActor::Const(_)
            | FlowActor::Counter(_)
            | FlowActor::DownSample(_)
            | FlowActor::Expression(_)
            | FlowActor::Extreme(_)
            | FlowActor::MultiplyDivide(_)
            | FlowActor::Ramp(_)
            | FlowActor::Repeat(_)
            | FlowActor::SampleDelay(_)
            | FlowActor::Scale(_)
            | FlowActor::Sequence(_)
            | FlowActor::UpSample(_) => 1,
        }
    }

    /// How many tokens a firing gives on its one output, where each input has the tokens that it needs, of the types of its row.
    ///
    /// There is none where the number varies, as at a BooleanSwitch and a BooleanSelect.
    pub fn rate(&self) -> Option<usize>
        requires { IfSome (rate self.now) IsCount }
        ensures { result ≡ rate self.now }
    {
        match self {
            FlowActor::UpSample(actor) => Some(actor.rate()),
            FlowActor::Repeat(actor) => Some(actor.rate()),
            FlowActor::BooleanSelect(_) | FlowActor::BooleanSwitch(_) => None,
            FlowActor::AbsoluteValue(_)
            | FlowActor::Accumulator(_)
            | FlowActor::AddSubtract(_)
            | FlowActor::Const(_)
            | FlowActor::Counter(_)
            | FlowActor::DownSample(_)
            | FlowActor::Expression(_)
            | FlowActor::Extreme(_)
            | FlowActor::MultiplyDivide(_)
            | FlowActor::Ramp(_)
            | FlowActor::SampleDelay(_)
            | FlowActor::Scale(_)
            | FlowActor::Sequence(_) => Some(1),
        }
    }

    /// Whether it needs the same at each firing.
    pub fn is_steady(&self) -> bool
        ensures { result ≡ is_steady self.now }
    {
        match self {
            FlowActor::Const(actor) => actor.is_endless(),
            FlowActor::Ramp(actor) => actor.is_endless(),
            FlowActor::Sequence(actor) => actor.is_cyclic(),
            FlowActor::BooleanSelect(_) => false,
            FlowActor::AbsoluteValue(_)
            | FlowActor::Accumulator(_)
            | FlowActor::AddSubtract(_)
            | FlowActor::BooleanSwitch(_)
            | FlowActor::Counter(_)
            | FlowActor::DownSample(_)
            | FlowActor::Expression(_)
            | FlowActor::Extreme(_)
            | FlowActor::MultiplyDivide(_)
            | FlowActor::Repeat(_)
            | FlowActor::SampleDelay(_)
            | FlowActor::Scale(_)
            | FlowActor::UpSample(_) => true,
        }
    }

    /// Whether it begins by itself: it has no input places.
    pub fn begins(&self) -> bool
        ensures { result ≡ flow_actor.rows.begins self.now }
    {
        match self {
            FlowActor::Const(actor) => actor.triggers() == 0,
            FlowActor::Ramp(actor) => actor.triggers() == 0,
            FlowActor::Sequence(actor) => actor.triggers() == 0,
            FlowActor::BooleanSelect(_) | FlowActor::DownSample(_) | FlowActor::Repeat(_) => false,
            FlowActor::AbsoluteValue(_)
            | FlowActor::Accumulator(_)
            | FlowActor::AddSubtract(_)
            | FlowActor::BooleanSwitch(_)
            | FlowActor::Counter(_)
            | FlowActor::Expression(_)
            | FlowActor::Extreme(_)
            | FlowActor::MultiplyDivide(_)
            | FlowActor::SampleDelay(_)
            | FlowActor::Scale(_)
            | FlowActor::UpSample(_) => has_no_places(self.need()),
        }
    }

    /// Whether under DE it takes its lists whole. None of these actors does.
    pub fn whole(&self) -> bool
        ensures { result ≡ flow_actor.rows.whole self.now }
    {
        false
    }

    /// Makes a firing that gives one integer, and nothing else. Where it makes none, `step` makes the firing.
    #[inline(always)]
    pub fn number(&mut self, inputs: &IntInputs<'_>) -> Option<i64>
        ensures { GivesNumber flow_actor.step self.old inputs.now result self.new }
    {
        match self {
            FlowActor::AbsoluteValue(actor) => actor.number(inputs),
            FlowActor::Accumulator(actor) => actor.number(inputs),
            FlowActor::AddSubtract(actor) => actor.number(inputs),
            FlowActor::Const(actor) => actor.number(inputs),
            FlowActor::Counter(actor) => actor.number(inputs),
            FlowActor::DownSample(actor) => actor.number(inputs),
            FlowActor::Extreme(actor) => actor.number(inputs),
            FlowActor::MultiplyDivide(actor) => actor.number(inputs),
            FlowActor::Ramp(actor) => actor.number(inputs),
            FlowActor::SampleDelay(actor) => actor.number(inputs),
            FlowActor::Scale(actor) => actor.number(inputs),
            FlowActor::Sequence(actor) => actor.number(inputs),
            FlowActor::BooleanSelect(_)
            | FlowActor::BooleanSwitch(_)
            | FlowActor::Expression(_)
            | FlowActor::Repeat(_)
            | FlowActor::UpSample(_) => None,
        }
    }

    /// Makes a firing that gives integers on its one port, and nothing else. `given` has them then, in order. Where it makes none, `step` makes the firing.
    pub fn numbers(&self, inputs: &IntInputs<'_>, given: &mut Vec<i64>) -> bool
        ensures { GivesNumbers flow_actor.step self.now inputs.now result given.new.items self.now }
    {
        match self {
            FlowActor::Repeat(actor) => actor.numbers(inputs, given),
            FlowActor::UpSample(actor) => actor.numbers(inputs, given),
            FlowActor::AbsoluteValue(_)
            | FlowActor::Accumulator(_)
            | FlowActor::AddSubtract(_)
            | FlowActor::BooleanSelect(_)
            | FlowActor::BooleanSwitch(_)
            | FlowActor::Const(_)
            | FlowActor::Counter(_)
            | FlowActor::DownSample(_)
            | FlowActor::Expression(_)
            | FlowActor::Extreme(_)
            | FlowActor::MultiplyDivide(_)
            | FlowActor::Ramp(_)
            | FlowActor::SampleDelay(_)
            | FlowActor::Scale(_)
            | FlowActor::Sequence(_) => false,
        }
    }

    /// Makes the first firings of a stretch, one after another, where each gives `rate` integers on its one port, and nothing else, and tells how many. `given` has the integers then, in order. Where it makes none, `step` makes the firing.
    pub fn stretch(&mut self, inputs: &IntRows<'_>, rate: usize, given: &mut Vec<i64>) -> usize
        ensures { GivesStretch flow_actor.step self.old inputs.now rate result given.new.items self.new }
    {
        match self {
            FlowActor::AbsoluteValue(actor) => stretch_of_ones(actor, inputs, rate, given),
            FlowActor::Accumulator(actor) => stretch_taken_out(actor, inputs, rate, given),
            FlowActor::AddSubtract(actor) => stretch_of_ones(actor, inputs, rate, given),
            FlowActor::Const(actor) => stretch_of_ones(actor, inputs, rate, given),
            FlowActor::Counter(actor) => stretch_of_ones(actor, inputs, rate, given),
            FlowActor::DownSample(actor) => stretch_of_ones(actor, inputs, rate, given),
            FlowActor::Extreme(actor) => stretch_of_ones(actor, inputs, rate, given),
            FlowActor::MultiplyDivide(actor) => stretch_of_ones(actor, inputs, rate, given),
            FlowActor::Ramp(actor) => stretch_taken_out(actor, inputs, rate, given),
            FlowActor::SampleDelay(actor) => stretch_of_ones(actor, inputs, rate, given),
            FlowActor::Scale(actor) => stretch_of_ones(actor, inputs, rate, given),
            FlowActor::Sequence(actor) => stretch_of_ones(actor, inputs, rate, given),
            FlowActor::UpSample(actor) => actor.stretch(inputs, rate, given),
            FlowActor::BooleanSelect(_)
            | FlowActor::BooleanSwitch(_)
            | FlowActor::Expression(_)
            | FlowActor::Repeat(_) => {
                given.clear();
                0
            }
        }
    }
}

impl Fires for FlowActor {
    ghost use Rattle.pt_lib_flow.specs.FlowActor as flow_actor;

    ghost step = { flow_actor.step };

    ghost Takes = { λ tag actor X. Unit {0} };

    ghost IsSpare = { flow_actor.IsSpare };

    fn step(&mut self, alloc: Global, tag: Tag, inputs: &Inputs<'_>) -> Step {
        of_class!(self, actor => actor.step(alloc, tag, inputs))
    }

    fn copy(&self, alloc: Global) -> Result<FlowActor, AllocError> {
        Ok(match self {
            FlowActor::AbsoluteValue(actor) => FlowActor::AbsoluteValue(actor.copy(alloc)?),
            FlowActor::Accumulator(actor) => FlowActor::Accumulator(actor.copy(alloc)?),
            FlowActor::AddSubtract(actor) => FlowActor::AddSubtract(actor.copy(alloc)?),
            FlowActor::BooleanSelect(actor) => FlowActor::BooleanSelect(actor.copy(alloc)?),
            FlowActor::BooleanSwitch(actor) => FlowActor::BooleanSwitch(actor.copy(alloc)?),
            FlowActor::Const(actor) => FlowActor::Const(actor.copy(alloc)?),
            FlowActor::Counter(actor) => FlowActor::Counter(actor.copy(alloc)?),
            FlowActor::DownSample(actor) => FlowActor::DownSample(actor.copy(alloc)?),
            FlowActor::Expression(actor) => FlowActor::Expression(actor.copy(alloc)?),
            FlowActor::Extreme(actor) => FlowActor::Extreme(actor.copy(alloc)?),
            FlowActor::MultiplyDivide(actor) => FlowActor::MultiplyDivide(actor.copy(alloc)?),
            FlowActor::Ramp(actor) => FlowActor::Ramp(actor.copy(alloc)?),
            FlowActor::Repeat(actor) => FlowActor::Repeat(actor.copy(alloc)?),
            FlowActor::SampleDelay(actor) => FlowActor::SampleDelay(actor.copy(alloc)?),
            FlowActor::Scale(actor) => FlowActor::Scale(actor.copy(alloc)?),
            FlowActor::Sequence(actor) => FlowActor::Sequence(actor.copy(alloc)?),
            FlowActor::UpSample(actor) => FlowActor::UpSample(actor.copy(alloc)?),
        })
    }
}

impl Actor for FlowActor {
    ghost use Rattle.std.specs.Prelude.{None};
    ghost use Rattle.pt_lib_flow.specs.FlowActor as flow_actor;

    ghost first = { flow_actor.first };

    ghost need = { flow_actor.need };

    ghost next = { λ actor. None };

    ghost early = { flow_actor.early };

    fn first(&self) -> &[Token] {
        of_class!(self, actor => actor.first())
    }

    #[inline(always)]
    fn need(&self) -> Need<'_> {
        of_class!(self, actor => actor.need())
    }

    fn early(&self, alloc: Global, tag: Tag, partial: &Partial) -> Result<Partial, AllocError> {
        strict_early(self, self.outputs(), alloc, tag, partial)
    }

    fn next(&self) -> Option<Tag> {
        of_class!(self, actor => actor.next())
    }
}
