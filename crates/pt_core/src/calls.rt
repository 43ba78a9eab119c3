ghost use Rattle.std.specs.Prelude.{◌≡◌, Some, None, IsSome, IfOk, OnOk, OnErr};
ghost use Rattle.pt_meaning.specs.NodeFacts.{core_need, core_begins, core_whole};
ghost use Rattle.pt_firing.specs.Need.{need_of};
ghost use Rattle.pt_core.specs.Acts.{Calls};

use pt_firing::{Ask, Inputs, Need, Outputs, Partial, RunFault};
use pt_time::Tag;
use std::alloc::{AllocError, Global};

/// The core of a director: its calls do what `calls` says. After an `Err` it is as before.
///
/// A firing of the composite is `begin`, then `ask` and what it asks for, and at `Finished` the call `finish`.
pub trait Core: Sized {
    ghost calls: { Calls Self };

    /// What the composite needs before it can fire.
    fn need(&self) -> Need<'_>
        ensures { need_of result ≡ core_need (calls.core_of self.now) };

    /// Whether the composite begins by itself, and so has the wake 0.0 until it fires for the first time.
    fn begins(&self) -> bool
        ensures { result ≡ core_begins (calls.core_of self.now) };

    /// Whether it takes its lists whole where it is a child of a DE composite.
    fn whole(&self) -> bool
        ensures { result ≡ core_whole (calls.core_of self.now) };

    /// Begins a firing of the composite at a tag, on a list for each own input.
    fn begin(&mut self, alloc: Global, tag: Tag, inputs: &Inputs<'_>) -> Result<(), AllocError>
        requires idle { calls.IsIdle self.old }
        requires inputs { calls.Takes self.old inputs.now }
        ensures begun { OnOk result (self.new ≡ calls.begun tag inputs.now self.old) }
        ensures kept { OnErr result (self.new ≡ self.old) };

    /// What comes next. It takes no memory.
    fn ask(&mut self) -> Ask
        requires { calls.MayAsk self.old }
        ensures gives { calls.Gives self.old result }
        ensures state { self.new ≡ calls.asking result self.old };

    /// Hands over the inputs of the child that was asked to fire, so that they can be lent. It takes no memory.
    fn hand(&mut self)
        requires { IsSome (calls.asked_of self.old) }
        ensures { self.new ≡ calls.handed self.old };

    /// The inputs of that child. It takes no memory.
    fn lent(&self) -> Inputs<'_>
        requires { calls.MayLend self.now }
        ensures { result ≡ calls.lent_of self.now };

    /// Takes what the firing of that child gave, a list for each of its ports, and the wake and the need that it has then.
    fn told(
        &mut self,
        alloc: Global,
        child: u32,
        outputs: Outputs,
        wake: Option<Tag>,
        need: Need<'_>,
    ) -> Result<(), AllocError>
        requires asked { calls.asked_of self.old ≡ Some child }
        ensures told { OnOk result (self.new ≡ calls.told child outputs wake (need_of need.entry) self.old) }
        ensures kept { OnErr result (self.new ≡ self.old) };

    /// Whether the core doesn't accept what the child told last gave.
    fn is_wrong(&self) -> bool
        requires { calls.MayAsk self.now }
        ensures { result ≡ calls.is_wrong self.now };

    /// The fault of a child that gives what isn't accepted.
    fn refusal(&self) -> RunFault
        ensures { result ≡ calls.refusal self.now };

    /// What is known of the inputs of the child that was asked for an early answer: nothing of none where no child was asked.
    fn partial(&self, alloc: Global) -> Result<Partial, AllocError>
        ensures { IfOk result (λ partial. partial ≡ calls.partial_of self.now) };

    /// Takes what that child gave early. Where no child was asked nothing changes, since some directors never ask.
    fn hears(&mut self, alloc: Global, child: u32, early: &Partial) -> Result<(), AllocError>
        ensures heard { calls.listened_of self.old ≡ Some child → OnOk result (self.new ≡ calls.heard child early.now self.old) }
        ensures unasked { calls.listened_of self.old ≡ None → OnOk result (self.new ≡ self.old) }
        ensures kept { OnErr result (self.new ≡ self.old) };

    /// Hands out the own outputs.
    fn finish(&mut self, alloc: Global) -> Result<Outputs, AllocError>
        requires { calls.MayFinish self.old }
        ensures core { OnOk result (self.new ≡ calls.closed self.old) }
        ensures given { IfOk result (λ outputs. outputs ≡ calls.own_of self.old) }
        ensures kept { OnErr result (self.new ≡ self.old) };

    /// Where it is full, the channels that are waited for, by number, each with its length.
    fn blocked(&self, alloc: Global) -> Result<Vec<(u32, usize)>, AllocError>
        ensures { IfOk result (λ full. full.items ≡ calls.blocked self.now) };

    /// The composite's own wake, where no firing is under way.
    fn next(&self) -> Option<Tag>
        requires { calls.IsIdle self.now }
        ensures { result ≡ calls.wake self.now };

    /// Brings back the core's start.
    fn reset(&mut self, alloc: Global) -> Result<(), AllocError>
        ensures reset { OnOk result (self.new ≡ calls.restarted self.old) }
        ensures kept { OnErr result (self.new ≡ self.old) };

    /// Another core in the same state.
    fn copy(&self, alloc: Global) -> Result<Self, AllocError>
        ensures { IfOk result (λ core. core ≡ self.now) };
}
