ghost use Rattle.std.specs.Prelude.{◌≡◌};
ghost use Rattle.pt_meaning.specs.Sr.{all_single};

use crate::plan::CorePlan;
use crate::tick::{Next, Tick};
use crate::worklist::Worklist;
use pt_firing::{Ask, Counts, Inputs, IntInputs, Outputs, Partial, RunFault};
use pt_time::Tag;
use std::alloc::{AllocError, Global};
use std::marker::Model;

/// The tag of a core that hasn't begun.
const ORIGIN: Tag = Tag { time: 0, step: 0 };

/// Where a firing of the composite stands.
#[derive(Clone, Copy, Debug)]
pub(crate) enum Stage {
    Idle,
    Open,
    /// This child was asked to fire.
    Asked(u32),
    /// This child was asked for an early answer.
    Listens(u32),
    /// This child gave two tokens on one port.
    Wrong(u32),
    Closed,
}

/// The core of an SR composite. It never calls a child: it asks for firings and early answers, and is told what they gave.
///
/// A firing of the composite is `begin`, then `ask` and, for what it asks, `told` or `hears`, and at `Finished` the call `finish`.
pub struct Core {
    tick: Tick,
    worklist: Worklist,
    tag: Tag,
    stage: Stage,
}

// Written by hand, so that letting go of a core is one call in the proofs above.
impl Drop for Core {
    fn drop(self) {
        let Core {
            tick: _,
            worklist: _,
            tag: _,
            stage: _,
        } = self;
    }
}

impl Model for Core {
    ghost use Rattle.pt_sr.specs.Clauses.{State};
    ghost use Rattle.pt_sr.specs.StateCode.{coded_state};

    ghost Value = { State };

    ghost coded = { coded_state };

    ghost use Rattle.pt_sr.specs.Clauses.{seen_core, StageFits};

    ghost view = { seen_core };

    ghost invariant = { λ c. StageFits c.stage c.tick };
}

impl Core {
    ghost use Rattle.std.specs.Prelude.{◌≡◌, ◌↔◌, ◌-◌, ◌<◌, ◌≤◌, [], ◌∷◌, length, map, replicate, IfOk, IfSome, IsSome, IsTrue, OnOk, OnErr, Some};
    ghost use Rattle.pt_meaning.specs.Running.{total};
    ghost use Rattle.pt_value.specs.declared.token.Token.TheVariants.{Int};
    ghost use Rattle.pt_sr.specs.State.{Idle, Open, Closed, asked_child, listened_child, lent_of, inputs_of, own_of, started, restarted, begun, after_told, after_heard, closed};
    ghost use Rattle.pt_sr.specs.Clauses.{MayAsk, IsAsked};
    ghost use Rattle.pt_sr.specs.SrActs.{is_wrong, inputs_if};
    ghost use Rattle.pt_sr.specs.Plan.{plan_of, IsLawful};

    /// A core of this plan.
    pub fn new(alloc: Global, plan: CorePlan) -> Result<Core, AllocError>
        requires lawful { IsLawful (plan_of plan) plan.nonstrict.items plan.takes }
        ensures { IfOk result (λ core. core ≡ started (plan_of plan) plan.nonstrict.items) }
    {
        let worklist = Worklist::new(alloc, &plan)?;
        let tick = Tick::new(alloc, plan)?;
        Ok(Core {
            tick,
            worklist,
            tag: ORIGIN,
            stage: Stage::Idle,
        })
    }

    /// How many tokens a tick takes at most from each own input: one.
    pub fn takes(&self) -> &Counts
        ensures { result.now ≡ replicate self.now.tick.plan.inputs 1 }
    {
        self.tick.takes()
    }

    /// How many own outputs there are.
    pub fn outlets(&self) -> usize
        ensures { result ≡ length self.now.tick.plan.net.sources - total self.now.tick.plan.net.places }
    {
        self.tick.outlets()
    }

    /// Begins a firing of the composite, which is one tick, on a list for each own input. After an `Err` the core is as before.
    pub fn begin(&mut self, alloc: Global, tag: Tag, inputs: &Inputs<'_>) -> Result<(), AllocError>
        requires idle { self.old.stage ≡ Idle }
        requires inputs { length inputs.now ≡ self.old.tick.plan.inputs }
        ensures begun { OnOk result (self.new ≡ begun tag inputs.now self.old) }
        ensures kept { OnErr result (self.new ≡ self.old) }
    {
        self.worklist.restart();
        self.tick.begin(alloc, inputs, &mut self.worklist)?;
        self.tag = tag;
        self.stage = Stage::Open;
        Ok(())
    }

    /// What comes next. It takes no memory and moves no token.
    #[inline(always)]
    pub fn ask(&mut self) -> Ask
        requires { MayAsk self.old.stage }
        ensures { IsAsked self.old result self.new }
    {
        match self.stage {
            Stage::Wrong(child) => Ask::Faulted(RunFault::SecondToken, Some(child)),
            Stage::Open => self.ask_next(),
            Stage::Idle | Stage::Asked(_) | Stage::Listens(_) | Stage::Closed => unreachable!(),
        }
    }

    #[inline(always)]
    fn ask_next(&mut self) -> Ask
        requires { self.old.stage ≡ Open }
        ensures { IsAsked self.old result self.new }
    {
        match self.tick.next(&mut self.worklist) {
            Next::Fire(child) => {
                self.stage = Stage::Asked(child);
                Ask::Fire(child, self.tag)
            }
            Next::Early(child) => {
                self.tick.listen(child as usize);
                self.stage = Stage::Listens(child);
                Ask::Early(child, self.tag)
            }
            Next::Finished => {
                self.stage = Stage::Closed;
                Ask::Finished
            }
            Next::Stuck => Ask::Faulted(RunFault::Causality, None),
        }
    }

    /// The inputs of the child that was asked to fire: no token where one is absent. It takes no memory.
    pub fn lent(&self) -> Inputs<'_>
        requires { IsSome (asked_child self.now.stage) }
        ensures { IfSome (asked_child self.now.stage) (λ child. result ≡ lent_of self.now child) }
    {
        match self.stage {
            Stage::Asked(child) => Inputs::of(self.tick.inputs(child as usize)),
            Stage::Idle | Stage::Open | Stage::Listens(_) | Stage::Wrong(_) | Stage::Closed =>
                unreachable!(),
        }
    }

    /// The inputs of the child that was asked to fire, where each is one integer. `row` is a buffer. `None` says nothing of the inputs.
    #[inline(always)]
    pub fn int_inputs<'a>(&'a self, row: &'a mut Vec<i64>) -> Option<IntInputs<'a>>
        requires { IsSome (asked_child self.now.stage) }
        ensures { IfSome result (λ inputs. inputs ≡ inputs_if self.now (asked_child self.now.stage)) }
    {
        match self.stage {
            Stage::Asked(child) => self.tick.int_inputs(child as usize, row),
            Stage::Idle | Stage::Open | Stage::Listens(_) | Stage::Wrong(_) | Stage::Closed => None,
        }
    }

    /// Takes the number that the firing of the child gave as the one token on its one port. It takes no memory.
    #[inline(always)]
    pub fn told_number(&mut self, child: u32, number: i64)
        requires asked { asked_child self.old.stage ≡ Some child }
        ensures told { self.new ≡ after_told child ((Int number ∷ []) ∷ []) self.old }
    {
        self.tick
            .told_number(child as usize, number, &mut self.worklist);
        self.stage = Stage::Open;
    }

    /// Takes the numbers that the firing of the child gave as the tokens on its one port. After an `Err` the core is as before.
    pub fn told_numbers(
        &mut self,
        alloc: Global,
        child: u32,
        numbers: &[i64],
    ) -> Result<(), AllocError>
        requires asked { asked_child self.old.stage ≡ Some child }
        ensures told { OnOk result (self.new ≡ after_told child (map Int numbers.now ∷ []) self.old) }
        ensures kept { OnErr result (self.new ≡ self.old) }
    {
        match numbers {
            [] => self.told(alloc, child, Outputs::none(1)),
            [number] => {
                self.told_number(child, *number);
                Ok(())
            }
            [_, _, ..] => {
                self.stage = Stage::Wrong(child);
                Ok(())
            }
        }
    }

    /// The child that was asked for an early answer.
    pub fn listened(&self) -> Option<u32>
        ensures { result ≡ listened_child self.now.stage }
    {
        match self.stage {
            Stage::Listens(child) => Some(child),
            Stage::Idle | Stage::Open | Stage::Asked(_) | Stage::Wrong(_) | Stage::Closed => None,
        }
    }

    /// What is known of the inputs of the child that was asked for an early answer.
    pub fn partial(&self, alloc: Global) -> Result<Partial, AllocError>
        requires { IsSome (listened_child self.now.stage) }
        ensures { IfOk result (λ partial. IfSome (listened_child self.now.stage) (λ child. partial ≡ inputs_of self.now.tick child)) }
    {
        match self.stage {
            Stage::Listens(child) => self.tick.partial(alloc, child as usize),
            Stage::Idle | Stage::Open | Stage::Asked(_) | Stage::Wrong(_) | Stage::Closed => {
                unreachable!()
            }
        }
    }

    /// Takes what the firing of the child gave: a list for each of its ports. After an `Err` the core is as before.
    pub fn told(&mut self, alloc: Global, child: u32, outputs: Outputs) -> Result<(), AllocError>
        requires asked { asked_child self.old.stage ≡ Some child }
        ensures told { OnOk result (self.new ≡ after_told child outputs self.old) }
        ensures kept { OnErr result (self.new ≡ self.old) }
    {
        if !are_single(&outputs) {
            self.stage = Stage::Wrong(child);
            return Ok(());
        }
        self.tick
            .told(alloc, child as usize, outputs, &mut self.worklist)?;
        self.stage = Stage::Open;
        Ok(())
    }

    /// Takes what the child gave early. After an `Err` the core is as before.
    pub fn hears(&mut self, alloc: Global, child: u32, early: &Partial) -> Result<(), AllocError>
        requires asked { listened_child self.old.stage ≡ Some child }
        ensures heard { OnOk result (self.new ≡ after_heard child early.now self.old) }
        ensures kept { OnErr result (self.new ≡ self.old) }
    {
        self.tick
            .hears(alloc, child as usize, early, &mut self.worklist)?;
        self.stage = Stage::Open;
        Ok(())
    }

    /// Hands out the own outputs. After an `Err` the core is as before.
    pub fn finish(&mut self, alloc: Global) -> Result<Outputs, AllocError>
        requires { self.old.stage ≡ Closed }
        ensures core { OnOk result (self.new ≡ closed self.old) }
        ensures given { IfOk result (λ outputs. outputs ≡ own_of self.old) }
        ensures kept { OnErr result (self.new ≡ self.old) }
    {
        let outputs = self.tick.hand_out(alloc)?;
        self.tag = ORIGIN;
        self.stage = Stage::Idle;
        Ok(outputs)
    }

    /// Brings back the core's start. It takes no memory.
    pub fn reset(&mut self)
        ensures { self.new ≡ restarted self.old }
    {
        self.tick.forget();
        self.tag = ORIGIN;
        self.stage = Stage::Idle;
    }

    /// Another core in the same state.
    pub fn copy(&self, alloc: Global) -> Result<Core, AllocError>
        ensures { IfOk result (λ core. core ≡ self.now) }
    {
        let worklist = self.worklist.copy(alloc)?;
        let tick = self.tick.copy(alloc)?;
        Ok(Core {
            tick,
            worklist,
            tag: self.tag,
            stage: self.stage,
        })
    }

    /// Whether the child told last gave two tokens on one port.
    pub fn is_wrong(&self) -> bool
        ensures { result ≡ is_wrong self.now.stage }
    {
        matches!(self.stage, Stage::Wrong(_))
    }

    /// Whether no firing of the composite is under way.
    pub fn is_idle(&self) -> bool
        ensures { IsTrue result ↔ (self.now.stage ≡ Idle) }
    {
        matches!(self.stage, Stage::Idle)
    }
}

/// Whether each port has at most one token.
fn are_single(outputs: &Outputs) -> bool
    ensures { result ≡ all_single outputs.now }
{
    for port in 0..outputs.ports() {
        if outputs.list(port).len() > 1 {
            return false;
        }
    }
    true
}
