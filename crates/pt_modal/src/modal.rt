ghost use Rattle.std.specs.Prelude.{◌≡◌};
ghost use Rattle.pt_modal_laws.specs.State.{stage_after};
ghost use Rattle.pt_modal.specs.Stage.{stage_of};

use crate::first::FirstStep;
use crate::lists::Lists;
use crate::modes::Modes;
use crate::plan::CorePlan;
use crate::stage::Stage;
use crate::wakes::{lagged, set_wake, wake_of};
use pt_firing::{Ask, Counts, Inputs, Outputs, Tokens};
use pt_time::Tag;
use pt_transitions::{Move, Reaction};
use std::alloc::{AllocError, Global};
use std::marker::Model;

/// The tag of a core that hasn't begun.
const ORIGIN: Tag = Tag { time: 0, step: 0 };

/// The core of a Modal composite. It never calls a child: it asks for a firing of a refinement or for its reset, and is told what a firing gave.
///
/// A reaction is `begin`, then `ask` and, for a firing that it asks for, `told`, and at `Finished` the call `finish`. The preemptive guards are tested in `begin`, the others in `told`, or in `begin` where the state has no refinement.
pub struct Core {
    plan: CorePlan,
    modes: Modes,
    wakes: Vec<Option<Tag>>,
    tag: Tag,
    lists: Lists,
    stage: Stage,
}

// Written by hand, so that letting go of a core is one call in the proofs above.
impl Drop for Core {
    fn drop(self) {
        let Core {
            plan: _,
            modes: _,
            wakes: _,
            tag: _,
            lists: _,
            stage: _,
        } = self;
    }
}

impl Model for Core {
    ghost use Rattle.pt_chart.specs.Machine.{Machine, coded_machine};
    ghost use Rattle.pt_modal_laws.specs.ModalActs.{State};
    ghost use Rattle.pt_modal_laws.specs.StateCode.{coded_state};

    ghost Value = { State Machine };

    ghost coded = { coded_state coded_machine };

    ghost use Rattle.pt_modal.specs.Seen.{seen_core, HasLent};

    ghost view = { seen_core };

    ghost invariant = { HasLent };
}

impl Core {
    ghost use Rattle.std.specs.Prelude.{◌≡◌, replicate, IfOk, IfSome, IfNone, IsSome, OnOk, OnErr};
    ghost use Rattle.pt_meaning.specs.Tag.{local};
    ghost use Rattle.pt_meaning.specs.Modal.{lag_of};
    ghost use Rattle.pt_chart.specs.Chart.{chart_of};
    ghost use Rattle.pt_transitions.specs.Moves.{reaction_view};
    ghost use Rattle.pt_modal_laws.specs.State.{Idle, Closed, asked_child, opened, after_reset, closed, taken_by, started, begun, after_told, restarted, wake_of};
    ghost use Rattle.pt_modal_laws.specs.ModalActs.{MayAsk, Gives, asking};
    ghost use Rattle.pt_modal.specs.First.{Picks, after_first, after_reacted, moved};
    ghost use Rattle.pt_modal.specs.Views.{first_view};
    ghost use Rattle.pt_modal.specs.Signals.{IsSignal};

    /// A core of this plan, before its first reaction.
    pub fn new(alloc: Global, plan: CorePlan) -> Result<Core, AllocError>
        ensures { IfOk result (λ core. core ≡ started chart_of plan) }
    {
        let modes = plan.first_modes(alloc)?;
        let wakes = Vec::from_slice(alloc, plan.starts())?;
        Ok(Core {
            plan,
            modes,
            wakes,
            tag: ORIGIN,
            lists: Lists::none(alloc),
            stage: Stage::Idle,
        })
    }

    /// How many tokens a reaction takes at most from each own input: one.
    pub fn takes(&self) -> &Counts
        ensures { result.now ≡ replicate (chart_of self.now.plan.machine).inputs 1 }
    {
        self.plan.takes()
    }

    /// Begins a reaction at a tag, on a list for each own input. After an `Err` the core is as before.
    pub fn begin(&mut self, alloc: Global, tag: Tag, inputs: &Inputs<'_>) -> Result<(), AllocError>
        ensures begun { OnOk result (self.new ≡ begun chart_of tag inputs.now self.old) }
        ensures kept { OnErr result (self.new ≡ self.old) }
    {
        let step = self.plan.first_step(alloc, &self.modes, inputs)?;
        let kept = step.kept(alloc, inputs)?;
        self.open(alloc, tag, kept);
        self.go_on(step);
        Ok(())
    }

    /// A whole reaction, from `begin` to `finish`, where no refinement is left, entered or fired, and the one own output has one integer at most. It takes no memory. After `None` the core is as before.
    ///
    /// It says nothing of the tag, since only the times of refinements depend on it.
    #[inline(never)]
    pub fn signal(&mut self, inputs: &Inputs<'_>) -> Option<Option<i64>>
        requires idle { self.old.stage ≡ Idle }
        ensures kept { IfNone result (self.new ≡ self.old) }
        ensures goes { IfSome result (λ given. IsSignal chart_of given inputs.now self.old self.new) }
    {
        if !self.lists.are_none() {
            return None;
        }
        let given = self.plan.signal(&mut self.modes, inputs)?;
        self.tag = ORIGIN;
        Some(given)
    }

    /// A reaction begins, and no guard is tested yet.
    fn open(&mut self, alloc: Global, tag: Tag, inputs: Vec<Tokens>)
        ensures { self.new ≡ opened tag inputs.items self.old }
    {
        self.tag = tag;
        self.lists.inputs = inputs;
        self.lists.outputs = Vec::new(alloc);
        self.stage = Stage::Idle;
    }

    /// Takes what comes first in the reaction.
    fn go_on(&mut self, step: FirstStep)
        requires { Picks (chart_of self.old.plan.machine) self.old.inputs (first_view step) }
        ensures { self.new ≡ after_first chart_of (first_view step) self.old }
    {
        match step {
            FirstStep::Fires(refinement, lent) => {
                self.lists.lent = lent;
                self.stage = Stage::Due(refinement);
            }
            FirstStep::Comes(reaction) => self.settle(reaction),
        }
    }

    /// Takes what comes of the guards.
    fn settle(&mut self, reaction: Reaction)
        ensures { self.new ≡ after_reacted chart_of (reaction_view reaction) self.old }
    {
        match reaction {
            Reaction::Stays(outputs) => {
                self.lists.outputs = outputs;
                self.stage = Stage::Over;
            }
            Reaction::Moves(taken) => self.take(taken),
            Reaction::Stops(fault) => self.stage = Stage::Failed(fault),
        }
    }

    /// Takes a transition.
    fn take(&mut self, taken: Move)
        ensures { self.new ≡ moved chart_of taken.target taken.history taken.outputs.items taken.values.items self.old }
    {
        let Move {
            target,
            history,
            outputs,
            values,
        } = taken;
        let left = self.plan.refinement(self.modes.mode());
        let entered = self.plan.refinement(target);
        self.modes.pass(self.tag.time, history, left, entered);
        self.modes.enter(target, values);
        self.lists.outputs = outputs;
        self.stage = stage_after(history, entered);
    }

    /// What comes next. It takes no memory and moves no token.
    pub fn ask(&mut self) -> Ask
        requires { MayAsk self.old.stage }
        ensures gives { Gives self.old result }
        ensures state { self.new ≡ asking result self.old }
    {
        match self.stage {
            Stage::Due(refinement) => {
                let tag = self.local(refinement);
                self.stage = Stage::Asked(refinement);
                Ask::Fire(refinement, tag)
            }
            Stage::Resets(refinement) => {
                self.reset_one(refinement);
                Ask::Reset(refinement)
            }
            Stage::Over => {
                self.stage = Stage::Closed;
                Ask::Finished
            }
            Stage::Failed(fault) => Ask::Faulted(fault, None),
            Stage::Idle | Stage::Asked(_) | Stage::Closed => unreachable!(),
        }
    }

    /// The local tag of a refinement.
    fn local(&self, refinement: u32) -> Tag
        ensures { result ≡ local self.now.tag (lag_of self.now.modes.stays refinement) }
    {
        Tag {
            time: self.tag.time.saturating_sub(self.modes.lag(refinement)),
            step: self.tag.step,
        }
    }

    /// A refinement has the wake of its start again.
    fn reset_one(&mut self, refinement: u32)
        ensures { self.new ≡ after_reset refinement self.old }
    {
        let start = wake_of(self.plan.starts(), refinement);
        set_wake(&mut self.wakes, refinement, start);
        self.stage = Stage::Over;
    }

    /// What the refinement takes that was asked to fire. It takes no memory.
    pub fn lent(&self) -> Inputs<'_>
        requires { IsSome (asked_child self.now.stage) }
        ensures { result ≡ taken_by chart_of self.now (asked_child self.now.stage) }
    {
        Inputs::of(self.lists.lent.as_slice())
    }

    /// Takes what the refinement gave, and its wake. After an `Err` the core is as before.
    pub fn told(
        &mut self,
        alloc: Global,
        refinement: u32,
        outputs: &Outputs,
        wake: Option<Tag>,
    ) -> Result<(), AllocError>
        ensures told { OnOk result (self.new ≡ after_told chart_of refinement outputs.now wake self.old) }
        ensures kept { OnErr result (self.new ≡ self.old) }
    {
        let inputs = Inputs::of(self.lists.inputs.as_slice());
        let reaction = self
            .plan
            .follow(alloc, &self.modes, &inputs, refinement, outputs)?;
        set_wake(&mut self.wakes, refinement, wake);
        self.settle(reaction);
        Ok(())
    }

    /// Hands out the own outputs.
    pub fn finish(&mut self, alloc: Global) -> Outputs
        requires { self.old.stage ≡ Closed }
        ensures core { self.new ≡ closed self.old }
        ensures given { result ≡ self.old.outputs }
    {
        let outputs = self.lists.hand_out(alloc);
        self.tag = ORIGIN;
        self.stage = Stage::Idle;
        Outputs::of(outputs)
    }

    /// The composite's own wake.
    pub fn next(&self) -> Option<Tag>
        ensures { result ≡ wake_of chart_of self.now }
    {
        match self.plan.refinement(self.modes.mode()) {
            Some(refinement) => {
                let wake = wake_of(&self.wakes, refinement);
                lagged(wake, self.modes.lag(refinement))
            }
            None => None,
        }
    }

    /// Brings back the core's start. After an `Err` it is as before.
    pub fn reset(&mut self, alloc: Global) -> Result<(), AllocError>
        ensures reset { OnOk result (self.new ≡ restarted chart_of self.old) }
        ensures kept { OnErr result (self.new ≡ self.old) }
    {
        let modes = self.plan.first_modes(alloc)?;
        self.wakes = Vec::from_slice(alloc, self.plan.starts())?;
        self.modes = modes;
        self.tag = ORIGIN;
        self.lists = Lists::none(alloc);
        self.stage = Stage::Idle;
        Ok(())
    }

    /// Another core in the same state.
    pub fn copy(&self, alloc: Global) -> Result<Core, AllocError>
        ensures { IfOk result (λ core. core ≡ self.now) }
    {
        let lists = self.lists.copy(alloc)?;
        let wakes = Vec::from_slice(alloc, &self.wakes)?;
        let modes = self.modes.copy(alloc)?;
        Ok(Core {
            plan: self.plan.copy(alloc)?,
            modes,
            wakes,
            tag: self.tag,
            lists,
            stage: self.stage,
        })
    }
}

/// Where a reaction stands after a transition: without history the refinement of its target is to be reset, if there is one.
fn stage_after(history: bool, entered: Option<u32>) -> Stage
    ensures { stage_of result ≡ stage_after history entered }
{
    match entered {
        Some(refinement) if !history => Stage::Resets(refinement),
        Some(_) | None => Stage::Over,
    }
}
