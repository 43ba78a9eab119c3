ghost use Rattle.std.specs.Prelude.{◌≡◌, ◌<◌, ◌^◌, length, IfOk};
ghost use Rattle.pt_de_laws.specs.State.{started};
ghost use Rattle.pt_de_laws.specs.Lawful.{IsLawful};
ghost use Rattle.pt_de_plan.specs.Inside.{plan_of, roles_of};
ghost use Rattle.pt_de_laws.specs.DeActs.{de_calls};
ghost use Rattle.pt_de_parts.specs.Net.{planned_of};
ghost use Rattle.pt_de.specs.Seen.{stage_left};

use crate::outputs::outputs_of;
use pt_core::Core;
use pt_de_parts::{Net, Rows};
use pt_de_plan::DePlan;
use pt_de_reaction::{Next, Reaction};
use pt_firing::{Ask, Inputs, Need, OneEach, Outputs, Partial, RunFault, Tokens};
use pt_time::Tag;
use std::alloc::{AllocError, Global};
use std::marker::Model;

/// Where a firing of the composite stands.
#[derive(Clone, Copy, Debug)]
pub(crate) enum Stage {
    Idle,
    Open,
    /// This child was asked for an early answer.
    Listens(u32),
    /// This child was asked to fire, on the row that is lent.
    Asked(u32),
    /// This child has fired on a row, and rows are left.
    Between(u32),
    Closed,
}

/// The core of a DE composite. It never calls a child: it asks for firings and early answers, and is told what they gave.
///
/// A firing of the composite is one reaction: `begin`, then `ask` and, for what it asks, `told` or `hears`, and at `Finished` the call `finish`.
pub struct DeCore {
    reaction: Reaction,
    stage: Stage,
    // The rows on which the child that was asked to fire does so.
    rows: Rows,
    need: OneEach,
    // A buffer for what is given.
    staged: Vec<Tokens>,
}

// Written by hand, so that letting go of a core is one call in the proofs above.
impl Drop for DeCore {
    fn drop(self) {
        let DeCore {
            reaction: _,
            stage: _,
            rows: _,
            need: _,
            staged: _,
        } = self;
    }
}

impl Model for DeCore {
    ghost use Rattle.pt_value.specs.declared.token.Token.{Token};
    ghost use Rattle.pt_de_laws.specs.State.{DeState};
    ghost use Rattle.pt_de_parts.specs.StateCode.{coded_state};
    ghost use Rattle.pt_de.specs.Seen.{seen_core, IsCore};

    ghost Value = { DeState Token };

    ghost coded = { coded_state };

    ghost view = { seen_core };

    ghost invariant = { IsCore };
}

impl DeCore {
    ghost use Rattle.std.specs.Prelude.{◌≡◌, ◌↔◌, ◌⊎◌, ◌<◌, ◌^◌, [], ◌∷◌, length, IsTrue, IfOk, OnOk, OnErr, Some};
    ghost use Rattle.pt_meaning.specs.Machine as machine;
    ghost use Rattle.pt_meaning.specs.Machine.{Known};
    ghost use Rattle.pt_de_laws.specs.State.{Open, started, listened_child, after_heard};
    ghost use Rattle.pt_de_laws.specs.DeActs.{Gives, asking, de_calls};
    ghost use Rattle.pt_de_reaction.specs.Signals.{HasRoom, signal_of};

    /// A core of this plan, with the children at their start.
    pub fn new(alloc: Global, plan: DePlan) -> Result<DeCore, AllocError>
        requires lawful { IsLawful (plan_of plan.inside) (roles_of plan.inside plan.depths.items) }
        requires few { length plan.inside.places < 2 ^ 32 }
        requires fewer { length plan.inside.sources.items < 2 ^ 32 }
        ensures { IfOk result (λ core. core ≡ started (plan_of plan.inside) (roles_of plan.inside plan.depths.items)) }
    {
        let inputs = plan.inside.inputs as usize;
        let net = net_of(alloc, plan)?;
        let rows = Rows::new(alloc, net.width())?;
        let reaction = Reaction::new(alloc, net)?;
        let need = OneEach::of(alloc, inputs)?;
        Ok(DeCore {
            reaction,
            stage: Stage::Idle,
            rows,
            need,
            staged: Vec::new(alloc),
        })
    }

    /// The depth of each child: of two that are due in one reaction the one of less depth has its turn first.
    pub fn depths(&self) -> &[u32]
        ensures { result.now ≡ self.now.roles.depths }
    {
        self.reaction.depths()
    }

    /// What comes next where no child has rows left.
    #[inline(always)]
    fn ask_next(&mut self) -> Ask
        requires { self.old.stage ≡ Open }
        ensures gives { Gives self.old result }
        ensures state { self.new ≡ asking result self.old }
    {
        let tag = self.reaction.tag();
        match self.reaction.next() {
            Next::Fire(child) => {
                self.reaction.take_turn(child as usize, &mut self.rows);
                self.stage = Stage::Asked(child);
                Ask::Fire(child, tag)
            }
            Next::Early(child) => {
                self.stage = Stage::Listens(child);
                Ask::Early(child, tag)
            }
            Next::Finished => {
                self.stage = Stage::Closed;
                Ask::Finished
            }
        }
    }

    /// Whether the child that was asked, to fire or for an early answer, may give one token on each port without memory: no channel that it feeds has a token.
    #[inline(always)]
    pub fn has_room(&self, child: u32) -> bool
        requires { (de_calls.asked_of self.now ≡ Some child) ⊎ (de_calls.listened_of self.now ≡ Some child) }
        ensures { IsTrue result ↔ HasRoom self.now child }
    {
        self.reaction.has_room(child as usize)
    }

    /// Takes the integer, if any, that the child gave on its one port which was asked to fire, and its wake. It takes no memory. What the child needs says nothing.
    #[inline(always)]
    pub fn told_signal(&mut self, child: u32, given: Option<i64>, wake: Option<Tag>)
        requires asked { de_calls.asked_of self.old ≡ Some child }
        requires room { HasRoom self.old child }
        ensures { (need : machine.Need) → self.new ≡ de_calls.told child (signal_of given ∷ []) wake need self.old }
    {
        self.reaction.told_signal(child as usize, given, wake);
        self.stage = stage_after(&self.rows, child);
    }

    /// Takes the integer, if any, that the child gave early on its one port which was asked for that, all of which is known. It takes no memory.
    #[inline(always)]
    pub fn hears_signal(&mut self, child: u32, early: Option<i64>)
        requires asked { de_calls.listened_of self.old ≡ Some child }
        requires room { HasRoom self.old child }
        ensures { self.new ≡ de_calls.heard child (Known (signal_of early) ∷ []) self.old }
    {
        self.reaction.hears_signal(child as usize, early);
        self.stage = Stage::Open;
    }

    /// Takes what the child gave early that was asked. After an `Err` the core is as before.
    fn hear(&mut self, alloc: Global, child: u32, early: &Partial) -> Result<(), AllocError>
        requires { listened_child self.old.stage ≡ Some child }
        ensures heard { OnOk result (self.new ≡ after_heard child early.now self.old) }
        ensures kept { OnErr result (self.new ≡ self.old) }
    {
        self.reaction
            .hears(alloc, child as usize, early, &mut self.staged)?;
        self.stage = Stage::Open;
        Ok(())
    }
}

/// Where a firing stands once a child has fired on a row, with these left.
#[inline(always)]
fn stage_after(rows: &Rows, child: u32) -> Stage
    ensures { result ≡ stage_left child rows.now.rest }
{
    if rows.has_more() {
        return Stage::Between(child);
    }
    Stage::Open
}

/// The tables of a plan.
fn net_of(alloc: Global, plan: DePlan) -> Result<Net, AllocError>
    requires lawful { IsLawful (plan_of plan.inside) (roles_of plan.inside plan.depths.items) }
    requires few { length plan.inside.places < 2 ^ 32 }
    requires fewer { length plan.inside.sources.items < 2 ^ 32 }
    ensures { IfOk result (λ net. net ≡ planned_of plan) }
{
    let inside = &plan.inside;
    let outputs = outputs_of(alloc, inside.places.len(), &inside.sources)?;
    Net::new(alloc, plan, outputs)
}

impl Core for DeCore {
    ghost calls = { de_calls };

    fn need(&self) -> Need<'_> {
        Need::All(self.need.counts())
    }

    fn begins(&self) -> bool {
        false
    }

    fn whole(&self) -> bool {
        true
    }

    #[inline(always)]
    fn begin(&mut self, alloc: Global, tag: Tag, inputs: &Inputs<'_>) -> Result<(), AllocError> {
        self.reaction.begin(alloc, tag, inputs, &mut self.staged)?;
        self.stage = Stage::Open;
        Ok(())
    }

    #[inline(always)]
    fn ask(&mut self) -> Ask {
        match self.stage {
            Stage::Open => self.ask_next(),
            Stage::Between(child) => {
                self.rows.go_on();
                self.stage = Stage::Asked(child);
                Ask::Fire(child, self.reaction.tag())
            }
            Stage::Idle | Stage::Listens(_) | Stage::Asked(_) | Stage::Closed => unreachable!(),
        }
    }

    fn hand(&mut self) {}

    fn lent(&self) -> Inputs<'_> {
        self.rows.lent()
    }

    // What a child needs says nothing of when it fires.
    fn told(
        &mut self,
        alloc: Global,
        child: u32,
        outputs: Outputs,
        wake: Option<Tag>,
        _need: Need<'_>,
    ) -> Result<(), AllocError> {
        self.reaction
            .told(alloc, child as usize, outputs, wake, &mut self.staged)?;
        self.stage = stage_after(&self.rows, child);
        Ok(())
    }

    fn is_wrong(&self) -> bool {
        false
    }

    // It accepts whatever a child gives, so this is never told.
    fn refusal(&self) -> RunFault {
        RunFault::Causality
    }

    fn partial(&self, alloc: Global) -> Result<Partial, AllocError> {
        match self.stage {
            Stage::Listens(child) => self.reaction.partial(alloc, child as usize),
            Stage::Idle | Stage::Open | Stage::Asked(_) | Stage::Between(_) | Stage::Closed => {
                Ok(Partial::of(Vec::new(alloc)))
            }
        }
    }

    fn hears(&mut self, alloc: Global, child: u32, early: &Partial) -> Result<(), AllocError> {
        match self.stage {
            Stage::Listens(asked) if asked == child => self.hear(alloc, child, early),
            Stage::Listens(_)
            | Stage::Idle
            | Stage::Open
            | Stage::Asked(_)
            | Stage::Between(_)
            | Stage::Closed => Ok(()),
        }
    }

    #[inline(always)]
    fn finish(&mut self, alloc: Global) -> Result<Outputs, AllocError> {
        let outputs = self.reaction.hand_out(alloc)?;
        self.stage = Stage::Idle;
        Ok(outputs)
    }

    // No channel of it is full.
    fn blocked(&self, alloc: Global) -> Result<Vec<(u32, usize)>, AllocError> {
        Ok(Vec::new(alloc))
    }

    fn next(&self) -> Option<Tag> {
        self.reaction.least()
    }

    fn reset(&mut self, alloc: Global) -> Result<(), AllocError> {
        self.reaction.reset(alloc)?;
        self.stage = Stage::Idle;
        Ok(())
    }

    fn copy(&self, alloc: Global) -> Result<DeCore, AllocError> {
        let reaction = self.reaction.copy(alloc)?;
        let rows = self.rows.copy(alloc)?;
        let need = self.need.copy(alloc)?;
        Ok(DeCore {
            reaction,
            stage: self.stage,
            rows,
            need,
            staged: Vec::new(alloc),
        })
    }
}
