ghost use Rattle.std.specs.Prelude.{◌≡◌, true};
ghost use Rattle.pt_firing.specs.Need.{need_of};
ghost use Rattle.pt_rv_laws.specs.Lawful.{HasPlaces};

use crate::ends::{arrive_all, hand_out};
use crate::fresh::fresh_parties;
use crate::parties::Parties;
use crate::staging::{stage_arrivals, tell};
use crate::worklist::Worklist;
use pt_firing::{Ask, Counts, Inputs, Meeting, Need, Outputs};
use pt_puts::StagedPut;
use pt_rv_plan::{CorePlan, Meetings, Plan, stage_outputs};
use pt_time::Tag;
use std::alloc::{AllocError, Global};
use std::collections::VecDeque;
use std::marker::Model;

/// The tag of a core that hasn't begun.
const ORIGIN: Tag = Tag { time: 0, step: 0 };

/// Where a firing of the composite stands.
#[derive(Clone, Copy, Debug)]
pub(crate) enum Stage {
    Idle,
    Open,
    /// This process was asked to fire, and has handed over what it gathered.
    Asked(u32),
    Closed,
}

/// The core of a Rendezvous composite. It makes the meetings itself, and never calls a process: it asks for firings, and is told what they gave.
///
/// A firing of the composite is `begin`, then `ask` and, where it asks for a firing, `told`, and at `Finished` the call `finish`.
pub struct Core {
    pub(crate) plan: Plan,
    pub(crate) parties: Parties,
    pub(crate) met: Meetings,
    // A buffer.
    pub(crate) staged: VecDeque<StagedPut>,
    pub(crate) worklist: Worklist,
    pub(crate) tag: Tag,
    pub(crate) stage: Stage,
}

// Written by hand, so that letting go of a core is one call in the proofs above.
impl Drop for Core {
    fn drop(self) {
        let Core {
            plan: _,
            parties: _,
            met: _,
            staged: _,
            worklist: _,
            tag: _,
            stage: _,
        } = self;
    }
}

impl Model for Core {
    ghost use Rattle.pt_value.specs.declared.token.Token.{Token};
    ghost use Rattle.pt_rv_laws.specs.State.{RvState};
    ghost use Rattle.pt_rv.specs.StateCode.{coded_state};
    ghost use Rattle.pt_rv.specs.Core.{seen_core, IsSound};

    ghost Value = { RvState Token };

    ghost coded = { coded_state };

    ghost view = { seen_core };

    ghost invariant = { IsSound };
}

impl Core {
    ghost use Rattle.std.specs.Prelude.{◌≡◌, ◌<◌, length, get_or, map, IfOk, IsSome, OnOk, OnErr, Some};
    ghost use Rattle.pt_firing.specs.Meeting.{meeting_of};
    ghost use Rattle.pt_firing.specs.Need.{need_of};
    ghost use Rattle.pt_rv_laws.specs.State.{Idle, Closed, asked_process, lent_if, started, restarted, begun, after_told, closed};
    ghost use Rattle.pt_rv_laws.specs.RvActs.{MayAsk};
    ghost use Rattle.pt_rv_plan.specs.Plan.{processes_of, AreSound};
    ghost use Rattle.pt_rv.specs.Core.{Comes};
    ghost use Rattle.pt_rv.specs.Fresh.{IsFresh};

    /// A core of this plan, at its start.
    pub fn new(alloc: Global, plan: CorePlan) -> Result<Core, AllocError>
        requires { AreSound (processes_of plan) }
        ensures { IfOk result (λ core. core ≡ started (processes_of plan)) }
    {
        let plan = Plan::new(alloc, plan)?;
        match fresh_parties(alloc, &plan) {
            Ok(parties) => Core::with(alloc, plan, parties),
            Err(fault) => {
                drop(plan);
                Err(fault)
            }
        }
    }

    /// A core of this plan, with its parties at their start.
    fn with(alloc: Global, plan: Plan, parties: Parties) -> Result<Core, AllocError>
        requires sound { AreSound plan }
        requires fresh { IsFresh plan parties }
        ensures { IfOk result (λ core. core ≡ started plan) }
    {
        let met = Meetings::new(alloc);
        match Worklist::new(alloc, &plan) {
            Ok(worklist) => Ok(Core {
                plan,
                parties,
                met,
                staged: VecDeque::new(alloc),
                worklist,
                tag: ORIGIN,
                stage: Stage::Idle,
            }),
            Err(fault) => {
                drop(plan);
                drop(parties);
                Err(fault)
            }
        }
    }

    /// How many tokens a firing takes from each own input.
    pub fn takes(&self) -> &Counts
        ensures { result.now ≡ self.now.processes.plan.takes }
    {
        &self.plan.plan().takes
    }

    /// Begins a firing of the composite, on a list for each own input. After an `Err` the core is as before.
    pub fn begin(&mut self, alloc: Global, tag: Tag, inputs: &Inputs<'_>) -> Result<(), AllocError>
        requires idle { self.old.stage ≡ Idle }
        ensures begun { OnOk result (self.new ≡ begun tag inputs.now self.old) }
        ensures kept { OnErr result (self.new ≡ self.old) }
    {
        stage_arrivals(alloc, &mut self.parties, &mut self.met, &self.plan, inputs)?;
        arrive_all(&mut self.parties.inlets);
        self.met.clear();
        self.worklist.restart();
        self.tag = tag;
        self.stage = Stage::Open;
        Ok(())
    }

    /// What comes next. A meeting is made as it is told. It takes no memory.
    #[inline(always)]
    pub fn ask(&mut self) -> Ask
        requires { MayAsk self.old.stage }
        ensures { Comes self.old result self.new }
    {
        match self.stage {
            Stage::Open => self.next(),
            Stage::Idle | Stage::Asked(_) | Stage::Closed => unreachable!(),
        }
    }

    /// The inputs of the process that was asked to fire. It takes no memory.
    pub fn lent(&self) -> Inputs<'_>
        requires { IsSome (asked_process self.now.stage) }
        ensures { result ≡ lent_if self.now (asked_process self.now.stage) }
    {
        match self.stage {
            Stage::Asked(process) => self.parties.team.lent(process as usize),
            Stage::Idle | Stage::Open | Stage::Closed => unreachable!(),
        }
    }

    /// Takes what the firing of the process gave, and the need that it has then: a count for each of its places, one token from any, or none. After an `Err` the core is as before.
    pub fn told(
        &mut self,
        alloc: Global,
        process: u32,
        outputs: Outputs,
        need: Need<'_>,
    ) -> Result<(), AllocError>
        requires asked { asked_process self.old.stage ≡ Some process }
        ensures told { OnOk result (self.new ≡ after_told process outputs (need_of need.entry) self.old) }
        ensures kept { OnErr result (self.new ≡ self.old) }
    {
        let number = process as usize;
        // No process has counts for other places than its own.
        if !fits(need, self.places_of(number)) {
            return Err(AllocError);
        }
        stage_outputs(alloc, &mut self.staged, &self.plan, number, &outputs)?;
        let inner = self.plan.inner();
        tell(
            alloc,
            &mut self.parties,
            &mut self.met,
            &mut self.staged,
            inner,
            number,
            need,
        )?;
        self.worklist.note(process);
        self.stage = Stage::Open;
        Ok(())
    }

    /// How many places a process has.
    #[inline(always)]
    pub(crate) fn places_of(&self, process: usize) -> usize
        requires { process < length self.now.processes.plan.net.places }
        ensures { result ≡ get_or self.now.processes.plan.net.places process 0 }
    {
        self.plan.places(process)
    }

    /// The meetings made in this firing, in their order.
    pub fn met(&self) -> &[Meeting]
        ensures { map meeting_of result.now ≡ self.now.met }
    {
        self.met.as_slice()
    }

    /// Hands out the own outputs. After an `Err` the core is as before.
    pub fn finish(&mut self, alloc: Global) -> Result<Outputs, AllocError>
        requires { self.old.stage ≡ Closed }
        ensures core { OnOk result (self.new ≡ closed self.old) }
        ensures given { IfOk result (λ outputs. outputs ≡ self.old.outputs) }
        ensures kept { OnErr result (self.new ≡ self.old) }
    {
        let outputs = hand_out(alloc, &mut self.parties.outlets)?;
        self.met.clear();
        self.stage = Stage::Idle;
        Ok(outputs)
    }

    /// Brings back the core's start. After an `Err` it is as before.
    pub fn reset(&mut self, alloc: Global) -> Result<(), AllocError>
        ensures reset { OnOk result (self.new ≡ restarted self.old) }
        ensures kept { OnErr result (self.new ≡ self.old) }
    {
        let parties = fresh_parties(alloc, &self.plan)?;
        self.restart(parties);
        Ok(())
    }

    /// The parties are those at the start.
    fn restart(&mut self, parties: Parties)
        requires { IsFresh self.old.processes parties }
        ensures { self.new ≡ restarted self.old }
    {
        self.parties = parties;
        self.met.clear();
        self.tag = ORIGIN;
        self.stage = Stage::Idle;
    }

    /// Another core in the same state.
    pub fn copy(&self, alloc: Global) -> Result<Core, AllocError>
        ensures { IfOk result (λ core. core ≡ self.now) }
    {
        let plan = self.plan.copy(alloc)?;
        let parties = self.parties.copy(alloc)?;
        let met = self.met.copy(alloc)?;
        let worklist = self.worklist.copy(alloc)?;
        Ok(Core {
            plan,
            parties,
            met,
            staged: VecDeque::new(alloc),
            worklist,
            tag: self.tag,
            stage: self.stage,
        })
    }
}

/// Whether a need is a count for each of so many places, one token from any, or none.
#[inline(always)]
pub(crate) fn fits(need: Need<'_>, places: usize) -> bool
    ensures { result ≡ true → HasPlaces places (need_of need.entry) }
{
    match need {
        Need::Over => true,
        Need::All(counts) => counts.len() == places,
        Need::Any => true,
    }
}
