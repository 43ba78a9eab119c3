use crate::fresh::Fresh;
use crate::notes::Notes;
use crate::outlets::hand_out;
use crate::processes::{copies, fits, tell_at};
use crate::puts::put_all;
use crate::waiting::{lengths_of, waited_on};
use pt_firing::{Ask, Counts, Inputs, Need, Outputs};
use pt_process::{CorePlan, Network, Process, promise, stage_inputs, stage_outputs};
use pt_puts::StagedPut;
use pt_recv::Channels;
use pt_time::Tag;
use std::alloc::{AllocError, Global};
use std::collections::VecDeque;
use std::marker::Model;

/// The tag of a core that hasn't begun.
const ORIGIN: Tag = Tag { time: 0, step: 0 };

/// Where a firing of the composite stands.
#[derive(Clone, Copy, Debug)]
pub(crate) enum Stage {
    Idle,
    Open,
    /// This process was asked to fire, and has handed over what it gathered.
    Asked(u32),
    Closed,
    Blocked,
}

/// The core of a PN composite. It makes the gets, puts and growths itself, and never calls a process: it asks for firings, and is told what they gave.
///
/// A firing of the composite is `begin`, then `ask` and, where it asks for a firing, `told`, and at `Finished` the call `finish`.
pub struct Core {
    pub(crate) network: Network,
    pub(crate) processes: Vec<Process>,
    /// How many tokens each channel may hold.
    pub(crate) capacity: Vec<usize>,
    pub(crate) queues: Channels,
    /// At most so many puts wait on each channel, which has room for them.
    pub(crate) promised: Vec<usize>,
    // A buffer.
    pub(crate) staged: VecDeque<StagedPut>,
    pub(crate) notes: Notes,
    pub(crate) tag: Tag,
    pub(crate) stage: Stage,
}

// Written by hand, so that letting go of a core is one call in the proofs above.
impl Drop for Core {
    fn drop(self) {
        let Core {
            network: _,
            processes: _,
            capacity: _,
            queues: _,
            promised: _,
            staged: _,
            notes: _,
            tag: _,
            stage: _,
        } = self;
    }
}

impl Model for Core {
    ghost use Rattle.pt_pn_work.specs.Core.{State};
    ghost use Rattle.pt_pn.specs.StateCode.{coded_state};
    ghost use Rattle.pt_pn.specs.Core.{seen_core, IsSound};

    ghost Value = { State };

    ghost coded = { coded_state };

    ghost view = { seen_core };

    ghost invariant = { IsSound };
}

impl Core {
    ghost use Rattle.std.specs.Prelude.{◌≡◌, ◌<◌, length, get_or, IfOk, IsSome, OnOk, OnErr, Some};
    ghost use Rattle.pt_firing.specs.Need.{need_of};
    ghost use Rattle.pt_pn_laws.specs.State.{Idle, Open, Closed, asked_process, lent_if, started, restarted, begun, after_told, own_of, closed, blocked_of};
    ghost use Rattle.pt_pn_laws.specs.PnActs.{MayAsk};
    ghost use Rattle.pt_process.specs.Plan.{network_of, IsSoundNetwork};
    ghost use Rattle.pt_pn.specs.Core.{Comes};
    ghost use Rattle.pt_pn.specs.Fresh.{IsFresh};
    ghost use Rattle.pt_pn.specs.Noted.{AreNone};

    /// A core of this plan, at its start.
    pub fn new(alloc: Global, plan: CorePlan) -> Result<Core, AllocError>
        requires { IsSoundNetwork (network_of plan) }
        ensures { IfOk result (λ core. core ≡ started (network_of plan)) }
    {
        let network = Network::new(alloc, plan)?;
        match Fresh::of(alloc, &network) {
            Ok(fresh) => Core::with(alloc, network, fresh),
            Err(fault) => {
                drop(network);
                Err(fault)
            }
        }
    }

    /// A core of this network, with its processes and channels at their start.
    fn with(alloc: Global, network: Network, fresh: Fresh) -> Result<Core, AllocError>
        requires sound { IsSoundNetwork network }
        requires fresh { IsFresh network fresh }
        ensures { IfOk result (λ core. core ≡ started network) }
    {
        match Notes::new(alloc, &network) {
            Ok(notes) => {
                let Fresh {
                    processes,
                    capacity,
                    queues,
                    promised,
                } = fresh;
                Ok(Core {
                    network,
                    processes,
                    capacity,
                    queues,
                    promised,
                    staged: VecDeque::new(alloc),
                    notes,
                    tag: ORIGIN,
                    stage: Stage::Idle,
                })
            }
            Err(fault) => {
                drop(network);
                drop(fresh);
                Err(fault)
            }
        }
    }

    /// How many tokens a firing takes from each own input.
    pub fn takes(&self) -> &Counts
        ensures { result.now ≡ self.now.network.plan.takes }
    {
        &self.network.plan().takes
    }

    /// Begins a firing of the composite, on a list for each own input. After an `Err` the core is as before.
    pub fn begin(&mut self, alloc: Global, tag: Tag, inputs: &Inputs<'_>) -> Result<(), AllocError>
        requires idle { self.old.stage ≡ Idle }
        ensures begun { OnOk result (self.new ≡ begun tag inputs.now self.old) }
        ensures kept { OnErr result (self.new ≡ self.old) }
    {
        stage_inputs(alloc, &mut self.staged, &self.network, inputs)?;
        promise(&mut self.queues, &mut self.promised, &self.staged)?;
        put_all(
            &mut self.queues,
            &mut self.promised,
            &mut self.staged,
            &mut self.notes,
        );
        self.tag = tag;
        self.stage = Stage::Open;
        Ok(())
    }

    /// What comes next. A get, a put or a growth is made as it is told. It takes no memory.
    pub fn ask(&mut self) -> Ask
        requires { MayAsk self.old.stage }
        ensures { Comes self.old result self.new }
    {
        match self.stage {
            Stage::Open => self.next(),
            Stage::Idle | Stage::Asked(_) | Stage::Closed | Stage::Blocked => unreachable!(),
        }
    }

    /// The inputs of the process that was asked to fire. It takes no memory.
    pub fn lent(&self) -> Inputs<'_>
        requires { IsSome (asked_process self.now.stage) }
        ensures { result ≡ lent_if self.now (asked_process self.now.stage) }
    {
        match self.stage {
            Stage::Asked(process) => self.processes[process as usize].lent(),
            Stage::Idle | Stage::Open | Stage::Closed | Stage::Blocked => unreachable!(),
        }
    }

    /// Takes what the firing of the process gave, and the need that it has then: a count for each of its places, or none. After an `Err` the core is as before.
    pub fn told(
        &mut self,
        alloc: Global,
        process: u32,
        outputs: Outputs,
        need: Need<'_>,
    ) -> Result<(), AllocError>
        requires asked { asked_process self.old.stage ≡ Some process }
        ensures told { OnOk result (self.new ≡ after_told process outputs (need_of need.entry) self.old) }
        ensures kept { OnErr result (self.new ≡ self.old) }
    {
        let number = process as usize;
        // No process of a network has another need.
        if !fits(need, self.places_of(number)) {
            return Err(AllocError);
        }
        stage_outputs(alloc, &mut self.staged, &self.network, number, &outputs)?;
        promise(&mut self.queues, &mut self.promised, &self.staged)?;
        tell_at(alloc, &mut self.processes, number, need, &mut self.staged)?;
        self.notes.note(process);
        self.stage = Stage::Open;
        Ok(())
    }

    /// How many places a process has.
    pub(crate) fn places_of(&self, process: usize) -> usize
        requires { process < length self.now.network.plan.net.places }
        ensures { result ≡ get_or self.now.network.plan.net.places process 0 }
    {
        self.network.plan().places.as_slice()[process]
    }

    /// Hands out the own outputs. After an `Err` the core is as before.
    pub fn finish(&mut self, alloc: Global) -> Result<Outputs, AllocError>
        requires { self.old.stage ≡ Closed }
        ensures core { OnOk result (self.new ≡ closed self.old) }
        ensures given { IfOk result (λ outputs. outputs ≡ own_of self.old) }
        ensures kept { OnErr result (self.new ≡ self.old) }
    {
        let from = self.network.inner();
        let channels = self.network.channels();
        let outputs = hand_out(alloc, &mut self.queues, from, channels)?;
        self.stage = Stage::Idle;
        Ok(outputs)
    }

    /// The channels on which a process waits to put, by number, each with its length.
    pub fn blocked(&self, alloc: Global) -> Result<Vec<(u32, usize)>, AllocError>
        ensures { IfOk result (λ full. full.items ≡ blocked_of self.now) }
    {
        let marks = waited_on(alloc, &self.processes, self.network.channels())?;
        lengths_of(alloc, &self.queues, &marks)
    }

    /// Brings back the core's start. After an `Err` it is as before.
    pub fn reset(&mut self, alloc: Global) -> Result<(), AllocError>
        ensures reset { OnOk result (self.new ≡ restarted self.old) }
        ensures kept { OnErr result (self.new ≡ self.old) }
    {
        let notes = Notes::new(alloc, &self.network)?;
        let fresh = Fresh::of(alloc, &self.network)?;
        self.restart(fresh, notes);
        Ok(())
    }

    /// The processes and channels are those at the start.
    fn restart(&mut self, fresh: Fresh, notes: Notes)
        requires fresh { IsFresh self.old.network fresh }
        requires none { AreNone (length self.old.network.plan.net.places) notes }
        ensures { self.new ≡ restarted self.old }
    {
        let Fresh {
            processes,
            capacity,
            queues,
            promised,
        } = fresh;
        self.processes = processes;
        self.capacity = capacity;
        self.queues = queues;
        self.promised = promised;
        self.notes = notes;
        self.tag = ORIGIN;
        self.stage = Stage::Idle;
    }

    /// Another core in the same state.
    pub fn copy(&self, alloc: Global) -> Result<Core, AllocError>
        ensures { IfOk result (λ core. core ≡ self.now) }
    {
        let notes = self.notes.copy(alloc)?;
        let capacity = Vec::from_slice(alloc, &self.capacity)?;
        let promised = Vec::from_slice(alloc, &self.promised)?;
        let queues = self.queues.copy(alloc)?;
        let processes = copies(alloc, &self.processes)?;
        let network = self.network.copy(alloc)?;
        Ok(Core {
            network,
            processes,
            capacity,
            queues,
            promised,
            staged: VecDeque::new(alloc),
            notes,
            tag: self.tag,
            stage: self.stage,
        })
    }
}
