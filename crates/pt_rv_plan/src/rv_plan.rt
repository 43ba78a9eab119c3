ghost use Rattle.std.specs.Prelude.{◌≡◌, ◌+◌, ◌<◌, length, get_or};
ghost use Rattle.pt_puts.specs.Fans.{fan_at, fans_in};

use crate::fans::fans_of;
use crate::plan::CorePlan;
use crate::targets::{Target, targets_of};
use pt_core::Source;
use pt_reaction::offsets_of;
use std::alloc::{AllocError, Global};
use std::marker::Model;

/// The plan of a core, with tables of where the places of each process begin, which channels begin at each source, and where each channel ends.
#[derive(Drop)]
pub struct Plan {
    plan: CorePlan,
    offsets: Vec<usize>,
    fans: Vec<Vec<Vec<u32>>>,
    targets: Vec<Target>,
}

impl Model for Plan {
    ghost use Rattle.pt_rv_laws.specs.State.{Processes};
    ghost use Rattle.pt_rv_plan.specs.Codes.{coded_processes};
    ghost use Rattle.pt_rv_plan.specs.Plan.{seen_plan, IsSound};

    ghost Value = { Processes };

    ghost coded = { coded_processes };

    ghost view = { seen_plan };

    ghost invariant = { IsSound };
}

impl Plan {
    ghost use Rattle.std.specs.Prelude.{◌≡◌, ◌+◌, ◌^◌, ◌<◌, length, get_or, IfOk};
    ghost use Rattle.pt_meaning.specs.Meetings.{target_from};
    ghost use Rattle.pt_meaning.specs.Net.{Own, Output};
    ghost use Rattle.pt_meaning.specs.Process.{channels_from};
    ghost use Rattle.pt_meaning.specs.Running.{total};
    ghost use Rattle.pt_pn_laws.specs.State.{offset_of};
    ghost use Rattle.pt_rv_plan.specs.Plan.{processes_of, AreSound, IsSourceAt, target_of};

    /// A plan with its tables.
    pub fn new(alloc: Global, plan: CorePlan) -> Result<Plan, AllocError>
        requires { AreSound (processes_of plan) }
        ensures { IfOk result (λ tabled. tabled ≡ processes_of plan) }
    {
        let offsets = offsets_of(alloc, plan.places.as_slice())?;
        let fans = fans_of(alloc, &plan.sources, plan.places.len())?;
        let targets = targets_of(alloc, plan.places.as_slice(), plan.sources.len())?;
        Ok(Plan {
            plan,
            offsets,
            fans,
            targets,
        })
    }

    /// The same plan again.
    pub fn copy(&self, alloc: Global) -> Result<Plan, AllocError>
        ensures { IfOk result (λ plan. plan ≡ self.now) }
    {
        let plan = self.plan.copy(alloc)?;
        Plan::new(alloc, plan)
    }

    /// How many processes there are.
    #[inline(always)]
    pub fn processes(&self) -> usize
        ensures count { result ≡ length self.now.plan.net.places }
        ensures few { result < 2 ^ 32 }
    {
        self.plan.places.len()
    }

    /// How many channels there are.
    #[inline(always)]
    pub fn channels(&self) -> usize
        ensures count { result ≡ length self.now.plan.net.sources }
        ensures few { result < 2 ^ 32 }
    {
        self.plan.sources.len()
    }

    /// How many own inputs there are.
    pub fn inlets(&self) -> usize
        ensures { result ≡ length self.now.plan.takes }
    {
        self.plan.takes.len()
    }

    /// How many places a process has.
    #[inline(always)]
    pub fn places(&self, process: usize) -> usize
        requires { process < length self.now.plan.net.places }
        ensures { result ≡ get_or self.now.plan.net.places process 0 }
    {
        self.plan.places.as_slice()[process]
    }

    /// The channel that ends at a place of a process.
    #[inline(always)]
    pub fn channel_at(&self, process: usize, place: usize) -> usize
        requires there { process < length self.now.plan.net.places }
        requires within { place < get_or self.now.plan.net.places process 0 }
        ensures { result ≡ offset_of self.now.plan.net.places process + place }
    {
        channel_in(&self.offsets, process, place)
    }

    /// How many channels end at processes.
    #[inline(always)]
    pub fn inner(&self) -> usize
        ensures { result ≡ total self.now.plan.net.places }
    {
        self.offsets[self.plan.places.len()]
    }

    /// Where a channel begins.
    #[inline(always)]
    pub fn source(&self, channel: usize) -> Source
        requires { channel < length self.now.plan.net.sources }
        ensures { IsSourceAt self.now channel result }
    {
        self.plan.sources[channel]
    }

    /// Where a channel ends.
    #[inline(always)]
    pub fn target(&self, channel: usize) -> Target
        requires { channel < length self.now.plan.net.sources }
        ensures { target_of result ≡ target_from 0 self.now.plan.net.places channel }
    {
        self.targets[channel]
    }

    /// The channels that begin at a port of a process.
    #[inline(always)]
    pub fn fan(&self, process: usize, port: usize) -> &[u32]
        requires { process < length self.now.plan.net.places }
        ensures { result.now ≡ channels_from 0 (Output process port) self.now.plan.net.sources }
    {
        read_fan(&self.fans, process, port)
    }

    /// The channels that begin at an own input.
    pub fn own_fan(&self, port: usize) -> &[u32]
        ensures { result.now ≡ channels_from 0 (Own port) self.now.plan.net.sources }
    {
        read_fan(&self.fans, self.plan.places.len(), port)
    }

    /// The plan, for who reads it.
    pub fn plan(&self) -> &CorePlan
        ensures { processes_of result.now ≡ self.now }
    {
        &self.plan
    }
}

/// The channel that ends at a place, by where the places of each process begin.
#[inline(always)]
fn channel_in(offsets: &[usize], process: usize, place: usize) -> usize
    requires there { process + 1 < length offsets.now }
    requires within { get_or offsets.now process 0 + place < get_or offsets.now (process + 1) 0 }
    ensures { result ≡ get_or offsets.now process 0 + place }
{
    offsets[process] + place
}

/// What a table has in a row at a number, or nothing.
#[inline(always)]
fn read_fan(fans: &[Vec<Vec<u32>>], row: usize, port: usize) -> &[u32]
    ensures { result.now ≡ fan_at (fans_in fans.now) row port }
{
    match fans.get(row) {
        Some(row) => match row.get(port) {
            Some(fan) => fan.as_slice(),
            None => &[],
        },
        None => &[],
    }
}
