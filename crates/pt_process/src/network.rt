ghost use Rattle.std.specs.Prelude.{◌≡◌, length};
ghost use Rattle.pt_meaning.specs.Streams.{at};

use crate::fans::fans_of;
use crate::plan::CorePlan;
use pt_core::Source;
use pt_firing::Tokens;
use pt_reaction::offsets_of;
use std::alloc::{AllocError, Global};
use std::marker::Model;

/// The network of a core: its plan, with tables of where the places of each process begin and which channels begin at each port.
#[derive(Drop)]
pub struct Network {
    plan: CorePlan,
    offsets: Vec<usize>,
    fans: Vec<Vec<Vec<u32>>>,
}

impl Model for Network {
    ghost use Rattle.pt_value.specs.declared.token.Token.{Token};
    ghost use Rattle.pt_pn_laws.specs.State as state;
    ghost use Rattle.pt_process.specs.Codes.{coded_network};
    ghost use Rattle.pt_process.specs.Network.{seen_network, IsSound};

    ghost Value = { state.Network Token };

    ghost coded = { coded_network };

    ghost view = { seen_network };

    ghost invariant = { IsSound };
}

impl Network {
    ghost use Rattle.std.specs.Prelude.{◌≡◌, ◌^◌, ◌<◌, ◌≤◌, length, IfOk};
    ghost use Rattle.pt_meaning.specs.Net.{Output};
    ghost use Rattle.pt_meaning.specs.Process.{channels_from};
    ghost use Rattle.pt_meaning.specs.Running.{total};
    ghost use Rattle.pt_pn_laws.specs.State.{offset_of};
    ghost use Rattle.pt_process.specs.Plan.{network_of, IsSoundNetwork};
    ghost use Rattle.pt_process.specs.Network.{greatest_in, IsSourceAt};

    pub fn new(alloc: Global, plan: CorePlan) -> Result<Network, AllocError>
        requires { IsSoundNetwork (network_of plan) }
        ensures { IfOk result (λ network. network ≡ network_of plan) }
    {
        let offsets = offsets_of(alloc, plan.places.as_slice())?;
        let fans = fans_of(alloc, &plan.sources, plan.places.len())?;
        Ok(Network {
            plan,
            offsets,
            fans,
        })
    }

    pub fn copy(&self, alloc: Global) -> Result<Network, AllocError>
        ensures { IfOk result (λ network. network ≡ self.now) }
    {
        let plan = self.plan.copy(alloc)?;
        Network::new(alloc, plan)
    }

    pub fn processes(&self) -> usize
        ensures count { result ≡ length self.now.plan.net.places }
        ensures few { result < 2 ^ 32 }
    {
        self.plan.places.len()
    }

    pub fn channels(&self) -> usize
        ensures count { result ≡ length self.now.plan.net.sources }
        ensures few { result < 2 ^ 32 }
    {
        self.plan.sources.len()
    }

    /// Where the places of a process begin.
    pub fn offset(&self, process: usize) -> usize
        requires { process ≤ length self.now.plan.net.places }
        ensures { result ≡ offset_of self.now.plan.net.places process }
    {
        self.offsets[process]
    }

    /// How many channels end at a process.
    pub fn inner(&self) -> usize
        ensures { result ≡ total self.now.plan.net.places }
    {
        self.offsets[self.plan.places.len()]
    }

    /// The greatest capacity of a channel.
    pub fn greatest(&self, channel: usize) -> usize
        ensures { result ≡ greatest_in self.now channel }
    {
        self.plan
            .maximum
            .max(first_count(&self.plan.first, channel))
    }

    /// The channels that begin at a port of a process.
    pub fn fan(&self, process: usize, port: usize) -> &[u32]
        ensures { result.now ≡ channels_from 0 (Output process port) self.now.plan.net.sources }
    {
        match self.fans.get(process) {
            Some(row) => match row.get(port) {
                Some(fan) => fan.as_slice(),
                None => &[],
            },
            None => &[],
        }
    }

    pub fn source(&self, channel: usize) -> Source
        requires { channel < length self.now.plan.net.sources }
        ensures { IsSourceAt self.now channel result }
    {
        self.plan.sources[channel]
    }

    /// The plan, for who reads it.
    pub fn plan(&self) -> &CorePlan
        ensures { network_of result.now ≡ self.now }
    {
        &self.plan
    }
}

/// How many first tokens a channel has.
fn first_count(first: &[Tokens], channel: usize) -> usize
    ensures { result ≡ length (at first.now channel) }
{
    if channel >= first.len() {
        return 0;
    }
    first[channel].len()
}
