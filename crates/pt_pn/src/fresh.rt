ghost use Rattle.std.specs.Prelude.{◌≡◌, ℕ, ◌^◌, ◌<◌, ◌++◌, length, get_or, map, set, IfOk, OnOk, None};
ghost use Rattle.pt_recv.specs.Lines.{list_at};
ghost use Rattle.pt_pn_laws.specs.State.{first_capacities};
ghost use Rattle.pt_pn_laws.specs.Lawful.{HasPlaces};
ghost use Rattle.pt_process.specs.Plan.{IsSoundNetwork};
ghost use Rattle.pt_process.specs.Process.{need_in, at_start};
ghost use Rattle.pt_pn.specs.Fresh.{IsFresh, starting};

use pt_firing::{Counts, Tokens};
use pt_process::{Network, Process, need_copy};
use pt_recv::Channels;
use pt_value::Token;
use std::alloc::{AllocError, Global};

/// The processes and channels of a network at their start.
#[derive(Drop)]
pub(crate) struct Fresh {
    pub(crate) processes: Vec<Process>,
    pub(crate) capacity: Vec<usize>,
    pub(crate) queues: Channels,
    pub(crate) promised: Vec<usize>,
}

impl Fresh {
    pub(crate) fn of(alloc: Global, network: &Network) -> Result<Fresh, AllocError>
        requires { IsSoundNetwork network.now }
        ensures { IfOk result (λ fresh. IsFresh network.now fresh) }
    {
        let plan = network.plan();
        let processes = processes_of(alloc, &plan.starts, plan.places.as_slice())?;
        let capacity = capacities_of(alloc, plan.initial, &plan.first)?;
        let queues = queues_of(alloc, &plan.first)?;
        let promised = vec![in alloc; 0; network.channels()]?;
        Ok(Fresh {
            processes,
            capacity,
            queues,
            promised,
        })
    }
}

/// The processes at their start.
fn processes_of(
    alloc: Global,
    starts: &[Option<Counts>],
    places: &[usize],
) -> Result<Vec<Process>, AllocError>
    requires counted { length starts.now ≡ length places.now }
    requires fits { (i : ℕ) → i < length places.now → HasPlaces (get_or places.now i 0) (need_in (get_or starts.now i None)) }
    ensures { IfOk result (λ processes. processes.items ≡ starting (map need_in starts.now) places.now) }
{
    let mut processes = Vec::with_capacity(alloc, places.len())?;
    for i in 0..places.len() {
        let process = process_of(alloc, &starts[i], places[i])?;
        processes.push(process)?;
    }
    Ok(processes)
}

/// A process at its start.
fn process_of(alloc: Global, start: &Option<Counts>, places: usize) -> Result<Process, AllocError>
    requires { HasPlaces places (need_in start.now) }
    ensures { IfOk result (λ process. process ≡ at_start (need_in start.now) places) }
{
    let need = need_copy(alloc, start)?;
    Process::new(alloc, need, places)
}

/// The first capacity of each channel.
fn capacities_of(alloc: Global, least: usize, first: &[Tokens]) -> Result<Vec<usize>, AllocError>
    ensures { IfOk result (λ capacity. capacity.items ≡ first_capacities least first.now) }
{
    let mut capacity = Vec::with_capacity(alloc, first.len())?;
    for tokens in first {
        capacity.push(least.max(tokens.len()))?;
    }
    Ok(capacity)
}

/// The channels with their first tokens.
fn queues_of(alloc: Global, first: &[Tokens]) -> Result<Channels, AllocError>
    requires few { length first.now < 2 ^ 32 }
    ensures lists { IfOk result (λ queues. queues.lists ≡ first.now) }
    ensures spares { IfOk result (λ queues. length queues.spares ≡ length first.now) }
{
    let mut queues = Channels::new(alloc, first.len() as u32)?;
    for channel in 0..first.len() {
        fill(
            alloc,
            &mut queues,
            channel as u32,
            first[channel].as_slice(),
        )?;
    }
    Ok(queues)
}

/// Puts copies of tokens behind the others of a channel.
fn fill(
    alloc: Global,
    queues: &mut Channels,
    channel: u32,
    tokens: &[Token],
) -> Result<(), AllocError>
    requires there { channel < length queues.old.lists }
    requires counted { length queues.old.spares ≡ length queues.old.lists }
    ensures lists { OnOk result (queues.new.lists ≡ set queues.old.lists channel (list_at queues.old.lists channel ++ tokens.now)) }
    ensures counted { OnOk result (length queues.new.spares ≡ length queues.old.spares) }
{
    for token in tokens {
        let token = token.copy(alloc)?;
        queues.ready(channel, 1)?;
        queues.put(channel, token);
    }
    Ok(())
}
