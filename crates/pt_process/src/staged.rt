ghost use Rattle.std.specs.Prelude.{◌≡◌, ℕ, ◌+◌, ◌<◌, ◌≤◌, [], ◌++◌, length, get_or, OnOk, ◌∷◌};
ghost use Rattle.std.specs.List.{All};
ghost use Rattle.pt_meaning.specs.Streams.{at};
ghost use Rattle.pt_meaning.specs.Kahn.{arrival};
ghost use Rattle.pt_meaning.specs.Process.{puts_of, puts_of_port, to_each};
ghost use Rattle.pt_core.specs.Source.{source_of};
ghost use Rattle.pt_value.specs.declared.token.Token.{Token};
ghost use Rattle.pt_recv.specs.Lines.{spare_at};
ghost use Rattle.pt_puts.specs.Puts.{puts_in};
ghost use Rattle.pt_process.specs.Process.{arrivals, count_on};

use crate::network::Network;
use pt_core::Source;
use pt_firing::{Inputs, Outputs};
use pt_puts::StagedPut;
use pt_recv::Channels;
use pt_value::Token;
use std::alloc::{AllocError, Global};
use std::collections::VecDeque;

/// Stages the puts of a firing of a process: in order of ports, then tokens, then channels.
pub fn stage_outputs(
    alloc: Global,
    staged: &mut VecDeque<StagedPut>,
    network: &Network,
    process: usize,
    outputs: &Outputs,
) -> Result<(), AllocError>
    ensures { OnOk result (puts_in staged.new.items ≡ puts_of network.now.plan.net.sources process 0 outputs.now) }
{
    staged.clear();
    for port in 0..outputs.ports() {
        let fan = network.fan(process, port);
        stage_port(alloc, staged, outputs.list(port), fan)?;
    }
    Ok(())
}

/// Stages what arrives at the own inputs, channel by channel.
pub fn stage_inputs(
    alloc: Global,
    staged: &mut VecDeque<StagedPut>,
    network: &Network,
    inputs: &Inputs<'_>,
) -> Result<(), AllocError>
    ensures { OnOk result (puts_in staged.new.items ≡ arrivals 0 network.now.plan.net.sources inputs.now) }
{
    staged.clear();
    for channel in 0..network.channels() {
        let source = network.source(channel);
        stage_arrival(alloc, staged, source, channel as u32, inputs)?;
    }
    Ok(())
}

/// What arrives for a channel that begins there.
fn stage_arrival(
    alloc: Global,
    staged: &mut VecDeque<StagedPut>,
    source: Source,
    channel: u32,
    inputs: &Inputs<'_>,
) -> Result<(), AllocError>
    ensures { OnOk result (puts_in staged.new.items ≡ puts_in staged.old.items ++ puts_of_port (channel ∷ []) (arrival (source_of source) inputs.now)) }
{
    match source {
        Source::Own(port) => stage_own(alloc, staged, port as usize, channel, inputs),
        Source::Output(_, _) => Ok(()),
    }
}

/// What arrives at an own input.
fn stage_own(
    alloc: Global,
    staged: &mut VecDeque<StagedPut>,
    port: usize,
    channel: u32,
    inputs: &Inputs<'_>,
) -> Result<(), AllocError>
    ensures { OnOk result (puts_in staged.new.items ≡ puts_in staged.old.items ++ puts_of_port (channel ∷ []) (at inputs.now port)) }
{
    let places = inputs.places();
    if port >= places {
        return Ok(());
    }
    let fan = [channel];
    stage_port(alloc, staged, inputs.list(port), &fan)?;
    Ok(())
}

/// The tokens of a port in order, each to all of its channels.
fn stage_port(
    alloc: Global,
    staged: &mut VecDeque<StagedPut>,
    tokens: &[Token],
    fan: &[u32],
) -> Result<(), AllocError>
    ensures { OnOk result (puts_in staged.new.items ≡ puts_in staged.old.items ++ puts_of_port fan.now tokens.now) }
{
    for token in tokens {
        stage_token(alloc, staged, token, fan)?;
    }
    Ok(())
}

/// A copy of a token to each of the channels.
#[inline(always)]
pub(crate) fn stage_token(
    alloc: Global,
    staged: &mut VecDeque<StagedPut>,
    token: &Token,
    fan: &[u32],
) -> Result<(), AllocError>
    ensures { OnOk result (puts_in staged.new.items ≡ puts_in staged.old.items ++ to_each token.now fan.now) }
{
    for channel in fan {
        stage(alloc, staged, token, *channel)?;
    }
    Ok(())
}

/// A copy of a token to a channel.
pub fn stage(
    alloc: Global,
    staged: &mut VecDeque<StagedPut>,
    token: &Token,
    channel: u32,
) -> Result<(), AllocError>
    ensures { OnOk result (puts_in staged.new.items ≡ puts_in staged.old.items ++ to_each token.now (channel ∷ [])) }
{
    let token = token.copy(alloc)?;
    match staged.push_back(StagedPut { channel, token }) {
        Ok(()) => Ok(()),
        Err(_) => Err(AllocError),
    }
}

/// Makes room for what is staged, beside what was promised before.
pub fn promise(
    queues: &mut Channels,
    promised: &mut Vec<usize>,
    staged: &VecDeque<StagedPut>,
) -> Result<(), AllocError>
    requires there { All (λ u. u.channel < length queues.old.lists) (puts_in staged.now.items) }
    requires counted { length promised.old.items ≡ length queues.old.lists }
    requires spares { length queues.old.spares ≡ length queues.old.lists }
    requires room { (d : ℕ) → get_or promised.old.items d 0 ≤ spare_at queues.old.spares d }
    ensures lists { queues.new.lists ≡ queues.old.lists }
    ensures spares { length queues.new.spares ≡ length queues.old.spares }
    ensures counted { length promised.new.items ≡ length promised.old.items }
    ensures room { (d : ℕ) → get_or promised.new.items d 0 ≤ spare_at queues.new.spares d }
    ensures kept { (d : ℕ) → get_or promised.old.items d 0 ≤ get_or promised.new.items d 0 }
    ensures promised { OnOk result ((d : ℕ) → get_or promised.old.items d 0 + count_on d (puts_in staged.now.items) ≤ get_or promised.new.items d 0) }
{
    for k in 0..staged.len() {
        let channel = staged[k].channel;
        promise_one(queues, promised, channel)?;
    }
    Ok(())
}

/// Makes room for one token more on each of these channels, beside what was promised before.
pub fn promise_each(
    queues: &mut Channels,
    promised: &mut Vec<usize>,
    fan: &[u32],
) -> Result<(), AllocError>
    requires there { All (λ channel. channel < length queues.old.lists) fan.now }
    requires counted { length promised.old.items ≡ length queues.old.lists }
    requires spares { length queues.old.spares ≡ length queues.old.lists }
    requires room { (d : ℕ) → get_or promised.old.items d 0 ≤ spare_at queues.old.spares d }
    ensures lists { queues.new.lists ≡ queues.old.lists }
    ensures spares { length queues.new.spares ≡ length queues.old.spares }
    ensures counted { length promised.new.items ≡ length promised.old.items }
    ensures room { (d : ℕ) → get_or promised.new.items d 0 ≤ spare_at queues.new.spares d }
    ensures kept { (d : ℕ) → get_or promised.old.items d 0 ≤ get_or promised.new.items d 0 }
    ensures promised { OnOk result ((x : Token) (d : ℕ) → get_or promised.old.items d 0 + count_on d (to_each x fan.now) ≤ get_or promised.new.items d 0) }
{
    for channel in fan {
        promise_one(queues, promised, *channel)?;
    }
    Ok(())
}

/// Makes room for one token more on a channel.
fn promise_one(
    queues: &mut Channels,
    promised: &mut Vec<usize>,
    channel: u32,
) -> Result<(), AllocError>
    requires there { channel < length queues.old.lists }
    requires counted { length promised.old.items ≡ length queues.old.lists }
    requires spares { length queues.old.spares ≡ length queues.old.lists }
    requires room { (d : ℕ) → get_or promised.old.items d 0 ≤ spare_at queues.old.spares d }
    ensures lists { queues.new.lists ≡ queues.old.lists }
    ensures spares { length queues.new.spares ≡ length queues.old.spares }
    ensures counted { length promised.new.items ≡ length promised.old.items }
    ensures room { (d : ℕ) → get_or promised.new.items d 0 ≤ spare_at queues.new.spares d }
    ensures kept { (d : ℕ) → get_or promised.old.items d 0 ≤ get_or promised.new.items d 0 }
    ensures more { OnOk result (get_or promised.old.items channel 0 + 1 ≤ get_or promised.new.items channel 0) }
{
    let before = promised[channel as usize];
    let Some(wanted) = before.checked_add(1) else {
        return Err(AllocError);
    };
    queues.ready(channel, wanted)?;
    promised[channel as usize] = wanted;
    Ok(())
}
