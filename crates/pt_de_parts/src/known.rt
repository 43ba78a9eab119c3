ghost use Rattle.std.specs.Prelude.{◌≡◌, ◌-◌, ◌≤◌, [], length, take, drop, vec_capacity, IfOk, OnErr};
ghost use Rattle.pt_de_laws.specs.State.{beside_delays, unless_delay};
ghost use Rattle.pt_firing.specs.TriState.{partial_of};
ghost use Rattle.pt_meaning.specs.Streams.{at};

use crate::net::Net;
use pt_firing::{Outputs, Partial, Tokens, TriState};
use pt_reaction::{Channels, copy_of};
use pt_value::Token;
use std::alloc::{AllocError, Global};

/// What is known of the channels from one on to another: nothing of those that end at delays.
pub fn partial_at(
    alloc: Global,
    net: &Net,
    channels: &Channels,
    first: usize,
    end: usize,
) -> Result<Partial, AllocError>
    requires within { first ≤ end }
    requires there { end ≤ length net.now.plan.net.sources }
    requires delayed { length net.now.roles.delayed ≡ length net.now.plan.net.sources }
    requires channels { length channels.now.lists ≡ length net.now.plan.net.sources }
    ensures { IfOk result (λ partial. partial ≡ beside_delays (take (end - first) (drop first net.now.roles.delayed)) (take (end - first) (drop first channels.now.lists))) }
{
    let mut states = Vec::new(alloc);
    for channel in first..end {
        let delayed = net.is_delayed(channel);
        let state = state_of(alloc, delayed, channels.list(channel))?;
        states.push(state)?;
    }
    Ok(Partial::of(states))
}

/// What is known of a channel that has these tokens.
fn state_of(alloc: Global, delayed: bool, tokens: &[Token]) -> Result<TriState, AllocError>
    ensures { IfOk result (λ state. partial_of state ≡ unless_delay delayed tokens.now) }
{
    if delayed {
        return Ok(TriState::Unknown);
    }
    let tokens = copy_of(alloc, tokens)?;
    Ok(TriState::known(tokens))
}

/// Takes the tokens of the channels from one on. After an `Err` none were taken.
#[inline(always)]
pub fn own_outputs(
    alloc: Global,
    channels: &mut Channels,
    first: usize,
    end: usize,
) -> Result<Outputs, AllocError>
    requires there { end ≡ length channels.old.lists }
    ensures given { IfOk result (λ outputs. outputs ≡ drop first channels.old.lists) }
    ensures long { length channels.new.lists ≡ length channels.old.lists }
    ensures kept { OnErr result (channels.new.lists ≡ channels.old.lists) }
{
    let mut lists = Vec::with_capacity(alloc, end.saturating_sub(first))?;
    take_all(&mut lists, channels, first, end);
    Ok(Outputs::of(lists))
}

/// Puts the tokens of the channels from one on into a list that has room for them.
fn take_all(lists: &mut Vec<Tokens>, channels: &mut Channels, first: usize, end: usize)
    requires there { end ≡ length channels.old.lists }
    requires empty { lists.old.items ≡ [] }
    requires room { end - first ≤ vec_capacity lists.old }
    ensures given { lists.new.items ≡ drop first channels.old.lists }
    ensures long { length channels.new.lists ≡ length channels.old.lists }
{
    for channel in first..end {
        let mut line = channels.take(channel);
        lists.push_reserved(line.take());
    }
}
