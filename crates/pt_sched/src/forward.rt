// Graphs in which one firing of each child, in the order of their numbers, is a schedule.
ghost use Rattle.std.specs.Prelude.{◌≡◌, ◌+◌, ℕ, All, IfOk, IsTrue, length, map};
ghost use Rattle.pt_sched.specs.Channels.{IsSchedEdge};
ghost use Rattle.pt_sched.specs.Forward.{leads_on, IsForward, upto};
ghost use Rattle.pt_sched.specs.Runs.{IsSchedule, AreGreatestLengths};
ghost use Rattle.pt_sched.specs.Stretches.{spread};
ghost use Rattle.pt_sched.specs.declared.edge.SchedEdge.{SchedEdge};

use crate::edge::SchedEdge;
use crate::plan::Plan;
use crate::stretch::Stretch;
use std::alloc::{AllocError, Global};

/// Whether a channel leads to a later child, which takes as many tokens as it is given.
fn leads_on(channel: &SchedEdge) -> bool
    ensures { result ≡ leads_on channel.now }
{
    channel.edge.from < channel.edge.to && channel.edge.produced == channel.edge.consumed
}

/// Whether each child fires once, and each channel leads to a later child, which takes as many tokens as it is given.
pub(crate) fn is_forward(edges: &[SchedEdge], q: &[u64]) -> bool
    ensures { IsTrue result → IsForward edges.now q.now }
{
    q.iter().all(|times| *times == 1) && edges.iter().all(|edge| leads_on(edge))
}

/// One firing of each of `n` children, in order.
fn one_each(alloc: Global, n: u32) -> Result<Vec<Stretch>, AllocError>
    ensures { IfOk result (λ order. spread order.items ≡ upto n) }
{
    let mut order = Vec::with_capacity(alloc, n as usize)?;
    for child in 0..n {
        order.push(Stretch { child, again: 0 })?;
    }
    Ok(order)
}

/// The tokens that each channel holds at first, and those of one firing more.
fn lengths_of(alloc: Global, n: u32, edges: &[SchedEdge]) -> Result<Vec<u64>, AllocError>
    requires { All (IsSchedEdge n) edges.now }
    ensures { IfOk result (λ lengths. lengths.items ≡ map (λ (channel : SchedEdge). channel.initial + channel.edge.produced) edges.now) }
{
    let mut lengths = Vec::with_capacity(alloc, edges.len())?;
    for channel in edges {
        lengths.push(channel.initial + channel.edge.produced)?;
    }
    Ok(lengths)
}

/// The schedule in which each of `n` children fires once, in order.
pub(crate) fn in_turn(
    alloc: Global,
    n: u32,
    edges: &[SchedEdge],
    q: &[u64],
) -> Result<Plan, AllocError>
    requires channels { All (IsSchedEdge n) edges.now }
    requires counted { length q.now ≡ n }
    requires forward { IsForward edges.now q.now }
    ensures order { IfOk result (λ plan. IsSchedule edges.now q.now (spread plan.order.items)) }
    ensures lengths { IfOk result (λ plan. AreGreatestLengths edges.now (spread plan.order.items) plan.lengths.items) }
{
    Ok(Plan {
        order: one_each(alloc, n)?,
        lengths: lengths_of(alloc, n, edges)?,
    })
}
