ghost use Rattle.std.specs.Prelude.{◌≡◌, ◌+◌, ◌≤◌, All, IfOk, length};
ghost use Rattle.pt_rates.specs.Balance.{tokens_on};
ghost use Rattle.pt_sched.specs.Channels.{IsSchedEdge};
ghost use Rattle.pt_plan.specs.Channels.{is_between};
ghost use Rattle.pt_plan.specs.Rooms.{rooms_of};

use pt_sched::SchedEdge;
use std::alloc::{AllocError, Global};

/// Whether a channel is between two of `n` children.
pub(crate) fn is_between(n: usize, channel: &SchedEdge) -> bool
    ensures { result ≡ is_between n channel.now }
{
    (channel.edge.from as usize) < n && (channel.edge.to as usize) < n
}

/// The room of each channel. The lengths are those of the channels between children, one after another.
pub(crate) fn rooms_of(
    alloc: Global,
    n: usize,
    channels: &[SchedEdge],
    q: &[u64],
    lengths: &[u64],
) -> Result<Vec<usize>, AllocError>
    requires channels { All (IsSchedEdge (length q.now)) channels.now }
    requires tokens { All (λ channel. tokens_on q.now channel.edge ≤ 1000000) channels.now }
    ensures { IfOk result (λ rooms. rooms.items ≡ rooms_of n q.now channels.now lengths.now) }
{
    let mut rooms = Vec::with_capacity(alloc, channels.len())?;
    let mut next = 0usize;
    for channel in channels {
        if is_between(n, channel) {
            rooms.push(lengths.get(next).copied().unwrap_or(0) as usize)?;
            next += 1;
        } else {
            rooms.push(tokens_in(channel, q))?;
        }
    }
    Ok(rooms)
}

/// The first tokens of a channel, and those that an iteration puts there.
fn tokens_in(channel: &SchedEdge, q: &[u64]) -> usize
    requires channel { IsSchedEdge (length q.now) channel.now }
    requires tokens { tokens_on q.now channel.now.edge ≤ 1000000 }
    ensures { result ≡ channel.now.initial + tokens_on q.now channel.now.edge }
{
    (channel.initial + q[channel.edge.from as usize] * channel.edge.produced) as usize
}
