// How often a child fires in a row.

ghost use Rattle.std.specs.Prelude.{◌≡◌, ℕ, ◌<◌, ◌≤◌, All, length, slice_index, slice_index_or};
ghost use Rattle.pt_sched.specs.Channels.{IsSchedEdge, AreSmall};
ghost use Rattle.pt_sched.specs.Lists.{AreAt};
ghost use Rattle.pt_sched.specs.Next.{IsReady, IsReadyFor, LastsFor, HasTokensFor};
ghost use Rattle.pt_sched.specs.declared.lists.Side.TheVariants.{End};

use crate::edge::{SchedEdge, tokens};

/// The most tokens that firings in a row put on a channel, and on all channels.
const MOST_ON_ONE: u64 = 1024;

const MOST_ON_ALL: u64 = 1 << 18;

/// The most tokens that firings in a row put on one of so many channels, but for those of a single firing.
pub(crate) fn most_at_once(channels: usize) -> u64 {
    if channels == 0 {
        MOST_ON_ONE
    } else {
        MOST_ON_ONE.min(MOST_ON_ALL / channels as u64)
    }
}

/// How often a child that is ready fires in a row: as often as it lacks firings, its tokens last, and at most `most` tokens are put on each channel.
/// `ins` are the channels that end at it, and `outs` those that begin there.
pub(crate) fn times(
    channels: &[SchedEdge],
    q: &[u64],
    fired: &[u64],
    ins: &[usize],
    outs: &[usize],
    most: u64,
    child: u32,
) -> u64
    requires channels { All (IsSchedEdge (length q.now)) channels.now }
    requires fired { length fired.now ≡ length q.now }
    requires small { AreSmall fired.now }
    requires ins { AreAt End channels.now child ins.now }
    requires outs { All (λ number. number < length channels.now) outs.now }
    requires ready { IsReady channels.now q.now (slice_index fired.now) child }
    ensures { IsReadyFor channels.now q.now (slice_index fired.now) child result }
{
    let lacking = q[child as usize] - fired[child as usize];
    if lacking == 1 {
        return 1;
    }
    lasting(channels, fired, ins, bounded(channels, outs, most, lacking))
}

/// How many of `times` firings put at most `most` tokens on each of these channels, and at least one.
fn bounded(channels: &[SchedEdge], outs: &[usize], most: u64, times: u64) -> u64
    requires channels { All (λ (channel : SchedEdge). 0 < channel.edge.produced) channels.now }
    requires outs { All (λ number. number < length channels.now) outs.now }
    requires some { 0 < times }
    ensures some { 0 < result }
    ensures fewer { result ≤ times }
{
    let mut bounded = times;
    for number in outs {
        bounded = bounded.min(most / channels[*number].edge.produced);
    }
    bounded.max(1)
}

/// How many of `times` firings the tokens on these channels last for, which are all that end at a child.
fn lasting(channels: &[SchedEdge], fired: &[u64], ins: &[usize], times: u64) -> u64
    requires channels { All (IsSchedEdge (length fired.now)) channels.now }
    requires small { AreSmall fired.now }
    requires inside { All (λ number. number < length channels.now) ins.now }
    requires some { 0 < times }
    requires filled { All (λ number. (other : SchedEdge) → LastsFor (slice_index fired.now) 1 (slice_index_or channels.now number other)) ins.now }
    ensures some { 0 < result }
    ensures fewer { result ≤ times }
    ensures tokens { (child : ℕ) → AreAt End channels.now child ins.now → HasTokensFor channels.now (slice_index fired.now) child result }
{
    let mut lasting = times;
    for number in ins {
        lasting = lasting_on(&channels[*number], fired, lasting);
    }
    lasting
}

/// How many of `times` firings of its receiver the tokens on a channel last for. They last for one.
fn lasting_on(channel: &SchedEdge, fired: &[u64], times: u64) -> u64
    requires channel { IsSchedEdge (length fired.now) channel.now }
    requires small { AreSmall fired.now }
    requires some { 0 < times }
    requires filled { LastsFor (slice_index fired.now) 1 channel.now }
    ensures some { 0 < result }
    ensures fewer { result ≤ times }
    ensures lasts { LastsFor (slice_index fired.now) result channel.now }
{
    if times == 1 {
        return 1;
    }
    let held = tokens(channel, fired);
    // Most channels hold what one firing takes, and are seen to without a division.
    if held < 2 * channel.edge.consumed {
        return 1;
    }
    times.min(held / channel.edge.consumed)
}
