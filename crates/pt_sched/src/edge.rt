ghost use Rattle.std.specs.Prelude.{◌≡◌, ℕ, ◌+◌, ◌-◌, ◌*◌, ◌<◌, ◌≤◌, ◌↔◌, All, IsTrue, length, slice_index};
ghost use Rattle.pt_sched.specs.Channels.{IsSchedEdge, AreSmall};
ghost use Rattle.pt_sched.specs.Runs.{put_on, taken_from, length_after};

use pt_rates::Edge;

/// A channel between two children, and how many tokens it holds at first.
#[derive(Clone, Copy, Debug, PartialEq, Eq)]
pub struct SchedEdge {
    pub edge: Edge,
    pub initial: u64,
}

/// The most tokens that a channel may hold at first.
const MOST_FIRST: u64 = 1 << 32;

impl SchedEdge {
    /// Whether the ends are among `n` children, the rates are 1 to 1,000,000, and there are at most 2^32 first tokens.
    pub fn is_channel(&self, n: u32) -> bool
        ensures { IsTrue result ↔ IsSchedEdge n self.now }
    {
        self.edge.is_channel(n) && self.initial <= MOST_FIRST
    }
}

/// Whether all edges are channels between two of `n` children.
pub fn are_channels(n: u32, edges: &[SchedEdge]) -> bool
    ensures { IsTrue result ↔ All (IsSchedEdge n) edges.now }
{
    edges.iter().all(|edge| edge.is_channel(n))
}

/// The tokens that were put on a channel, with the first ones, where each child fired so often.
fn put(channel: &SchedEdge, fired: &[u64]) -> u64
    requires channel { IsSchedEdge (length fired.now) channel.now }
    requires small { AreSmall fired.now }
    ensures value { result ≡ put_on channel.now (slice_index fired.now) }
    ensures range { result ≤ 2000000000000 }
{
    channel.initial + fired[channel.edge.from as usize] * channel.edge.produced
}

/// The tokens that were taken from a channel.
fn taken(channel: &SchedEdge, fired: &[u64]) -> u64
    requires channel { IsSchedEdge (length fired.now) channel.now }
    requires small { AreSmall fired.now }
    ensures value { result ≡ taken_from channel.now (slice_index fired.now) }
    ensures range { result ≤ 1000000000000 }
{
    fired[channel.edge.to as usize] * channel.edge.consumed
}

/// Whether a channel holds less than its receiver's next firing takes.
pub(crate) fn is_short(channel: &SchedEdge, fired: &[u64]) -> bool
    requires channel { IsSchedEdge (length fired.now) channel.now }
    requires small { AreSmall fired.now }
    ensures { IsTrue result ↔ (put_on channel.now (slice_index fired.now) < taken_from channel.now (slice_index fired.now) + channel.now.edge.consumed) }
{
    put(channel, fired) < taken(channel, fired) + channel.edge.consumed
}

/// How many tokens a channel holds.
pub(crate) fn tokens(channel: &SchedEdge, fired: &[u64]) -> u64
    requires channel { IsSchedEdge (length fired.now) channel.now }
    requires small { AreSmall fired.now }
    ensures { result ≡ length_after channel.now (slice_index fired.now) }
{
    put(channel, fired).saturating_sub(taken(channel, fired))
}
