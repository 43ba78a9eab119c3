ghost use Rattle.std.specs.Prelude.{◌≡◌, ℕ, ◌≤◌, ◌↔◌, All, IsTrue, IfErr, IfNone, IfOk, IfSome, length, replicate, sum};
ghost use Rattle.pt_rates.specs.Balance.{IsChannel, IsRepetitionVector, tokens_on};
ghost use Rattle.pt_rates.specs.Fault.{FaultStands, IsCrowdedAt};
ghost use Rattle.pt_rates.specs.declared.edge.Edge.{Edge};
ghost use Rattle.pt_rates.specs.declared.rates.RatesFault.TheVariants.{Memory};

use crate::edge::Edge;
use crate::parts::Parts;
use std::alloc::{AllocError, Global};
use thiserror::Error;

/// The most firings that one iteration has, over all nodes.
const MOST_FIRINGS: u128 = 1_000_000;

/// The most tokens that a channel moves in one iteration.
const MOST_TOKENS: u64 = 1_000_000;

/// Why the balance equations have no answer, or none within the limits.
#[derive(Clone, Copy, Debug, PartialEq, Eq, Error)]
pub enum RatesFault {
    /// No positive solution exists: the channels before this one give its ends a ratio that it breaks.
    #[error("two ratios meet at channel {0} and differ")]
    Inconsistent(usize),
    /// The least solution for some of the channels has this sum, which is above 1,000,000.
    #[error("one iteration has {0} firings")]
    Sum(u128),
    /// This channel moves more than 1,000,000 tokens in the least solution.
    #[error("too many tokens pass channel {0} in one iteration")]
    Tokens(usize),
    #[error("out of memory")]
    Memory,
}

impl From<AllocError> for RatesFault {
    ghost from_gives = { λ _ e. e ≡ Memory };

    fn from(_: AllocError) -> Self {
        RatesFault::Memory
    }
}

/// Whether the ends of all edges are among `n` nodes, and all rates are 1 to 1,000,000.
pub fn are_channels(n: u32, edges: &[Edge]) -> bool
    ensures { IsTrue result ↔ All (IsChannel n) edges.now }
{
    edges.iter().all(|edge| edge.is_channel(n))
}

/// Whether each channel is given as many tokens by a firing as one takes from it.
fn are_even(edges: &[Edge]) -> bool
    ensures { IsTrue result → All (λ edge. edge.produced ≡ edge.consumed) edges.now }
{
    edges.iter().all(|edge| edge.produced == edge.consumed)
}

/// The repetition vector of a dataflow graph with nodes 0 to `n - 1`: how often each fires in one iteration.
///
/// It is least in each connected part, so a node without channels fires once. Of the channels that break a ratio the
/// first in the list is told. Where each channel is given and asked for as many tokens, each node fires once, and no parts are made.
pub fn solve(alloc: Global, n: u32, edges: &[Edge]) -> Result<Vec<u64>, RatesFault>
    requires { All (IsChannel n) edges.now }
    ensures least { IfOk result (λ q. IsRepetitionVector n edges.now q.items) }
    ensures sum { IfOk result (λ q. sum q.items ≤ 1000000) }
    ensures tokens { IfOk result (λ q. All (λ edge. tokens_on q.items edge ≤ 1000000) edges.now) }
    ensures err { IfErr result (FaultStands n edges.now) }
{
    if n as u128 <= MOST_FIRINGS && are_even(edges) {
        let ones = vec![in alloc; 1u64; n as usize]?;
        return Ok(ones);
    }
    let parts = connected(alloc, n, edges)?;
    match first_crowded(edges, &parts.repetitions) {
        Some(channel) => Err(RatesFault::Tokens(channel)),
        None => Ok(parts.repetitions),
    }
}

/// The parts that all channels connect, with the least solution of all.
fn connected(alloc: Global, n: u32, edges: &[Edge]) -> Result<Parts, RatesFault>
    requires { All (IsChannel n) edges.now }
    ensures least { IfOk result (λ parts. IsRepetitionVector n edges.now parts.repetitions.items) }
    ensures sum { IfOk result (λ parts. sum parts.repetitions.items ≤ 1000000) }
    ensures err { IfErr result (FaultStands n edges.now) }
{
    if n as u128 > MOST_FIRINGS {
        return Err(RatesFault::Sum(n as u128));
    }
    let mut parts = Parts::new(alloc, n)?;
    for (channel, edge) in edges.iter().enumerate() {
        if !parts.connect(alloc, edge)? {
            return Err(RatesFault::Inconsistent(channel));
        }
        if parts.sum > MOST_FIRINGS {
            return Err(RatesFault::Sum(parts.sum));
        }
    }
    Ok(parts)
}

/// The first channel that moves too many tokens.
fn first_crowded(edges: &[Edge], q: &[u64]) -> Option<usize>
    requires channels { All (IsChannel (length q.now)) edges.now }
    requires sum { sum q.now ≤ 1000000 }
    ensures some { IfSome result (IsCrowdedAt edges.now q.now) }
    ensures none { IfNone result (All (λ edge. tokens_on q.now edge ≤ 1000000) edges.now) }
{
    for (channel, edge) in edges.iter().enumerate() {
        if q[edge.from as usize] * edge.produced > MOST_TOKENS {
            return Some(channel);
        }
    }
    None
}
