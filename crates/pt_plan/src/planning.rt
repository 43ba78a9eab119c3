ghost use Rattle.std.specs.Prelude.{◌≡◌, ◌+◌, ◌≤◌, ◌++◌, All, IfErr, IfOk, List, filter, length, map, slice_index, sum, take};
ghost use Rattle.pt_rates.specs.Balance.{IsRepetitionVector, tokens_on};
ghost use Rattle.pt_sched.specs.Runs.{IsSchedule, AreGreatestLengths};
ghost use Rattle.pt_sched.specs.Channels.{IsSchedEdge};
ghost use Rattle.pt_sched.specs.Stretches.{spread};
ghost use Rattle.pt_sched.specs.declared.edge.SchedEdge.{SchedEdge};
ghost use Rattle.pt_sdf_parts.specs.Lawful.{IsLawful};
ghost use Rattle.pt_sdf_parts.specs.Plan.{plan_of, order_of};
ghost use Rattle.pt_value.specs.declared.token.Token.{Token};
ghost use Rattle.pt_plan.specs.Channels.{nodes_of, channels_of, edges_of, is_between, between};
ghost use Rattle.pt_plan.specs.Fault.{FaultStands, of_rates, of_sched};
ghost use Rattle.pt_plan.specs.Inside.{IsInside};
ghost use Rattle.pt_plan.specs.PlanOf.{repetitions_of, IsPlanOf, IsWithinLimits, AreRooms};
ghost use Rattle.pt_plan.specs.Iteration.{IsCut, planned};
ghost use Rattle.pt_plan.specs.Rooms.{rooms_of};
ghost use Rattle.pt_plan.specs.Unfed.{first_of, unfed, sources_of};
ghost use Rattle.pt_plan.specs.declared.planning.PlanFault.TheVariants.{Memory};

use crate::channels::channels_of;
use crate::inside::Inside;
use crate::rooms::{is_between, rooms_of};
use crate::unfed::add_unfed;
use pt_core::Source;
use pt_firing::Counts;
use pt_rates::{Edge, RatesFault, solve};
use pt_sched::{Plan, SchedEdge, SchedFault, Stretch, schedule};
use pt_sdf_parts::CorePlan;
use std::alloc::{AllocError, Global};
use thiserror::Error;

/// The most unknowns that the balance equations may have, since each is at least 1.
const MOST_NODES: usize = 1_000_000;

/// Why a composite has no plan, or none within the limits.
#[derive(Clone, Copy, Debug, PartialEq, Eq, Error)]
pub enum PlanFault {
    /// The balance equations have no positive solution.
    #[error("the rates have no solution")]
    Rates,
    /// The least solution for some of the channels has a sum above 1,000,000, or a channel moves more than 1,000,000
    /// tokens in the least solution for all.
    #[error("an iteration has too many firings or tokens")]
    Limit,
    /// No order fires each child as often as its repetition says and never lacks a token.
    #[error("in no order does each firing have its tokens")]
    Deadlock,
    #[error("out of memory")]
    Memory,
}

impl From<AllocError> for PlanFault {
    ghost from_gives = { λ _ e. e ≡ Memory };

    fn from(_: AllocError) -> Self {
        PlanFault::Memory
    }
}

impl From<RatesFault> for PlanFault {
    ghost from_gives = { λ fault e. e ≡ of_rates fault };

    fn from(fault: RatesFault) -> Self {
        match fault {
            RatesFault::Inconsistent(_) => PlanFault::Rates,
            RatesFault::Sum(_) | RatesFault::Tokens(_) => PlanFault::Limit,
            RatesFault::Memory => PlanFault::Memory,
        }
    }
}

impl From<SchedFault> for PlanFault {
    ghost from_gives = { λ fault e. e ≡ of_sched fault };

    fn from(fault: SchedFault) -> Self {
        match fault {
            SchedFault::Deadlock(_) => PlanFault::Deadlock,
            SchedFault::Memory => PlanFault::Memory,
        }
    }
}

/// The plan of an SDF composite: how often each child fires in an iteration, in which order, what own ports move in it, and
/// how many tokens each channel is to have room for.
///
/// The plan has the channels of the inside, and behind them one for each own input that feeds nothing: it begins there, and ends
/// nowhere. The order is a schedule of the channels between children. A fault is told only where it stands, and then there is no plan
/// within the limits; want of memory may be told at any time.
pub fn plan(alloc: Global, inside: Inside) -> Result<CorePlan, PlanFault>
    requires { IsInside inside }
    ensures plan { IfOk result (λ p. IsPlanOf inside (plan_of p)) }
    ensures limits { IfOk result (λ p. IsWithinLimits inside (plan_of p)) }
    ensures needs { IfOk result (λ p. p.needs ≡ inside.needs) }
    ensures order { IfOk result (λ p. IsSchedule (between inside) p.repetitions (order_of p)) }
    ensures room { IfOk result (λ p. AreRooms inside (order_of p) (repetitions_of (plan_of p)) p.room) }
    ensures lawful { IfOk result (λ p. (first : List (List Token)) → map (λ (tokens : List Token). length tokens) first ≡ first_of inside → IsLawful (plan_of p) p.needs (order_of p) p.room first) }
    ensures err { IfErr result (FaultStands inside) }
{
    match iteration_of(alloc, &inside) {
        Ok(iteration) => {
            let Iteration {
                counts,
                order,
                channels,
            } = iteration;
            Ok(CorePlan {
                sources: channels.sources,
                places: inside.places,
                needs: inside.needs,
                rates: inside.rates,
                repetitions: counts.repetitions,
                takes: counts.takes,
                gives: counts.gives,
                order,
                room: channels.room,
            })
        }
        // Let go by a call, which keeps what that takes out of the proof.
        Err(fault) => {
            drop(inside);
            Err(fault)
        }
    }
}

/// How often each child fires in an iteration, and how many tokens each own port moves.
#[derive(Drop)]
struct IterationCounts {
    repetitions: Counts,
    takes: Counts,
    gives: Counts,
}

/// Where each channel of a plan begins, and its room.
#[derive(Drop)]
struct PlanChannels {
    sources: Vec<Source>,
    room: Counts,
}

/// What a plan says of an iteration.
#[derive(Drop)]
struct Iteration {
    counts: IterationCounts,
    order: Vec<Stretch>,
    channels: PlanChannels,
}

/// An iteration of this inside, by the balance equations and a schedule.
fn iteration_of(alloc: Global, inside: &Inside) -> Result<Iteration, PlanFault>
    requires { IsInside inside.now }
    ensures plan { IfOk result (λ made. IsPlanOf inside.now (planned inside.now made)) }
    ensures limits { IfOk result (λ made. IsWithinLimits inside.now (planned inside.now made)) }
    ensures order { IfOk result (λ made. IsSchedule (between inside.now) made.counts.repetitions (spread made.order.items)) }
    ensures sources { IfOk result (λ made. made.channels.sources.items ≡ sources_of inside.now) }
    ensures room { IfOk result (λ made. AreRooms inside.now (spread made.order.items) (repetitions_of (planned inside.now made)) made.channels.room) }
    ensures err { IfErr result (FaultStands inside.now) }
{
    let nodes = count_nodes(inside)?;
    let channels = channels_of(alloc, inside)?;
    let q = solved(alloc, nodes, inside, &channels)?;
    let Plan { order, lengths } = scheduled(alloc, inside, &channels, &q)?;
    let counts = counts_in(alloc, inside, &q)?;
    let ends = channels_in(alloc, inside, &channels, &q, &lengths)?;
    Ok(Iteration {
        counts,
        order,
        channels: ends,
    })
}

/// The numbers of the children, the own inputs and the own outputs among all.
fn counts_in(alloc: Global, inside: &Inside, q: &[u64]) -> Result<IterationCounts, AllocError>
    requires { length q.now ≡ nodes_of inside.now }
    ensures { IfOk result (λ counts. IsCut inside.now q.now counts.repetitions counts.takes counts.gives) }
{
    let children = inside.places.len();
    let own = children + inside.inputs as usize;
    Ok(IterationCounts {
        repetitions: counts_of(alloc, &q[..children])?,
        takes: counts_of(alloc, &q[children..own])?,
        gives: counts_of(alloc, &q[own..])?,
    })
}

/// The channels of the plan, where `channels` are those of the inside, and `lengths` of those between children.
fn channels_in(
    alloc: Global,
    inside: &Inside,
    channels: &[SchedEdge],
    q: &[u64],
    lengths: &[u64],
) -> Result<PlanChannels, AllocError>
    requires counted { length q.now ≡ nodes_of inside.now }
    requires channels { All (IsSchedEdge (length q.now)) channels.now }
    requires tokens { All (λ channel. tokens_on q.now channel.edge ≤ 1000000) channels.now }
    ensures sources { IfOk result (λ made. made.sources.items ≡ sources_of inside.now) }
    ensures room { IfOk result (λ made. made.room ≡ rooms_of (length inside.now.places) q.now channels.now lengths.now ++ map (λ port. slice_index q.now (length inside.now.places + port)) (unfed inside.now)) }
{
    let children = inside.places.len();
    let mut room = rooms_of(alloc, children, channels, q, lengths)?;
    let mut sources = Vec::from_slice(alloc, &inside.sources)?;
    add_unfed(alloc, &mut sources, &mut room, inside.inputs, children, q)?;
    Ok(PlanChannels {
        sources,
        room: Counts::of(room),
    })
}

/// How many unknowns the balance equations have.
fn count_nodes(inside: &Inside) -> Result<u32, PlanFault>
    ensures ok { IfOk result (λ nodes. (nodes ≡ nodes_of inside.now) × (nodes ≤ 1000000)) }
    ensures err { IfErr result (FaultStands inside.now) }
{
    let children = inside.places.len();
    if children > MOST_NODES {
        return Err(PlanFault::Limit);
    }
    let nodes = children + inside.inputs as usize + inside.outputs as usize;
    if nodes > MOST_NODES {
        return Err(PlanFault::Limit);
    }
    Ok(nodes as u32)
}

/// The repetitions of the children, the own inputs and the own outputs.
fn solved(
    alloc: Global,
    nodes: u32,
    inside: &Inside,
    channels: &[SchedEdge],
) -> Result<Vec<u64>, PlanFault>
    requires inside { IsInside inside.now }
    requires nodes { nodes ≡ nodes_of inside.now }
    requires channels { channels.now ≡ channels_of inside.now }
    ensures least { IfOk result (λ q. IsRepetitionVector (nodes_of inside.now) (edges_of inside.now) q.items) }
    ensures sum { IfOk result (λ q. sum q.items ≤ 1000000) }
    ensures tokens { IfOk result (λ q. All (λ edge. tokens_on q.items edge ≤ 1000000) (edges_of inside.now)) }
    ensures err { IfErr result (FaultStands inside.now) }
{
    let edges = edges_of(alloc, channels)?;
    Ok(solve(alloc, nodes, &edges)?)
}

/// The channels without their first tokens.
fn edges_of(alloc: Global, channels: &[SchedEdge]) -> Result<Vec<Edge>, AllocError>
    ensures { IfOk result (λ edges. edges.items ≡ map (λ (channel : SchedEdge). channel.edge) channels.now) }
{
    channels.iter().map(|channel| channel.edge).collect(alloc)
}

/// A schedule of the children.
fn scheduled(
    alloc: Global,
    inside: &Inside,
    channels: &[SchedEdge],
    q: &[u64],
) -> Result<Plan, PlanFault>
    requires inside { IsInside inside.now }
    requires channels { channels.now ≡ channels_of inside.now }
    requires nodes { nodes_of inside.now ≤ 1000000 }
    requires least { IsRepetitionVector (nodes_of inside.now) (edges_of inside.now) q.now }
    requires sum { sum q.now ≤ 1000000 }
    ensures order { IfOk result (λ plan. IsSchedule (between inside.now) (take (length inside.now.places) q.now) (spread plan.order.items)) }
    ensures lengths { IfOk result (λ plan. AreGreatestLengths (between inside.now) (spread plan.order.items) plan.lengths.items) }
    ensures err { IfErr result (FaultStands inside.now) }
{
    let children = inside.places.len();
    let between = inner(alloc, children, channels)?;
    Ok(schedule(alloc, children as u32, &between, &q[..children])?)
}

/// The channels between two of `n` children.
fn inner(alloc: Global, n: usize, channels: &[SchedEdge]) -> Result<Vec<SchedEdge>, AllocError>
    ensures { IfOk result (λ inner. inner.items ≡ filter (is_between n) channels.now) }
{
    let mut inner = Vec::new(alloc);
    for channel in channels {
        if is_between(n, channel) {
            inner.push(*channel)?;
        }
    }
    Ok(inner)
}

fn counts_of(alloc: Global, numbers: &[u64]) -> Result<Counts, AllocError>
    ensures { IfOk result (λ counts. counts ≡ numbers.now) }
{
    let mut counts = Vec::with_capacity(alloc, numbers.len())?;
    for number in numbers {
        counts.push(*number as usize)?;
    }
    Ok(Counts::of(counts))
}
