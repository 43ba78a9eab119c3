ghost use Rattle.std.specs.Prelude.{◌≡◌, ℕ, ◌≤◌, All, IfErr, IfOk, length, sum};
ghost use Rattle.pt_sched.specs.Channels.{IsSchedEdge};
ghost use Rattle.pt_sched.specs.Plan.{FaultStands};
ghost use Rattle.pt_sched.specs.Runs.{IsSchedule, AreGreatestLengths};
ghost use Rattle.pt_sched.specs.Stretches.{spread};
ghost use Rattle.pt_sched.specs.declared.plan.SchedFault.TheVariants.{Memory};

use crate::edge::SchedEdge;
use crate::forward::{in_turn, is_forward};
use crate::hints::Hints;
use crate::lists::{Side, listed, numbers_at};
use crate::run::Run;
use crate::search::{Next, next_child};
use crate::stretch::Stretch;
use crate::times::{most_at_once, times};
use std::alloc::{AllocError, Global};
use thiserror::Error;

/// Why there is no schedule.
#[derive(Clone, Copy, Debug, PartialEq, Eq, Error)]
pub enum SchedFault {
    /// This child lacks firings after some run, and no child that lacks firings has its tokens. So no order is a schedule.
    #[error("child {0} never has the tokens of its next firing")]
    Deadlock(u32),
    #[error("out of memory")]
    Memory,
}

impl From<AllocError> for SchedFault {
    ghost from_gives = { λ _ e. e ≡ Memory };

    fn from(_: AllocError) -> Self {
        SchedFault::Memory
    }
}

/// An order of firings, stretch by stretch, and the greatest number of tokens that each channel holds in it.
#[derive(Drop)]
pub struct Plan {
    pub order: Vec<Stretch>,
    pub lengths: Vec<u64>,
}

/// A schedule of one iteration, in which each of the children 0 to `n - 1` fires as often as `q` says.
///
/// A child that can fire does so as often in a row as its tokens last, but for a bound on the tokens that this puts on a channel.
/// Where each fires once and each channel leads to a later child, they fire in the order of their numbers. The lengths are those between firings, before the first and after the last. `q` may be any numbers with a sum of at
/// most 1,000,000; where it balances the channels, each holds as many tokens after the schedule as at first.
pub fn schedule(alloc: Global, n: u32, edges: &[SchedEdge], q: &[u64]) -> Result<Plan, SchedFault>
    requires channels { All (IsSchedEdge n) edges.now }
    requires counted { length q.now ≡ n }
    requires sum { sum q.now ≤ 1000000 }
    ensures order { IfOk result (λ plan. IsSchedule edges.now q.now (spread plan.order.items)) }
    ensures lengths { IfOk result (λ plan. AreGreatestLengths edges.now (spread plan.order.items) plan.lengths.items) }
    ensures err { IfErr result (FaultStands edges.now q.now) }
{
    if is_forward(edges, q) {
        let plan = in_turn(alloc, n, edges, q)?;
        return Ok(plan);
    }
    let ins = listed(alloc, n, Side::End, edges)?;
    let outs = listed(alloc, n, Side::Start, edges)?;
    let mut run = Run::new(alloc, n, edges)?;
    let most = most_at_once(edges.len());
    let mut hints = Hints::new(alloc, n, edges, &run.fired)?;
    'firings: loop {
        match next_child(n, edges, &ins, q, &run.fired, &mut hints) {
            Next::Ready(child) => {
                let starts = numbers_at(&outs, child);
                let ends = numbers_at(&ins, child);
                let times = times(edges, q, &run.fired, ends, starts, most, child);
                run.fire(edges, q, starts, child, times)?;
                hints.fired(edges, ends, starts, &run.fired, child)?;
            }
            Next::Stuck(child) => return Err(SchedFault::Deadlock(child)),
            Next::Over => {
                return Ok(Plan {
                    order: run.order,
                    lengths: run.lengths,
                });
            }
        }
    }
}
