ghost use Rattle.std.specs.Prelude.{◌≡◌, ◌+◌, ◌<◌, IfOk, OnOk};
ghost use Rattle.pt_node.specs.Shown.{shown_node};
ghost use Rattle.pt_records.specs.Made.{meets_of};
ghost use Rattle.pt_node.specs.View.{kept_of, count_of, outline_of};
ghost use Rattle.pt_trees.specs.Start.{IsRunnable};
ghost use Rattle.pt_trees.specs.Run.{IsRun, IsAffordable, IsDefined};
ghost use Rattle.pt_run.specs.Ran.{IsCount};

use crate::reactions::run_reactions;
use pt_firing::{Answer, Inputs};
use pt_going::{last_after, run_ahead};
use pt_next::{Turn, end_told, next_turn, past_limit};
use pt_node::Node;
use pt_seq::fire_within;
use pt_trees::{Ended, Top};
use std::alloc::{AllocError, Global};

/// How a run ended, and how many firings were made in it.
#[derive(Debug, Drop)]
pub struct Ran {
    pub ended: Ended,
    pub firings: u64,
}

/// Fires the top as the job says, until it ends or the firings of the tree are as many as the budget. What the tree has recorded then is the report of the run.
pub fn run(alloc: Global, top: &mut Node, job: &Top, budget: u64) -> Result<Ran, AllocError>
    requires runnable { IsRunnable job.now (shown_node top.old) }
    requires budget { 0 < budget }
    ensures report { IfOk result (λ ran. IsRun (meets_of (kept_of (shown_node top.new))) job.now budget (shown_node top.old) (shown_node top.new) ran.ended) }
    ensures counted { IfOk result (λ ran. IsCount (shown_node top.old) (shown_node top.new) ran.firings) }
    ensures complete { IsAffordable job.now budget (shown_node top.old) → IfOk result (λ ran. IsDefined ran.ended) }
    ensures outline { outline_of (shown_node top.new) ≡ outline_of (shown_node top.old) }
{
    let mut left = budget;
    let ended = run_job(alloc, top, job, budget, &mut left)?;
    Ok(Ran {
        ended,
        firings: budget - left,
    })
}

/// The same by what is left of the budget, which is lowered by each firing. A DE top without inputs has a loop of its own, since what it takes to fire a top counts where its reactions are short.
fn run_job(
    alloc: Global,
    top: &mut Node,
    job: &Top,
    budget: u64,
    left: &mut u64,
) -> Result<Ended, AllocError>
    requires runnable { IsRunnable job.now (shown_node top.old) }
    requires whole { left.old ≡ budget }
    ensures report { IfOk result (λ ended. IsRun (meets_of (kept_of (shown_node top.new))) job.now budget (shown_node top.old) (shown_node top.new) ended) }
    ensures counted { OnOk result (left.new + count_of (shown_node top.new) ≡ budget) }
    ensures complete { IsAffordable job.now budget (shown_node top.old) → IfOk result IsDefined }
    ensures outline { outline_of (shown_node top.new) ≡ outline_of (shown_node top.old) }
{
    match job {
        Top::De(reactions) if reactions.inputs.is_empty() => {
            run_reactions(alloc, top, reactions, budget, left)
        }
        _ => run_within(alloc, top, job, budget, left),
    }
}

/// The same for each job.
fn run_within(
    alloc: Global,
    top: &mut Node,
    job: &Top,
    budget: u64,
    left: &mut u64,
) -> Result<Ended, AllocError>
    requires runnable { IsRunnable job.now (shown_node top.old) }
    requires whole { left.old ≡ budget }
    ensures report { IfOk result (λ ended. IsRun (meets_of (kept_of (shown_node top.new))) job.now budget (shown_node top.old) (shown_node top.new) ended) }
    ensures counted { OnOk result (left.new + count_of (shown_node top.new) ≡ budget) }
    ensures complete { IsAffordable job.now budget (shown_node top.old) → IfOk result IsDefined }
    ensures outline { outline_of (shown_node top.new) ≡ outline_of (shown_node top.old) }
{
    let mut fired = run_ahead(alloc, top, job, left)?;
    let mut last = last_after(fired);
    while *left > 0 {
        let firing = match next_turn(alloc, job, fired, &last, top)? {
            Turn::Fire(firing) => firing,
            Turn::Ends(end) => return Ok(end_told(end)),
            Turn::Limit => return Ok(Ended::Fault(past_limit(alloc, top, fired)?)),
        };
        match fire_within(alloc, top, firing.tag, &Inputs::of(&firing.inputs), left) {
            Answer::Done(_) => {}
            Answer::Fault(place) => return Ok(Ended::Fault(place)),
            Answer::Spent(_) => return Ok(Ended::Spent(budget)),
            Answer::Full(blocked) => return Ok(Ended::Full(blocked)),
            Answer::Memory => return Err(AllocError),
        }
        fired += 1;
        last = Some(firing.tag);
    }
    Ok(Ended::Spent(budget))
}
