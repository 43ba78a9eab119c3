// The run of a DE top without inputs: it fires whenever its wake is due, and takes nothing.
ghost use Rattle.std.specs.Prelude.{◌≡◌, ◌+◌, [], IfOk, OnOk};
ghost use Rattle.pt_records.specs.Made.{meets_of};
ghost use Rattle.pt_node.specs.Shown.{shown_node};
ghost use Rattle.pt_node.specs.View.{kept_of, count_of, outline_of};
ghost use Rattle.pt_trees.specs.declared.top.Top.TheVariants.{De};
ghost use Rattle.pt_trees.specs.Start.{IsRunnable};
ghost use Rattle.pt_trees.specs.Run.{IsRun, IsAffordable, IsDefined};

use pt_agenda::{Turn, next_turn};
use pt_alone::{Fired, fire_alone};
use pt_firing::{Inputs, Tokens};
use pt_next::past_limit;
use pt_node::Node;
use pt_seq::OneThread;
use pt_trees::{DeJob, Ended};
use std::alloc::{AllocError, Global};

/// Fires a top of DE that has no inputs, each time at the tag at which its wake is due, until the job ends or nothing is left of the budget. What is left is lowered by each firing.
pub(crate) fn run_reactions(
    alloc: Global,
    top: &mut Node,
    job: &DeJob,
    budget: u64,
    left: &mut u64,
) -> Result<Ended, AllocError>
    requires runnable { IsRunnable (De job.now) (shown_node top.old) }
    requires whole { left.old ≡ budget }
    requires alone { job.now.inputs.items ≡ [] }
    ensures report { IfOk result (λ ended. IsRun (meets_of (kept_of (shown_node top.new))) (De job.now) budget (shown_node top.old) (shown_node top.new) ended) }
    ensures counted { OnOk result (left.new + count_of (shown_node top.new) ≡ budget) }
    ensures complete { IsAffordable (De job.now) budget (shown_node top.old) → IfOk result IsDefined }
    ensures outline { outline_of (shown_node top.new) ≡ outline_of (shown_node top.old) }
{
    let none: Vec<Tokens> = Vec::new(alloc);
    let mut fired = 0;
    let mut last = None;
    while *left > 0 {
        let tag = match next_turn(job.stop, None, top.next(), last) {
            Turn::Fire(tag) => tag,
            Turn::Stop => return Ok(Ended::Stop),
            Turn::Idle => return Ok(Ended::Idle),
            Turn::Limit => return Ok(Ended::Fault(past_limit(alloc, top, fired)?)),
        };
        match fire_alone::<OneThread>(alloc, top, tag, &Inputs::of(&none), left) {
            Fired::Done => {}
            Fired::Fault(place) => return Ok(Ended::Fault(place)),
            Fired::Spent(_) => return Ok(Ended::Spent(budget)),
            Fired::Full(blocked) => return Ok(Ended::Full(blocked)),
            Fired::Memory => return Err(AllocError),
        }
        fired += 1;
        last = Some(tag);
    }
    Ok(Ended::Spent(budget))
}
