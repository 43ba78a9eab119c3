// The run of an SDF top without inputs, as far as blocks of iterations bring it.
ghost use Rattle.std.specs.Prelude.{◌≡◌, [], IfOk};
ghost use Rattle.pt_node.specs.Shown.{shown_node};
ghost use Rattle.pt_node.specs.View.{outline_of};
ghost use Rattle.pt_trees.specs.declared.top.Top.TheVariants.{Sdf};
ghost use Rattle.pt_trees.specs.Start.{IsRunnable};
ghost use Rattle.pt_going.specs.Going.{Going, last_after};

use pt_blocks::{Blocks, fire_block};
use pt_node::Node;
use pt_time::Tag;
use pt_trees::SdfJob;
use std::alloc::{AllocError, Global};

/// The tag of each firing of an SDF top.
pub(crate) const ORIGIN: Tag = Tag { time: 0, step: 0 };

/// Makes iterations of an SDF top that has no inputs, several at once, as long as the job has so many left, the budget suffices and such a block can be made. Answers how many iterations were made. What is left of the budget is lowered by each firing.
pub(crate) fn run_blocks(
    alloc: Global,
    top: &mut Node,
    job: &SdfJob,
    left: &mut u64,
) -> Result<u64, AllocError>
    requires runnable { IsRunnable (Sdf job.now) (shown_node top.old) }
    requires alone { job.now.inputs.items ≡ [] }
    ensures going { IfOk result (λ fired. Going (Sdf job.now) (shown_node top.old) left.old fired (last_after fired) (shown_node top.new) left.new) }
    ensures outline { outline_of (shown_node top.new) ≡ outline_of (shown_node top.old) }
{
    let iterations = job.iterations;
    let mut fired = 0;
    let Some(mut blocks) = Blocks::of(alloc, top)? else {
        return Ok(fired);
    };
    'ahead: loop {
        let count = blocks.within(iterations - fired, *left);
        if count < 2 || !fire_block(alloc, top, &mut blocks, ORIGIN, count, left) {
            return Ok(fired);
        }
        fired += count;
    }
}
