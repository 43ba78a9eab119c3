// What is made of a run before its firings one by one.
ghost use Rattle.std.specs.Prelude.{◌≡◌, IfOk};
ghost use Rattle.pt_node.specs.Shown.{shown_node};
ghost use Rattle.pt_node.specs.View.{outline_of};
ghost use Rattle.pt_trees.specs.Start.{IsRunnable};
ghost use Rattle.pt_going.specs.Going.{Going, last_after};

use crate::blocks::{ORIGIN, run_blocks};
use pt_node::Node;
use pt_time::Tag;
use pt_trees::Top;
use std::alloc::{AllocError, Global};

/// Makes the firings of the top that can be made several at once, before all others: blocks of iterations of an SDF top without inputs. Answers how many were made.
pub fn run_ahead(
    alloc: Global,
    top: &mut Node,
    job: &Top,
    left: &mut u64,
) -> Result<u64, AllocError>
    requires { IsRunnable job.now (shown_node top.old) }
    ensures going { IfOk result (λ fired. Going job.now (shown_node top.old) left.old fired (last_after fired) (shown_node top.new) left.new) }
    ensures outline { outline_of (shown_node top.new) ≡ outline_of (shown_node top.old) }
{
    match job {
        Top::Sdf(iterations) if iterations.inputs.is_empty() => {
            run_blocks(alloc, top, iterations, left)
        }
        _ => Ok(0),
    }
}

/// The tag of the last of so many firings that were made ahead.
pub fn last_after(fired: u64) -> Option<Tag>
    ensures { result ≡ last_after fired }
{
    if fired > 0 { Some(ORIGIN) } else { None }
}
