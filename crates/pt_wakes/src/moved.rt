ghost use Rattle.std.specs.Prelude.{◌≡◌, length};
ghost use Rattle.pt_wakes.specs.Moved.{with_woken};

use crate::due::DueChildren;
use crate::nodes::{due_leaf, next_due};
use crate::wakes::Wakes;
use pt_time::Tag;

/// Makes each child due whose wake is at or before the tag. It takes no memory.
#[inline(always)]
pub fn wake_due(wakes: &Wakes, children: &mut DueChildren, tag: Tag)
    requires { length wakes.now ≡ length children.old.due }
    ensures { children.new ≡ with_woken tag wakes.now children.old }
{
    if wakes.leaves == 0 || !wakes.nodes[1].is_due(tag) {
        return;
    }
    let mut p = 1usize;
    while p > 0 {
        let leaf = due_leaf(&wakes.nodes, wakes.leaves, p, tag);
        children.insert(leaf - wakes.leaves);
        p = next_due(&wakes.nodes, wakes.leaves, leaf, tag);
    }
}
