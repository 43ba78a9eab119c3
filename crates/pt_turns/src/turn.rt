ghost use Rattle.std.specs.Prelude.{◌≡◌, ◌+◌, ◌<◌, ◌≤◌, Some};
ghost use Rattle.pt_directors.specs.Directors.{director_calls};
ghost use Rattle.pt_node.specs.Shown.{shown_node};
ghost use Rattle.pt_node.specs.View.{outline_of, count_of};
ghost use Rattle.pt_node.specs.Live.{HasFired};
ghost use Rattle.pt_turns.specs.Turns.{TurnSpends, TellTo, RefusesTo};

use crate::within::{Within, fault_at};
use pt_core::Core;
use pt_directors::Director;
use pt_firing::{Blocked, Outputs, Place, RunFault};
use pt_node::Node;
use pt_time::Tag;
use std::alloc::Global;

/// How a turn of a child went: its firing is recorded and the director goes on, or the firing of the composite ends here.
#[derive(Drop)]
pub enum Turn {
    Done,
    Fault(Place),
    Spent,
    Full(Blocked),
    Memory,
}

/// Tells the director what the child gave, and which wake and need it has once that is recorded. The child's firing is recorded where the director accepts what it gave, and else the child is stuck.
pub fn tell(
    alloc: Global,
    director: &mut Director,
    child: &mut Node,
    number: u32,
    tag: Tag,
    left: &mut u64,
    outputs: Outputs,
) -> Turn
    requires asked { director_calls.asked_of director.old ≡ Some number }
    requires left { 0 < left.old }
    requires fit { HasFired (shown_node child.old) }
    ensures goes { TellTo director_calls director.old (shown_node child.old) number tag outputs result director.new (shown_node child.new) }
    ensures maximum { director_calls.maximum director.new ≡ director_calls.maximum director.old }
    ensures spends { TurnSpends result left.old left.new }
    ensures lowered { left.new ≤ left.old }
    ensures outline { outline_of (shown_node child.new) ≡ outline_of (shown_node child.old) }
    ensures counted { count_of (shown_node child.new) + left.new ≡ count_of (shown_node child.old) + left.old }
{
    let wake = child.wake();
    if child.past.made == u64::MAX || child.note(alloc, tag, &outputs).is_err() {
        return Turn::Memory;
    }
    let refusal = director.refusal();
    if director
        .told(alloc, number, outputs, wake, child.need())
        .is_err()
    {
        return Turn::Memory;
    }
    if director.is_wrong() {
        return refuse(alloc, child, refusal);
    }
    child.record(tag);
    *left -= 1;
    Turn::Done
}

/// The firing of the child isn't accepted, and is told as stuck.
pub fn refuse(alloc: Global, child: &Node, kind: RunFault) -> Turn
    ensures { RefusesTo (shown_node child.now) kind result }
{
    match fault_at(alloc, &child.path, child.past.made, kind) {
        Within::Fault(place) => Turn::Fault(place),
        _ => Turn::Memory,
    }
}
