ghost use Rattle.pt_library.specs.LibraryActor as library;
ghost use Rattle.pt_turns.specs.Within.{ActorTo};

use pt_firing::{Fires, Inputs, Step};
use pt_node::Held;
use pt_time::Tag;
use pt_turns::{Within, fault_at};
use pt_value::Text;
use std::alloc::Global;

/// One step of a library actor, whose path and number of firings are told where it is stuck.
pub fn fire_actor(
    alloc: Global,
    held: &mut Held,
    path: &Text,
    made: u64,
    tag: Tag,
    inputs: &Inputs<'_>,
) -> Within
    requires { library.Takes tag held.old.actor inputs.now }
    ensures goes { ActorTo held.old path.now made tag inputs.now result held.new }
{
    match held.actor.step(alloc, tag, inputs) {
        Step::Done(outputs) => Within::Done(outputs),
        Step::Fault(kind) => fault_at(alloc, path, made, kind),
        Step::Memory => Within::Memory,
    }
}
