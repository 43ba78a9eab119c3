ghost use Rattle.pt_turns.specs.Within.{IsFaultAt};

use pt_firing::{Blocked, Outputs, Place, RunFault};
use pt_value::Text;
use std::alloc::Global;

/// How a firing went that isn't recorded yet.
#[derive(Drop)]
pub enum Within {
    Done(Outputs),
    Fault(Place),
    Spent,
    Full(Blocked),
    Memory,
}

/// The firing of that number is stuck at the path.
pub fn fault_at(alloc: Global, path: &Text, firing: u64, kind: RunFault) -> Within
    ensures { IsFaultAt path.now firing kind result }
{
    match path.copy(alloc) {
        Ok(path) => Within::Fault(Place { path, firing, kind }),
        Err(_) => Within::Memory,
    }
}
