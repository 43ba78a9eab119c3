ghost use Rattle.pt_plan.specs.Laws.{PlansAreUnique, PlansExcludeFaults};

/// An inside has at most one plan, but for the order and the room.
pub fn plans_are_unique()
    ensures { PlansAreUnique }
{}

/// Where an inside has a plan within the limits, no fault but want of memory stands.
pub fn plans_exclude_faults()
    ensures { PlansExcludeFaults }
{}
