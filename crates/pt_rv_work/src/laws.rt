// The laws by which a core of the Rendezvous director keeps its processes one by one.

ghost use Rattle.pt_rv_work.specs.Seen.{ProcessesAreSeen, MeetingsAreSeen, BarriersAreSeen};

/// What one process does next, and that it fires, is what the state says of it.
pub fn processes_are_seen<T>()
    ensures { ProcessesAreSeen T }
{}

/// A meeting on a channel looks at its sender and its receiver, and moves these alone.
pub fn meetings_are_seen<T>()
    ensures { MeetingsAreSeen T }
{}

/// A Barrier's meeting passes one token after another, each as it was offered.
pub fn barriers_are_seen<T>()
    ensures { BarriersAreSeen T }
{}
