// The laws of an SR composite of a tree in the middle of a firing.

ghost use Rattle.pt_sr.specs.SoFar.{SrBegins, SrGoesOn, SrHears, SrIsDone, SrLacks, SrIsStuck, SrGivesTwo, SrIsLeftOff, SrIsLeftOffWithin};

/// Before any firing of a child nothing is logged, and what is kept is as it was.
pub fn sr_begins<T, A>()
    ensures { SrBegins T A }
{}

/// A child that the core asks to fire may fire next, and what is kept of it goes on by the log of its step.
pub fn sr_goes_on<T, A>()
    ensures { SrGoesOn T A }
{}

/// A child that the core asks for an early answer may give it, which nothing records.
pub fn sr_hears<T, A>()
    ensures { SrHears T A }
{}

/// Where each child has fired the composite's firing is done, and what is kept of it went on by the log that the meaning gives.
pub fn sr_is_done<T, A>()
    ensures { SrIsDone T A }
{}

/// Where nothing more can be learnt and some child hasn't fired, the composite is stuck by its causality.
pub fn sr_lacks<T, A>()
    ensures { SrLacks T A }
{}

/// Where a child is stuck, so is the composite, and what is kept went on by a beginning of its log.
pub fn sr_is_stuck<T, A>()
    ensures { SrIsStuck T A }
{}

/// Where a child gives two tokens on one port, the composite is stuck at the child.
pub fn sr_gives_two<T, A>()
    ensures { SrGivesTwo T A }
{}

/// Where the composite is left off between firings of its children, what is kept went on by a beginning of its log.
pub fn sr_is_left_off<T, A>()
    ensures { SrIsLeftOff T A }
{}

/// And so it is where it is left off within a child's firing.
pub fn sr_is_left_off_within<T, A>()
    ensures { SrIsLeftOffWithin T A }
{}
