// The laws of a dataflow composite in the middle of a firing.

ghost use Rattle.pt_records.specs.SoFar.{SoFarBegins, SoFarGoesOn, SdfIsDone, SdfIsStuck, SdfIsUnrated, SdfIsLeftOff, SdfIsLeftOffWithin};

/// Before any firing of a child nothing is logged, and what is kept is as it was.
pub fn so_far_begins<T, A>()
    ensures { SoFarBegins T A }
{}

/// A child that has what it needs may fire next, and what is kept of it goes on by the log of its step.
pub fn so_far_goes_on<T, A>()
    ensures { SoFarGoesOn T A }
{}

/// Where each child of an SDF composite has fired as often as its bound says, its firing is done, and what is kept of it went on by the log that the meaning gives.
pub fn sdf_is_done<T, A>()
    ensures { SdfIsDone T A }
{}

/// Where a child is stuck, so is the composite, and what is kept went on by a beginning of its log.
pub fn sdf_is_stuck<T, A>()
    ensures { SdfIsStuck T A }
{}

/// Where a child gives another number of tokens than its rate, the composite is stuck at the child.
pub fn sdf_is_unrated<T, A>()
    ensures { SdfIsUnrated T A }
{}

/// Where the composite is left off between firings of its children, what is kept went on by a beginning of its log.
pub fn sdf_is_left_off<T, A>()
    ensures { SdfIsLeftOff T A }
{}

/// And so it is where it is left off within a child's firing.
pub fn sdf_is_left_off_within<T, A>()
    ensures { SdfIsLeftOffWithin T A }
{}
