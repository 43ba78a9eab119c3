// The laws of firings that are left off in the middle: what is logged of them is a closed part of the meaning's log.

ghost use Rattle.pt_records.specs.Shut.{StepsAreShut, RunsAreShut};
ghost use Rattle.pt_records.specs.Middle.{MiddlesAreShut, PausesAreShut};

/// A firing that has begun and logged nothing is shut, and so is all that a step logs at any fuel, under every director.
pub fn steps_are_shut<T, A>()
    ensures { StepsAreShut T A }
{}

/// Where a run of the top is left off, between two firings or within one whose log is shut, its log is closed as a part of the meaning's.
pub fn runs_are_shut<T, A>()
    ensures { RunsAreShut T A }
{}

/// Where a composite of any director is left off in the middle of a firing, what its children have logged is shut, where the part of each is that doesn't finish a firing.
pub fn middles_are_shut<T, A>()
    ensures { MiddlesAreShut T A }
{}

/// So it is between two firings of the children, and within one of a child.
pub fn pauses_are_shut<T, A>()
    ensures { PausesAreShut T A }
{}
