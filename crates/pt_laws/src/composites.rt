// The laws that take a run of the children of an SDF or PN composite to its own firing.

ghost use Rattle.pt_laws.specs.CompositeRuns.{ActorsReact, RunGrows, SdfEnds, PnEnds, SdfSticks, PnSticks, SdfIsPrefix, PnIsPrefix, StepsGrow};

/// The step of a library actor below a composite is its own reaction, at each fuel and depth.
pub fn actors_react<T, A>()
    ensures { ActorsReact T A }
{}

/// A run stays a run where the steps of the children may do more.
pub fn run_grows<T, S>()
    ensures { RunGrows T S }
{}

/// A run in which each child has fired as often as its bound says is the firing of the SDF composite.
pub fn sdf_ends<T, A>()
    ensures { SdfEnds T A }
{}

/// A run in which no child can fire is the firing of the PN composite.
pub fn pn_ends<T, A>()
    ensures { PnEnds T A }
{}

/// Where a child is stuck, so is the SDF composite, at the place of the child.
pub fn sdf_sticks<T, A>()
    ensures { SdfSticks T A }
{}

/// Where a child is stuck, so is the PN composite, at the place of the child.
pub fn pn_sticks<T, A>()
    ensures { PnSticks T A }
{}

/// What the children of an SDF composite have logged in the middle of a run is the beginning of its log.
pub fn sdf_is_prefix<T, A>()
    ensures { SdfIsPrefix T A }
{}

/// What the children of a PN composite have logged in the middle of a run is the beginning of its log.
pub fn pn_is_prefix<T, A>()
    ensures { PnIsPrefix T A }
{}

/// The steps of the children of a composite may do more at a greater fuel, and with more levels.
pub fn steps_grow<T, A>()
    ensures { StepsGrow T A }
{}
