ghost use Rattle.pt_de_plan.specs.Again.{CompositesStayWhole, StartsWakeAgain, WakesComeAgain};
ghost use Rattle.pt_de_plan.specs.Laws.{DepthsAreAlone, LoopsHaveNoPlan};

/// Where there is a directed loop without a delay, no plan is lawful that tells the same delays.
pub fn loops_have_no_plan()
    ensures { LoopsHaveNoPlan }
{}

/// The children of a composite have one list of depths at most.
pub fn depths_are_alone()
    ensures { DepthsAreAlone }
{}

/// Whatever a child fires, it begins again with the same wake.
pub fn wakes_come_again<T, A>()
    ensures { WakesComeAgain T A }
{}

/// A child at its start has the wake with which it begins again.
pub fn starts_wake_again<T, A>()
    ensures { StartsWakeAgain T A }
{}

/// Whatever a composite fires, it takes its lists whole where it did at its start.
pub fn composites_stay_whole<T, A>()
    ensures { CompositesStayWhole T A }
{}
