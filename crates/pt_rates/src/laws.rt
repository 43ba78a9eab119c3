ghost use Rattle.pt_rates.specs.Laws.{SolutionsExcludeFaults, RepetitionsAreUnique};

/// The least solution is one: no two lists are.
pub fn repetitions_are_unique()
    ensures { RepetitionsAreUnique }
{}

/// Where the least solution is within the limits, no fault but want of memory stands.
pub fn solutions_exclude_faults()
    ensures { SolutionsExcludeFaults }
{}
