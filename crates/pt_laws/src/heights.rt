// The laws of heights: firings and resets keep them, and levels above them change nothing.

ghost use Rattle.pt_laws.specs.Heights.{FiringKeepsHeight, StepKeepsHeight, ResetKeepsHeight, LevelsAgree, StepIsAtAnyLevel};

/// A firing keeps the height of its node, below any number of levels.
pub fn firing_keeps_height<T, A>()
    ensures { FiringKeepsHeight T A }
{}

/// A step keeps the height of its node.
pub fn step_keeps_height<T, A>()
    ensures { StepKeepsHeight T A }
{}

/// A reset keeps the height of its node.
pub fn reset_keeps_height<T, A>()
    ensures { ResetKeepsHeight T A }
{}

/// Levels above the height of a node change nothing.
pub fn levels_agree<T, A>()
    ensures { LevelsAgree T A }
{}

/// The step of a node is what it is below any number of levels that is enough.
pub fn step_is_at_any_level<T, A>()
    ensures { StepIsAtAnyLevel T A }
{}
