//! The law of the meetings in what a model means: they are those that were given for it. Laws alone.
#![tactic(auto)]

ghost use Rattle.pt_given.specs.Given.{MeetingsAreGiven, AllAreLegal};

/// At each fuel the meetings of each firing are a beginning of those that are given for it, under every director.
pub fn meetings_are_given<T, A>()
    ensures { MeetingsAreGiven T A }
{}

/// Meetings that a log tells which is a beginning of the meaning's are legal, where no others are given.
pub fn all_are_legal<T, A>()
    ensures { AllAreLegal T A }
{}
