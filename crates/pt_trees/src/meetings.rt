ghost use Rattle.pt_trees.specs.MeetingsExample.{MeetingsExamples};

/// The lines of meetings of a report, by some that were worked by hand.
pub fn meetings_by_example()
    ensures { MeetingsExamples }
{}
