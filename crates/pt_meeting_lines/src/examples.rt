ghost use Rattle.pt_meeting_lines.specs.Examples.{LineExamples};

/// Lines of meetings, by some that were worked by hand.
pub fn lines_by_example()
    ensures { LineExamples }
{}
