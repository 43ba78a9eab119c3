ghost use Rattle.pt_lib_timed.specs.Examples.{TimedExamples};

/// Firings, wakes and early answers of each class, as they were worked by hand.
pub fn timed_examples()
    ensures { TimedExamples }
{}
