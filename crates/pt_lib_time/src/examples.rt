ghost use Rattle.pt_lib_time.specs.Examples.{TimeExamples};

/// Firings of each class, with an absent input among them, and early answers, as they were worked by hand.
pub fn time_examples()
    ensures { TimeExamples }
{}
