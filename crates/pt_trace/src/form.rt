ghost use Rattle.pt_trace.specs.FormExample.{FormExamples};

/// The form of reports, by one that was worked by hand and by texts that are in none.
pub fn forms_by_example()
    ensures { FormExamples }
{}
