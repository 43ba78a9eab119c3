//! Examples of what models mean, worked by hand and computed by the definitions.
#![tactic(auto)]

pub mod worked;

ghost use Rattle.pt_meaning.specs.Lawful.{LawfulRows};
ghost use Rattle.pt_examples.specs.Small.{rows};
ghost use Rattle.pt_examples.specs.Dataflow.{DataflowExamples};
ghost use Rattle.pt_examples.specs.Unfed.{UnfedExamples};
ghost use Rattle.pt_examples.specs.Networks.{NetworkExamples};
ghost use Rattle.pt_examples.specs.Ticks.{TickExamples};
ghost use Rattle.pt_examples.specs.Events.{EventExamples};
ghost use Rattle.pt_examples.specs.Rendezvous.{RendezvousExamples};
ghost use Rattle.pt_examples.specs.Modals.{ModalExamples};
ghost use Rattle.pt_examples.specs.Edges.{EdgeExamples};
ghost use Rattle.pt_examples.specs.Nesting.{NestingExamples};
ghost use Rattle.pt_examples.specs.Jams.{JamExample};
ghost use Rattle.pt_examples.specs.Reports.{ReportExample, UnclosedExample};
ghost use Rattle.pt_examples.specs.WrongReports.{UnderstatedExample, HollowExample, CauselessExample, MisnumberedExample, OfAnotherRunExample};
ghost use Rattle.pt_examples.specs.ClosedLogs.{ClosedLogsExamples};
ghost use Rattle.pt_examples.specs.Unlawful.{UnlawfulExamples};

/// The small library of the examples keeps what every library of actors owes.
pub fn small_library_is_lawful()
    ensures { LawfulRows rows }
{}

/// Each example of SDF has its trace and its end.
pub fn dataflow_examples()
    ensures { DataflowExamples }
{}

/// Each example of an own input that feeds nothing has its trace and its end.
pub fn unfed_examples()
    ensures { UnfedExamples }
{}

/// Each example of PN has its trace and its end.
pub fn network_examples()
    ensures { NetworkExamples }
{}

/// Each example of SR has its trace and its end.
pub fn tick_examples()
    ensures { TickExamples }
{}

/// Each example of DE has its trace and its end.
pub fn event_examples()
    ensures { EventExamples }
{}

/// Each example of Rendezvous has its trace, its end and its meetings.
pub fn rendezvous_examples()
    ensures { RendezvousExamples }
{}

/// Each example of Modal has its trace and its end.
pub fn modal_examples()
    ensures { ModalExamples }
{}

/// Each model at an edge of the definitions has its trace and its end.
pub fn edge_examples()
    ensures { EdgeExamples }
{}

/// Each model of nested directors has its trace, its end and its meetings.
pub fn nesting_examples()
    ensures { NestingExamples }
{}

/// A network of capacity 2 gets into a jam, and its one full channel holds two tokens.
pub fn jam_example()
    ensures { JamExample }
{}

/// The report of a run has all that a report promises, its closed log and its end among it.
pub fn report_example()
    ensures { ReportExample }
{}

/// A log with a token that nobody gave isn't closed.
pub fn unclosed_example()
    ensures { UnclosedExample }
{}

/// No report leaves out a token that a composite took in a firing under way.
pub fn understated_report_example()
    ensures { UnderstatedExample }
{}

/// No report tells a finished firing of a composite without what came within it.
pub fn hollow_report_example()
    ensures { HollowExample }
{}

/// No report tells a fault without what led to it.
pub fn causeless_report_example()
    ensures { CauselessExample }
{}

/// No report tells a fault with another number than that of the stuck firing.
pub fn misnumbered_report_example()
    ensures { MisnumberedExample }
{}

/// No report has the log of another run than its own.
pub fn report_of_another_run_example()
    ensures { OfAnotherRunExample }
{}

/// The logs of a model of each director, and of nested ones, are closed at any fuel.
pub fn closed_logs_examples()
    ensures { ClosedLogsExamples }
{}

/// What goes wrong in each model that isn't lawful, and that it isn't at its start, doesn't fit or isn't planned.
pub fn unlawful_examples()
    ensures { UnlawfulExamples }
{}
