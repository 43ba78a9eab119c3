ghost use Rattle.pt_events.specs.Examples.{EventExamples};
ghost use Rattle.pt_events.specs.Laws.{DepthsAreAlone, DepthsExcludeLoops, EntriesCount, TakesTheLeast};

/// A graph has one list of depths at most.
pub fn depths_are_alone()
    ensures { DepthsAreAlone }
{}

/// Where there are depths there is no directed loop.
pub fn depths_exclude_loops()
    ensures { DepthsExcludeLoops }
{}

/// What is taken at a tag is the entry of least depth, number and tag among those that are due.
pub fn what_is_taken_is_least()
    ensures { TakesTheLeast }
{}

/// A queue has the entries that were put, as often as they were, and the order in which they were put makes no difference.
pub fn equal_entries_count()
    ensures { EntriesCount }
{}

/// Queues and graphs that were worked by hand have what they should.
pub fn event_examples()
    ensures { EventExamples }
{}
