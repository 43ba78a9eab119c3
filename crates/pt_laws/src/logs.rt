// The laws of the logs of runs, and of how a log is read.

ghost use Rattle.pt_laws.specs.LogsOfRuns.{RunBeginsWith, AskedFires, FiringsHaveRecords, RunGoesOnWith, RunEndsWith, RunSticksWith, RunIsPrefix, AskedIsPrefix, LogsStay, TracesAdd, CountsAdd};

/// A run of firings of children begins with silent logs.
pub fn run_begins_with<T, S>()
    ensures { RunBeginsWith T S }
{}

/// A child that has what it needs, and whose step is done, fires, with its record and what it logged within.
pub fn asked_fires<T, S>()
    ensures { AskedFires T S }
{}

/// Each firing has its record and what it logged within.
pub fn firings_have_records<T, S>()
    ensures { FiringsHaveRecords T S }
{}

/// A run goes on by a firing of a child, whose log goes on by what it logged within and by its record.
pub fn run_goes_on_with<T, S>()
    ensures { RunGoesOnWith T S }
{}

/// A run that ends where no child can fire is the whole firing, with the logs of the children as its log.
pub fn run_ends_with<T, S>()
    ensures { RunEndsWith T S }
{}

/// Where a child is stuck in a run, the firing is stuck at its place, and its log has at least what the children have logged.
pub fn run_sticks_with<T, S>()
    ensures { RunSticksWith T S }
{}

/// What the children have logged in the middle of a run is the beginning of the firing's log.
pub fn run_is_prefix<T, S>()
    ensures { RunIsPrefix T S }
{}

/// So it is with what a child logs within the firing that it was asked for.
pub fn asked_is_prefix<T, S>()
    ensures { AskedIsPrefix T S }
{}

/// A firing's log stays where its rates are checked and where its child is numbered.
pub fn logs_stay<T, S>()
    ensures { LogsStay T S }
{}

/// Traces of logs that are put together.
pub fn traces_add<T, S>()
    ensures { TracesAdd T S }
{}

/// Numbers of finished firings of logs that are put together.
pub fn counts_add<T>()
    ensures { CountsAdd T }
{}
