// The laws of closed logs: each token taken has its cause, as often as it was taken and in order; what came within a firing came within one that is finished or under way; and of what is finished all is there.

ghost use Rattle.pt_laws.specs.ClosedRuns.{FiringsKeepClosed, MeaningIsClosed, ClosedAtPaths, LevelsGoOn};
ghost use Rattle.pt_laws.specs.WholeRuns.{LaterGoesOn, FiringsComeLater, FiringsAreWhole, MeaningIsWhole, PartIsClosed, LogsAreClosed};
ghost use Rattle.pt_laws.specs.StartedRuns.{StartedLogsAreClosed, StartedLogsAreShut};

/// A firing keeps logs closed, under any director, while it is under way and where it is done.
pub fn firings_keep_closed<T, A>()
    ensures { FiringsKeepClosed T A }
{}

/// The log of a run of the top is closed at any fuel, and the top's firing under way is the job's next.
pub fn meaning_is_closed<T, A>()
    ensures { MeaningIsClosed T A }
{}

/// What is closed level by level is so at each path.
pub fn closed_at_paths<T, A>()
    ensures { ClosedAtPaths T A }
{}

/// A closed log goes on by a firing of its composite, of which the children have logged a part or all.
pub fn levels_go_on<T, A>()
    ensures { LevelsGoOn T A }
{}

/// What comes later, level by level and firing by firing.
pub fn later_goes_on<T>()
    ensures { LaterGoesOn T }
{}

/// A firing logs later than what was before.
pub fn firings_come_later<T, A>()
    ensures { FiringsComeLater T A }
{}

/// What a firing logs at a greater fuel comes later than what it logs at a smaller one.
pub fn firings_are_whole<T, A>()
    ensures { FiringsAreWhole T A }
{}

/// The log of a run of the top at a greater fuel goes on behind that at a smaller one, and later.
pub fn meaning_is_whole<T, A>()
    ensures { MeaningIsWhole T A }
{}

/// A log that is closed level by level, and behind which the whole goes on later, is closed as a part of the whole.
pub fn part_is_closed<T, A>()
    ensures { PartIsClosed T A }
{}

/// The log of a run of the top at any fuel is closed, as a part of that at each greater one.
pub fn logs_are_closed<T, A>()
    ensures { LogsAreClosed T A }
{}

/// So it is of the log of each model that is run from its start.
pub fn started_logs_are_closed<T, A>()
    ensures { StartedLogsAreClosed T A }
{}

/// A log of the meaning is closed as a part of that at each fuel of which it is a beginning, as a report asks.
pub fn started_logs_are_shut<T, A>()
    ensures { StartedLogsAreShut T A }
{}
