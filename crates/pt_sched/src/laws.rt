ghost use Rattle.pt_sched.specs.Laws.{StuckRunsAgree, DeadlocksExcludeSchedules, RunsKeepLengths, SchedulesRestoreLengths};

/// No run gets ahead of one that is stuck, so two that are stuck have the same firings, whatever their orders are.
pub fn stuck_runs_agree()
    ensures { StuckRunsAgree }
{}

/// Where one run comes to a deadlock, no order is a schedule.
pub fn deadlocks_exclude_schedules()
    ensures { DeadlocksExcludeSchedules }
{}

/// No run takes more tokens from a channel than were put on it.
pub fn runs_keep_lengths()
    ensures { RunsKeepLengths }
{}

/// After a schedule of balanced repetitions each channel holds as many tokens as at first.
pub fn schedules_restore_lengths()
    ensures { SchedulesRestoreLengths }
{}
