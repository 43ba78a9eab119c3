//! The laws of what a model means: each is the contract of a public function, which has no code.
#![tactic(auto)]

mod closed;
mod composites;
mod heights;
mod jams;
mod logs;
mod meetings;
mod settled;
mod ticks;
mod uniqueness;

ghost use Rattle.pt_laws.specs.Schemes.{RoundsKeep, ValuationsKeep, MeetingsKeep, CasesKeep};
ghost use Rattle.pt_laws.specs.PromisesOfOrder.{OrderBegins, OrderFires, OrderMeets, OrderEnds, OrderSticks};
ghost use Rattle.pt_laws.specs.Promises.{MoreFuel, StuckIsStuck, RoundsAreLeast, SettledIsSolution, ValuationsAreLeast, LeastIsFixed, RunBegins, RunGoesOn, RunEnds, RunSticks, LegalStays, PhasesJoin, RestIsSolution, GetKeeps, PutKeeps, FireKeeps, PutsAre, StoppedIsDone, MeaningGrows, MoreLevels};

pub use closed::{
    closed_at_paths, firings_are_whole, firings_come_later, firings_keep_closed, later_goes_on,
    levels_go_on, logs_are_closed, meaning_is_closed, meaning_is_whole, part_is_closed,
    started_logs_are_closed, started_logs_are_shut,
};
pub use composites::{
    actors_react, pn_ends, pn_is_prefix, pn_sticks, run_grows, sdf_ends, sdf_is_prefix, sdf_sticks,
    steps_grow,
};
pub use heights::{
    firing_keeps_height, levels_agree, reset_keeps_height, step_is_at_any_level, step_keeps_height,
};
pub use jams::{
    full_lines_tell, gets_follow_puts, last_puts_are_told, lines_tell, places_are_told,
};
pub use logs::{
    asked_fires, asked_is_prefix, counts_add, firings_have_records, logs_stay, run_begins_with,
    run_ends_with, run_goes_on_with, run_is_prefix, run_sticks_with, traces_add,
};
pub use meetings::{
    asked_in_order, changes_are, fires_are, legal_is, meet_is, next_is, order_is_prefix,
    rv_asked_is_prefix, rv_ends, rv_is_prefix, rv_sticks, starts_are, targets_are,
};
pub use settled::{
    cut_law, pn_firing_is_run, rounds_count, runs_join, sdf_firing_is_run, settled_is_run,
};
pub use ticks::{
    de_ends, de_is_prefix, de_lacks, de_sticks, de_turns, reaction_is, rows_are, rows_go_on,
    sr_ends, sr_is_prefix, sr_lacks, sr_sticks, sr_turns, tick_begins, tick_ends, tick_goes_on,
    tick_is_prefix, tick_lacks, tick_sticks,
};
pub use uniqueness::{
    least_is_one, least_is_settled, least_solution_is_one, one_outcome, reports_agree,
    settled_is_least, settled_is_least_solution, valuations_settle,
};

/// At a greater fuel what is done stays as it is, logs grow, and stuck places become more, through any nesting of all directors and under any meetings.
pub fn more_fuel<T, A>()
    ensures { MoreFuel T A }
{}

/// A step with a stuck place is done at no fuel.
pub fn stuck_is_stuck<T, A>()
    ensures { StuckIsStuck T A }
{}

/// Rounds stay below every solution of a network.
pub fn rounds_are_least<T, S>()
    ensures { RoundsAreLeast T S }
{}

/// A settled round is a solution.
pub fn settled_is_solution<T, S>()
    ensures { SettledIsSolution T S }
{}

/// Valuations stay below every one that keeps what its reactions give.
pub fn valuations_are_least<T, S>()
    ensures { ValuationsAreLeast T S }
{}

/// A valuation that the next one knows no more than is what its reactions give.
pub fn least_is_fixed<T, S>()
    ensures { LeastIsFixed T S }
{}

/// A run of firings of children begins with none.
pub fn run_begins<T, S>()
    ensures { RunBegins T S }
{}

/// A run goes on by a firing of any child that can fire.
pub fn run_goes_on<T, S>()
    ensures { RunGoesOn T S }
{}

/// A run that ends where no child can fire is the settled round.
pub fn run_ends<T, S>()
    ensures { RunEnds T S }
{}

/// A child that is stuck in a run makes the composite stuck at its place.
pub fn run_sticks<T, S>()
    ensures { RunSticks T S }
{}

/// A legal meeting stays legal until one of its parties takes part in another.
pub fn legal_stays<T, S>()
    ensures { LegalStays T S }
{}

/// From any place in the middle of a PN firing the rest of the solution is the solution without what was used before.
pub fn phases_join<T, S>()
    ensures { PhasesJoin T S }
{}

/// A settled rest makes the solution from the start.
pub fn rest_is_solution<T, S>()
    ensures { RestIsSolution T S }
{}

/// A get keeps places consistent.
pub fn get_keeps<T, S>()
    ensures { GetKeeps T S }
{}

/// A put keeps places consistent.
pub fn put_keeps<T, S>()
    ensures { PutKeeps T S }
{}

/// A firing keeps places consistent.
pub fn fire_keeps<T, S>()
    ensures { FireKeeps T S }
{}

/// The puts of a firing give each channel what its port gave.
pub fn puts_are<T>()
    ensures { PutsAre T }
{}

/// Where all processes stop without a put to make, no child can fire.
pub fn stopped_is_done<T, S>()
    ensures { StoppedIsDone T S }
{}

/// The log of a job grows with the fuel, and its end and its stuck places stay.
pub fn meaning_grows<T, A>()
    ensures { MeaningGrows T A }
{}

/// A firing that is done is the same with more levels allowed.
pub fn more_levels<T, A>()
    ensures { MoreLevels T A }
{}

/// A Rendezvous firing in any order begins with no event.
pub fn order_begins<T, S>()
    ensures { OrderBegins T S }
{}

/// It goes on by a firing of any process.
pub fn order_fires<T, S>()
    ensures { OrderFires T S }
{}

/// It goes on by any legal meeting.
pub fn order_meets<T, S>()
    ensures { OrderMeets T S }
{}

/// Where all rest and no meeting is legal it is the firing under the meetings made.
pub fn order_ends<T, S>()
    ensures { OrderEnds T S }
{}

/// A process that is stuck in it makes the composite stuck at that place.
pub fn order_sticks<T, S>()
    ensures { OrderSticks T S }
{}

/// The scheme of rounds keeps the fuel law.
pub fn rounds_keep<T, S>()
    ensures { RoundsKeep T S }
{}

/// The scheme of least valuations keeps the fuel law.
pub fn valuations_keep<T, S>()
    ensures { ValuationsKeep T S }
{}

/// The scheme of meetings keeps the fuel law.
pub fn meetings_keep<T, S>()
    ensures { MeetingsKeep T S }
{}

/// The cases of a Modal keep the fuel law.
pub fn cases_keep<T, S>()
    ensures { CasesKeep T S }
{}
