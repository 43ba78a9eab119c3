// There is one least solution, of ticks and of rounds, and one outcome of a job.

ghost use Rattle.pt_laws.specs.Uniqueness.{LeastIsOne, ValuationsSettle, SettledIsLeast, LeastIsSettled, LeastSolutionIsOne, SettledIsLeastSolution};
ghost use Rattle.pt_laws.specs.Outcomes.{OneOutcome, ReportsAgree};

/// Two least valuations of a tick are the same.
pub fn least_is_one<T, S>()
    ensures { LeastIsOne T S }
{}

/// After as many rounds as there are channels no more becomes known at a tick.
pub fn valuations_settle<T, S>()
    ensures { ValuationsSettle T S }
{}

/// What is known where no more becomes known is the least valuation.
pub fn settled_is_least<T, S>()
    ensures { SettledIsLeast T S }
{}

/// Each least valuation is what is known where no more becomes known.
pub fn least_is_settled<T, S>()
    ensures { LeastIsSettled T S }
{}

/// Two least solutions of a network are the same.
pub fn least_solution_is_one<T, S>()
    ensures { LeastSolutionIsOne T S }
{}

/// A settled round is the least solution.
pub fn settled_is_least_solution<T, S>()
    ensures { SettledIsLeastSolution T S }
{}

/// A meaning that ends has no other end, no stuck place, and one whole log.
pub fn one_outcome<T, A>()
    ensures { OneOutcome T A }
{}

/// A report of a job that ends tells no fault, and no other end.
pub fn reports_agree<T, A>()
    ensures { ReportsAgree T A }
{}
