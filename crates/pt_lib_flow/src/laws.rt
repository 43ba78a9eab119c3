ghost use Rattle.pt_meaning.specs.Lawful.{LawfulRows};
ghost use Rattle.pt_lib_flow.specs.FlowActor.{rows};
ghost use Rattle.pt_lib_flow.specs.Laws.{SteadyActorsStay, SteadyNeedsAreCounts, RatesAreCounts, RatesAreGiven};

/// The rows of the library are lawful: what an actor gives early grows with what is known, and is kept by its step.
#[tactic(auto, using(crate::proofs::RowLaws::rows_lawful))]
pub fn rows_are_lawful()
    ensures { LawfulRows rows }
{}

/// After a firing a steady actor needs what it needed, and is steady.
pub fn steady_actors_stay()
    ensures { SteadyActorsStay }
{}

/// A steady actor, once it is started, needs from 1 to 1,000,000 tokens at each of its places.
pub fn steady_needs_are_counts()
    ensures { SteadyNeedsAreCounts }
{}

/// The rate of an actor that is started is from 1 to 1,000,000.
pub fn rates_are_counts()
    ensures { RatesAreCounts }
{}

/// A firing on as many tokens as the actor needs gives as many as its rate, or none.
pub fn rates_are_given()
    ensures { RatesAreGiven }
{}
