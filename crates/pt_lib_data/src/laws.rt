ghost use Rattle.pt_meaning.specs.Lawful.{LawfulRows};
ghost use Rattle.pt_lib_data.specs.DataActor.{rows};
ghost use Rattle.pt_lib_data.specs.Laws.{SteadyActorsStay, NeedsAreBounded, RatesAreBounded, RatesAreGiven};

/// The rows of the library are lawful: what an actor gives early grows with what is known, and is kept by its step.
#[tactic(auto, using(crate::proofs::RowLaws::rows_lawful))]
pub fn rows_are_lawful()
    ensures { LawfulRows rows }
{}

/// After a firing a steady actor needs what it needed, and is steady.
pub fn steady_actors_stay()
    ensures { SteadyActorsStay }
{}

/// An actor that is started needs from 1 to 1,000,000 tokens at each of its places.
pub fn needs_are_bounded()
    ensures { NeedsAreBounded }
{}

/// The rates of an actor that is started are from 1 to 1,000,000.
pub fn rates_are_bounded()
    ensures { RatesAreBounded }
{}

/// A firing gives on each output as many tokens as its rate, or none.
pub fn rates_are_given()
    ensures { RatesAreGiven }
{}
