ghost use Rattle.pt_meaning.specs.Lawful.{LawfulRows};
ghost use Rattle.pt_library.specs.LibraryActor.{rows};
ghost use Rattle.pt_library.specs.Laws.{ClassesAreOfOneLibrary, ToldActorsAreSteady, ToldActorsAreStrict, PlacesStay, AnyNeedsStay, SteadyNeedsAreCounts, RatesAreCounts, RatesAreGiven};
ghost use Rattle.pt_library.specs.Delays.{DelaysTellEarly, DelaysAreWhole, DelaysStay};

/// The rows of all libraries are lawful, since those of each are.
#[tactic(auto, using(crate::proofs::RowLaws::rows_lawful))]
pub fn rows_are_lawful()
    ensures { LawfulRows rows }
{}

/// A class of one library is none of another.
pub fn classes_are_of_one_library()
    ensures { ClassesAreOfOneLibrary }
{}

/// An actor that its library tells to be steady needs the same at each firing, whatever it fires, and takes any inputs.
pub fn told_actors_are_steady()
    ensures { ToldActorsAreSteady }
{}

/// An actor that its library tells to be strict gives nothing early while an input is unknown, whatever it fires.
pub fn told_actors_are_strict()
    ensures { ToldActorsAreStrict }
{}

/// An actor has as many places whatever it fires.
pub fn places_stay()
    ensures { PlacesStay }
{}

/// An actor that needs a token at any one place does so whatever it fires, and no other one ever does.
pub fn any_needs_stay()
    ensures { AnyNeedsStay }
{}

/// A steady actor, once it is started, needs from 1 to 1,000,000 tokens at each of its places.
pub fn steady_needs_are_counts()
    ensures { SteadyNeedsAreCounts }
{}

/// The rates of an actor that is started are from 1 to 1,000,000.
pub fn rates_are_counts()
    ensures { RatesAreCounts }
{}

/// A firing on as many tokens as the actor needs gives on each output as many as its rate, or none.
pub fn rates_are_given()
    ensures { RatesAreGiven }
{}

/// An actor that takes its lists whole lets all its outputs be known as soon as each place is known that isn't a delay.
pub fn delays_tell_early()
    ensures { DelaysTellEarly }
{}

/// Only actors that take their lists whole have delays.
pub fn delays_are_whole()
    ensures { DelaysAreWhole }
{}

/// Whatever an actor fires, it takes its lists whole where it did, and has the same delays.
pub fn delays_stay()
    ensures { DelaysStay }
{}
