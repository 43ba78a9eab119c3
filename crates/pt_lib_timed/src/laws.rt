ghost use Rattle.pt_meaning.specs.Lawful.{LawfulRows};
ghost use Rattle.pt_lib_timed.specs.TimedActor.{rows};
ghost use Rattle.pt_lib_timed.specs.Laws.{DelaysTellEarly, DelaysAreWhole, ActorsStay, StrictActorsWait, NeedsAreOne};

/// The rows of the library are lawful: what an actor gives early grows with what is known, and is kept by its step.
#[tactic(auto, using(crate::proofs::RowLaws::rows_lawful))]
pub fn rows_are_lawful()
    ensures { LawfulRows rows }
{}

/// An actor that takes its lists whole lets all its outputs be known as soon as each place is known that isn't a delay.
pub fn delays_tell_early()
    ensures { DelaysTellEarly }
{}

/// Only actors that take their lists whole have delays.
pub fn delays_are_whole()
    ensures { DelaysAreWhole }
{}

/// After a firing an actor takes its lists whole where it did, has the same delays, and needs what it needed.
pub fn actors_stay()
    ensures { ActorsStay }
{}

/// A strict actor lets nothing be known while an input is unknown.
pub fn strict_actors_wait()
    ensures { StrictActorsWait }
{}

/// An actor needs one token on each of its places.
pub fn needs_are_one()
    ensures { NeedsAreOne }
{}
