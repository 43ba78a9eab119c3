ghost use Rattle.pt_meaning.specs.Lawful.{LawfulRows};
ghost use Rattle.pt_lib_time.specs.TimeActor.{rows};
ghost use Rattle.pt_lib_time.specs.Laws.{StrictActorsWait, KnownInputsTellTheStep, SignalsAreGiven, NeedsAreOne, SteadyActorsStay};

/// The rows of the library are lawful: what an actor gives early grows with what is known, and is kept by its step.
#[tactic(auto, using(crate::proofs::RowLaws::rows_lawful))]
pub fn rows_are_lawful()
    ensures { LawfulRows rows }
{}

/// A strict actor lets nothing be known while an input is unknown.
pub fn strict_actors_wait()
    ensures { StrictActorsWait }
{}

/// Once all inputs are known each actor lets be known what its step gives, and nothing where that is stuck.
pub fn known_inputs_tell_the_step()
    ensures { KnownInputsTellTheStep }
{}

/// A firing gives one token at most, on the one output.
pub fn signals_are_given()
    ensures { SignalsAreGiven }
{}

/// A steady actor needs one token on each of its places, and any other, which is a Merge, one on any.
pub fn needs_are_one()
    ensures { NeedsAreOne }
{}

/// After a firing a steady actor needs what it needed, and is steady.
pub fn steady_actors_stay()
    ensures { SteadyActorsStay }
{}
