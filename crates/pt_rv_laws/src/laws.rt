// The laws of the core of the Rendezvous director.

ghost use Rattle.pt_meaning.specs.Tree.{Rows};
ghost use Rattle.pt_meaning.specs.Lawful.{LawfulRows};
ghost use Rattle.pt_value.specs.declared.token.Token.{Token};
ghost use Rattle.pt_core.specs.Lawful.{Lawful};
ghost use Rattle.pt_rv_laws.specs.Chain.{CallsAreRv};
ghost use Rattle.pt_rv_laws.specs.Apart.{MeetingsAreApart};
ghost use Rattle.pt_rv_laws.specs.SoFar.{FiringsAreRv};
ghost use Rattle.pt_rv_laws.specs.Comes.{AlwaysComes};
ghost use Rattle.pt_rv_laws.specs.RvActs.{rv_acts};

/// A chain of calls makes the firing of the composite: processes fire and meet in any order.
pub fn calls_are_rv<T, S>()
    ensures { CallsAreRv T S }
{}

/// A meeting moves its parties alone, and legal meetings without a party in common leave each other legal.
pub fn meetings_are_apart<T, S>()
    ensures { MeetingsAreApart T S }
{}

/// A chain of calls makes the firing of a composite of a tree too, with what is kept of its children and of the meetings, and what is left off is shut.
pub fn firings_are_rv<T, A>()
    ensures { FiringsAreRv T A }
{}

/// In each state a process may fire, a meeting is legal, or the firing is over.
pub fn something_comes<T>()
    ensures { AlwaysComes T }
{}

/// The calls are lawful: a driver that records meetings makes firings of Rendezvous composites by a core that has them.
pub fn rv_is_lawful<A>()
    ensures { (rows : Rows Token A) → LawfulRows rows → Lawful (rv_acts rows) }
{}
