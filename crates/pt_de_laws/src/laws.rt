// The laws of the core of the DE director.

ghost use Rattle.pt_meaning.specs.Tree.{Rows};
ghost use Rattle.pt_meaning.specs.Lawful.{LawfulRows};
ghost use Rattle.pt_value.specs.declared.token.Token.{Token};
ghost use Rattle.pt_core.specs.Lawful.{Lawful};
ghost use Rattle.pt_de_laws.specs.Chain.{CallsAreDe};
ghost use Rattle.pt_de_laws.specs.Comes.{AlwaysComes};
ghost use Rattle.pt_de_laws.specs.DeActs.{de_acts};

/// A chain of calls makes the reaction of the composite: children in order of depth, and those with delays early and last.
pub fn calls_are_de<T, S>()
    ensures { CallsAreDe T S }
{}

/// Where what comes next is open, a child may be asked to fire or for an early answer, or each has had its turn: so there is an answer that `ask` may give.
pub fn something_comes<T>()
    ensures { AlwaysComes T }
{}

/// The calls are lawful: a driver of any director makes firings of DE composites by a core that has them.
pub fn de_is_lawful<A>()
    ensures { (rows : Rows Token A) → LawfulRows rows → Lawful (de_acts rows) }
{}
