// The laws of the core of the PN director.

ghost use Rattle.pt_meaning.specs.Tree.{Rows};
ghost use Rattle.pt_meaning.specs.Lawful.{LawfulRows};
ghost use Rattle.pt_value.specs.declared.token.Token.{Token};
ghost use Rattle.pt_core.specs.Lawful.{Lawful};
ghost use Rattle.pt_pn_laws.specs.Chain.{CallsArePn};
ghost use Rattle.pt_pn_laws.specs.SoFar.{FiringsArePn};
ghost use Rattle.pt_pn_laws.specs.Comes.{AlwaysComes};
ghost use Rattle.pt_pn_laws.specs.PnActs.{pn_acts};

/// A chain of events and calls makes the firing of the composite: processes get, fire and put in any order, and full channels grow where none goes further.
pub fn calls_are_pn<T, S>()
    ensures { CallsArePn T S }
{}

/// So it does of a composite of a tree, with what is kept of its children, and what is left off is shut.
pub fn firings_are_pn<T, A>()
    ensures { FiringsArePn T A }
{}

/// Where processes gather as they need, a process may get, put or fire, a channel may grow, the network is full, or the firing is over.
pub fn something_comes<T>()
    ensures { AlwaysComes T }
{}

/// The calls are lawful: a driver of any director makes firings of process networks by a core that has them.
pub fn pn_is_lawful<A>()
    ensures { (rows : Rows Token A) → LawfulRows rows → Lawful (pn_acts rows) }
{}
