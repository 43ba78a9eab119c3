// The laws of the core of the Modal director.

ghost use Rattle.pt_meaning.specs.Modal.{Chart};
ghost use Rattle.pt_meaning.specs.Tree.{Rows};
ghost use Rattle.pt_meaning.specs.Lawful.{LawfulRows};
ghost use Rattle.pt_value.specs.declared.token.Token.{Token};
ghost use Rattle.pt_core.specs.Lawful.{Lawful};
ghost use Rattle.pt_modal_laws.specs.Chain.{CallsAreModal};
ghost use Rattle.pt_modal_laws.specs.Comes.{AlwaysComes};
ghost use Rattle.pt_modal_laws.specs.ModalActs.{modal_acts};

/// A chain of calls makes the reaction of the composite: the preemptive guards, the refinement at its local tag, the other guards, and a reset where a transition has no history.
pub fn calls_are_modal<T, M, S>()
    ensures { (reads : M → Chart T) → CallsAreModal reads S }
{}

/// Where what comes next may be asked there is an answer that `ask` may give, if the guards and actions of the chart fail by faults of a run.
pub fn something_comes<M>()
    ensures { (reads : M → Chart Token) → AlwaysComes reads }
{}

/// The calls are lawful, however the machine is read as a chart: a driver of any director makes firings of Modal composites by a core that has them.
pub fn modal_is_lawful<M, A>()
    ensures { (reads : M → Chart Token) (rows : Rows Token A) → LawfulRows rows → Lawful (modal_acts reads rows) }
{}
