// The laws of ticks whose children fire in any order.

ghost use Rattle.pt_laws.specs.TickRuns.{TickBegins, TickGoesOn, ReactionIs, TickEnds, TickLacks, TickSticks, TickIsPrefix};
ghost use Rattle.pt_laws.specs.CompositeTicks.{SrTurns, DeTurns, RowsGoOn, RowsAre, SrEnds, DeEnds, SrLacks, DeLacks, SrSticks, DeSticks, SrIsPrefix, DeIsPrefix};

/// A tick begins with nothing known.
pub fn tick_begins<T, S>()
    ensures { TickBegins T S }
{}

/// It goes on by what the sources of any channels tell.
pub fn tick_goes_on<T, S>()
    ensures { TickGoesOn T S }
{}

/// What a child tells, by how it stands.
pub fn reaction_is<T, S>()
    ensures { ReactionIs T S }
{}

/// Where each child has fired or rests, the tick is done.
pub fn tick_ends<T, S>()
    ensures { TickEnds T S }
{}

/// Where some wait for ever, the tick is stuck.
pub fn tick_lacks<T, S>()
    ensures { TickLacks T S }
{}

/// Where a child is stuck, so is the tick.
pub fn tick_sticks<T, S>()
    ensures { TickSticks T S }
{}

/// What the children have logged in the middle is the beginning of the log of the tick.
pub fn tick_is_prefix<T, S>()
    ensures { TickIsPrefix T S }
{}

/// The turn of a child under SR.
pub fn sr_turns<T, S>()
    ensures { SrTurns T S }
{}

/// The turn of a child under DE.
pub fn de_turns<T, S>()
    ensures { DeTurns T S }
{}

/// The rows of a turn are fired one after another.
pub fn rows_go_on<T, S>()
    ensures { RowsGoOn T S }
{}

/// How many rows lists have, and what is in each.
pub fn rows_are<T>()
    ensures { RowsAre T }
{}

/// A tick in which each child has fired is the firing of the SR composite.
pub fn sr_ends<T, A>()
    ensures { SrEnds T A }
{}

/// A tick in which each child has fired or rests is the firing of the DE composite.
pub fn de_ends<T, A>()
    ensures { DeEnds T A }
{}

/// Where a channel stays unknown, the SR composite is stuck with 36.
pub fn sr_lacks<T, A>()
    ensures { SrLacks T A }
{}

/// Where a channel stays unknown, the DE composite is stuck without a place.
pub fn de_lacks<T, A>()
    ensures { DeLacks T A }
{}

/// Where a child is stuck, so is the SR composite, at the place of the child.
pub fn sr_sticks<T, A>()
    ensures { SrSticks T A }
{}

/// Where a child is stuck, so is the DE composite, at the place of the child.
pub fn de_sticks<T, A>()
    ensures { DeSticks T A }
{}

/// What the children of an SR composite have logged in the middle of a tick is the beginning of its log.
pub fn sr_is_prefix<T, A>()
    ensures { SrIsPrefix T A }
{}

/// What the children of a DE composite have logged in the middle of a tick is the beginning of its log.
pub fn de_is_prefix<T, A>()
    ensures { DeIsPrefix T A }
{}
