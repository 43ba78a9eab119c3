// The laws of Rendezvous firings by index.

ghost use Rattle.pt_laws.specs.MeetingRuns.{ChangesAre, TargetsAre, NextIs, LegalIs, MeetIs, FiresAre, StartsAre, OrderIsPrefix, AskedInOrder, RvEnds, RvSticks, RvIsPrefix, RvAskedIsPrefix};

/// A list in which one entry is changed.
pub fn changes_are<T>()
    ensures { ChangesAre T }
{}

/// Where channels end, and which are those of a Barrier.
pub fn targets_are()
    ensures { TargetsAre }
{}

/// What a process does next.
pub fn next_is<T, S>()
    ensures { NextIs T S }
{}

/// Whether a meeting is legal.
pub fn legal_is<T, S>()
    ensures { LegalIs T S }
{}

/// What a meeting does, token by token.
pub fn meet_is<T, S>()
    ensures { MeetIs T S }
{}

/// What a process comes to that fires.
pub fn fires_are<T, S>()
    ensures { FiresAre T S }
{}

/// The channels of a source, and the start of a firing.
pub fn starts_are<T, S>()
    ensures { StartsAre T S }
{}

/// What the processes have logged in the middle is the beginning of the log of the firing.
pub fn order_is_prefix<T, S>()
    ensures { OrderIsPrefix T S }
{}

/// So it is with what a process logs within the firing that it was asked for.
pub fn asked_in_order<T, S>()
    ensures { AskedInOrder T S }
{}

/// A run at whose end all rest is the firing of the Rendezvous composite.
pub fn rv_ends<T, A>()
    ensures { RvEnds T A }
{}

/// Where a process is stuck, so is the Rendezvous composite, at its place.
pub fn rv_sticks<T, A>()
    ensures { RvSticks T A }
{}

/// What the processes of a Rendezvous composite have logged in the middle is the beginning of its log.
pub fn rv_is_prefix<T, A>()
    ensures { RvIsPrefix T A }
{}

/// So it is with what a process logs within the firing that it was asked for.
pub fn rv_asked_is_prefix<T, A>()
    ensures { RvAskedIsPrefix T A }
{}
