// What the events of a PN firing tell of its places, and the full lines of a jam.

ghost use Rattle.pt_laws.specs.PlacesTold.{PlacesAreTold, LinesTell, FullLinesTell, LastPutsAreTold, GetsFollowPuts};

/// On each channel what was given is what was used, gathered, is in the queue, or is still to be put.
pub fn places_are_told<T, S>()
    ensures { PlacesAreTold T S }
{}

/// A full line is of a channel that a process waits for, with its length, and each such channel has one.
pub fn lines_tell<T>()
    ensures { LinesTell T }
{}

/// In a jam the number on a full line is that of the tokens given, without those used, gathered or still to be put.
pub fn full_lines_tell<T, S>()
    ensures { FullLinesTell T S }
{}

/// The puts that a process has still to make are the last ones of its last firing.
pub fn last_puts_are_told<T, S>()
    ensures { LastPutsAreTold T S }
{}

/// In a jam what a receiver has got is the beginning of what its channel held and of the puts made, and the rest is in the queue.
pub fn gets_follow_puts<T, S>()
    ensures { GetsFollowPuts T S }
{}
