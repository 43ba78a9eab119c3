// The laws by which a core of the PN director keeps its processes one by one.

ghost use Rattle.pt_pn_work.specs.Seen.{EventsAreSeen, BestGrows};

/// What one process does, and the channel of its event, make the events of the network.
pub fn events_are_seen()
    ensures { EventsAreSeen }
{}

/// Of the channels that processes wait to put on the best one grows, as it is found by a look at each process once.
pub fn the_best_grows()
    ensures { BestGrows }
{}
