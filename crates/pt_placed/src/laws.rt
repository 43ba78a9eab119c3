ghost use Rattle.pt_placed.specs.Laws.{ActorsArePlaced, ActorsAreNotOver, ActorsAreCounted, CompositesAreCounted, TreesArePlaced, TreesAreCounted, CompositesAreWired, CompositesAreMet};

/// An actor of a net in order needs at its start a count for each of its places, or one token from any.
pub fn actors_are_placed()
    ensures { ActorsArePlaced }
{}

/// No actor is over at its start.
pub fn actors_are_not_over()
    ensures { ActorsAreNotOver }
{}

/// Where nothing is misplaced, and no director of Rendezvous is round it, it needs a count for each.
pub fn actors_are_counted()
    ensures { ActorsAreCounted }
{}

/// A composite needs a count for each of its own inputs.
pub fn composites_are_counted()
    ensures { CompositesAreCounted }
{}

/// In a composite with a director each tree has as many places as its need says.
pub fn trees_are_placed()
    ensures { TreesArePlaced }
{}

/// Where nothing is misplaced, and that director isn't Rendezvous, each needs a count for each place.
pub fn trees_are_counted()
    ensures { TreesAreCounted }
{}

/// Such a composite that has its channels is wired round its children.
pub fn composites_are_wired()
    ensures { CompositesAreWired }
{}

/// A composite of any director that has its channels meets its children, each of which has its places.
pub fn composites_are_met()
    ensures { CompositesAreMet }
{}
