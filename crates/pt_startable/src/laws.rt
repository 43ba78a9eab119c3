ghost use Rattle.pt_startable.specs.Laws.{ClassesAreOfLibraries, LibraryActorsStart};

/// A library has each class of actors that a document may have.
pub fn classes_are_of_libraries()
    ensures { ClassesAreOfLibraries }
{}

/// In the net of a document whose texts come to values and whose typing breaks nowhere each entity that is no composite starts as an actor.
pub fn library_actors_start()
    ensures { LibraryActorsStart }
{}
