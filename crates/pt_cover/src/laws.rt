ghost use Rattle.pt_cover.specs.Laws.{ActorsOfDocumentsAreLeaves, NetsAreNested, PortsAreNumbered, PortsHavePlaces, TextsAreAtPaths, PathsAreDistinct};

/// In the job of a document only Composites and Modal entities have entities within them.
pub fn actors_of_documents_are_leaves()
    ensures { ActorsOfDocumentsAreLeaves }
{}

/// In the net of a job whose library actors have nothing within them, composites stand before what is in them.
pub fn nets_are_nested()
    ensures { NetsAreNested }
{}

/// Each recorded port of such a net has its number in the tree that is built from it, once.
pub fn ports_are_numbered()
    ensures { PortsAreNumbered }
{}

/// In the order of their numbers the recorded ports of the tree are those of the net, each at the node of its entity.
pub fn ports_have_places()
    ensures { PortsHavePlaces }
{}

/// To each entity leads one path of the tree, at which the text of its own path stands.
pub fn texts_are_at_paths()
    ensures { TextsAreAtPaths }
{}

/// In the net of a document no two entities have one path as a text.
pub fn paths_are_distinct()
    ensures { PathsAreDistinct }
{}
