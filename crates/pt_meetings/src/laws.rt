ghost use Rattle.pt_meetings.specs.Laws.{ListsTellMeetings, BuiltNodesStand};

/// The lists of meetings of a tree tell what its nodes have recorded, where each node stands for its entity and no two nodes have one path.
pub fn lists_tell_meetings()
    ensures { ListsTellMeetings }
{}

/// The nodes that are built from a net stand for its entities.
pub fn built_nodes_stand()
    ensures { BuiltNodesStand }
{}
