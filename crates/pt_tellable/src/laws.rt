ghost use Rattle.pt_tellable.specs.Laws.{TextsAreOwn, MeetingsCanBeTold, ListsHaveForm};

/// No two nodes of a tree that is built from the net of a document have one path.
pub fn texts_are_own()
    ensures { TextsAreOwn }
{}

/// There is a line for each recorded meeting of such a tree.
pub fn meetings_can_be_told()
    ensures { MeetingsCanBeTold }
{}

/// Lists of meetings of such a tree have the form of a report.
pub fn lists_have_form()
    ensures { ListsHaveForm }
{}
