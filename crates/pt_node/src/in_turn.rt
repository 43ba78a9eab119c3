ghost use Rattle.pt_node.specs.InTurn.{NotesAddUp};

/// Firings whose notes were made together are recorded as they are one after another.
pub fn notes_add_up()
    ensures { NotesAddUp }
{}
