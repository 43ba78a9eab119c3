ghost use Rattle.pt_modal_types.specs.Laws.{MachinesAreTyped, MachinesKeepTypes};

/// The guards and actions of a machine have types, where those of its Modal entity have them in the net.
pub fn machines_are_typed()
    ensures { MachinesAreTyped }
{}

/// From tokens of the types of the outputs and Variables the actions of a machine give such tokens alone.
pub fn machines_keep_types()
    ensures { MachinesKeepTypes }
{}
