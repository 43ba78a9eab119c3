ghost use Rattle.pt_machine.specs.Laws.{MachinesAreClean, MachinesSuit};

/// A Modal entity with a machine is at no fault.
pub fn machines_are_clean()
    ensures { MachinesAreClean }
{}

/// A machine suits the refinements of its Modal entity.
pub fn machines_suit()
    ensures { MachinesSuit }
{}
