ghost use Rattle.pt_stated.specs.Laws.{StatedIsLawful, ProcessesAreStated};

/// What an entity states is lawful, with a rate for each of its own ports, and with capacities where it is a process network.
pub fn stated_is_lawful()
    ensures { StatedIsLawful }
{}

/// Where the texts of a net come to its values, each composite of processes states its numbers.
pub fn processes_are_stated()
    ensures { ProcessesAreStated }
{}
