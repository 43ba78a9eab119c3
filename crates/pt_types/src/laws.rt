ghost use Rattle.pt_datatypes.specs.Laws.{TypesAreOrdered, JoinsAreLeast, TypesGrow, PartsStandForTypes};

/// Types are partially ordered, with a least and a greatest one.
pub fn types_are_ordered()
    ensures { TypesAreOrdered }
{}

/// The join of two types is the least type above both.
pub fn joins_are_least()
    ensures { JoinsAreLeast }
{}

/// Arrays, records and joins grow with their parts.
pub fn types_grow()
    ensures { TypesGrow }
{}

/// The parts of an array or a record may be taken as they are written, or as the types that they stand for.
pub fn parts_stand_for_types()
    ensures { PartsStandForTypes }
{}
