// The law that joins a chain of calls of a core to the definition of SDF.

ghost use Rattle.pt_sdf.specs.Chain.{CallsAreSdf};

/// A chain of calls makes the firing of the composite: `begin` begins it, `ask` and `told` go on with it, and where it is finished or stuck so is the firing.
pub fn calls_are_sdf<T, S>()
    ensures { CallsAreSdf T S }
{}
