// The law that joins a chain of calls of a core to the definition of SR.

ghost use Rattle.pt_sr.specs.Chain.{CallsAreSr};

/// A chain of calls makes the firing of the composite: `begin` begins it, `ask` with `told` and `hears` goes on with it, and where it is finished or stuck so is the firing.
pub fn calls_are_sr<T, S>()
    ensures { CallsAreSr T S }
{}
