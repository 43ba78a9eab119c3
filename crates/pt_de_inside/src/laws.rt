ghost use Rattle.pt_de_inside.specs.Laws.{InsidesAreFormed, PlansFit, PlansMakeCores, PlansSuit};

/// The inside of a DE composite that is wired is well formed.
pub fn insides_are_formed()
    ensures { InsidesAreFormed }
{}

/// A lawful plan of it suits its children, whatever they fire.
pub fn plans_suit()
    ensures { PlansSuit }
{}

/// Where there is one, the core of the composite is that of DE.
pub fn plans_make_cores()
    ensures { PlansMakeCores }
{}

/// A core that starts with the plan of a composite fits the children, and its wakes are theirs.
pub fn plans_fit()
    ensures { PlansFit }
{}
