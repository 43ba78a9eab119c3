ghost use Rattle.pt_scopes.specs.Laws.{NetsAreOrdered, ValuedNetsAreClean, ValuesAreUnique};

/// The net of a job can be gone through in the order of the document.
pub fn nets_are_ordered()
    ensures { NetsAreOrdered }
{}

/// Where all texts of a net have what they come to, no cause to refuse it stands.
pub fn valued_nets_are_clean()
    ensures { ValuedNetsAreClean }
{}

/// The texts of a net come to one thing.
pub fn values_are_unique()
    ensures { ValuesAreUnique }
{}
