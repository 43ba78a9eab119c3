ghost use Rattle.pt_kinds.specs.Directors.{DirectorsOnlyMove};

/// SDF, PN, SR, DE and Rendezvous only move tokens: each token that a child takes or that comes to an own output was given by the source of its channel, or stood there at the start.
pub fn directors_only_move<T, S>()
    ensures { DirectorsOnlyMove T S }
{}
