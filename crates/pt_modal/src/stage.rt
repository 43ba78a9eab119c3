use pt_firing::RunFault;

/// How far a reaction has come.
#[derive(Clone, Copy, Debug)]
pub(crate) enum Stage {
    /// None is under way.
    Idle,
    /// The refinement is to fire, and what it takes is at hand.
    Due(u32),
    /// It was asked to fire, and isn't told yet.
    Asked(u32),
    /// A transition without history was taken, and the refinement of its target is to be brought back to its start.
    Resets(u32),
    /// It is known what the own outputs have.
    Over,
    /// They may be handed out.
    Closed,
    /// A guard or an action has a fault, or two guards are enabled.
    Failed(RunFault),
}
