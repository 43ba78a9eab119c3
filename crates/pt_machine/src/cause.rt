use thiserror::Error;

/// Why a Modal entity has no machine.
#[derive(Clone, Copy, Debug, PartialEq, Eq, Error)]
pub enum Cause {
    #[error("there is no state")]
    NoState,
    #[error("no state has the name of the initial one")]
    Initial,
    #[error("a state names a refinement that isn't there")]
    Refinement,
    #[error("two states name one refinement")]
    SharedRefinement,
    #[error("no state names an entity that stands in it")]
    IdleChild,
    #[error("a library actor or a transparent composite stands in it")]
    PlainChild,
    #[error("a port of a refinement is none of its own, by name and direction")]
    Port,
    #[error("a transition leaves a state that isn't there")]
    From,
    #[error("a transition leads to a state that isn't there")]
    To,
    #[error("an output action names no output")]
    OutputAction,
    #[error("a set action names no Variable")]
    SetAction,
}
