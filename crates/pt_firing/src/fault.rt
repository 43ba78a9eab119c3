ghost use Rattle.std.specs.Prelude.{◌≡◌};
ghost use Rattle.pt_firing.specs.RunFault.{code_of};

use thiserror::Error;

/// Why a firing is stuck.
#[derive(Clone, Copy, PartialEq, Eq, Debug, Error)]
pub enum RunFault {
    #[error("a divisor is 0")]
    DivideByZero,
    #[error("a result is outside 64 bits")]
    Overflow,
    #[error("an index is not in the array or the channels")]
    Index,
    #[error("a token would be too large")]
    Size,
    #[error("a dataflow child gave another number of tokens than its rate")]
    Rate,
    #[error("a child gave two tokens on one port at one tag")]
    SecondToken,
    #[error("a signal stays unknown")]
    Causality,
    #[error("two guards that are tested together are enabled")]
    Ambiguous,
    #[error("a tag would pass the end of time")]
    TimeLimit,
    #[error("an array has another length than the actor states")]
    Length,
}

impl RunFault {
    /// The number that a report prints for the fault.
    pub fn code(self) -> u16
        ensures { result ≡ code_of self }
    {
        match self {
            RunFault::DivideByZero => 30,
            RunFault::Overflow => 31,
            RunFault::Index => 32,
            RunFault::Size => 33,
            RunFault::Rate => 34,
            RunFault::SecondToken => 35,
            RunFault::Causality => 36,
            RunFault::Ambiguous => 37,
            RunFault::TimeLimit => 38,
            RunFault::Length => 39,
        }
    }
}
