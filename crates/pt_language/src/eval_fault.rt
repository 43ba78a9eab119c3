use std::alloc::AllocError;
use thiserror::Error;

/// Why an expression gives no token.
#[derive(Clone, Copy, Debug, PartialEq, Eq, Error)]
pub enum EvalFault {
    #[error("division by zero")]
    DivideByZero,
    #[error("a number outside 64 bits")]
    Overflow,
    #[error("an index outside its array")]
    Index,
    #[error("a token above the greatest size")]
    Size,
    /// The name of a port that has no token.
    #[error("a port without a token")]
    Absent,
    #[error("out of memory")]
    Memory,
}

impl From<AllocError> for EvalFault {
    ghost use Rattle.std.specs.Prelude.{◌≡◌};
    ghost use Rattle.pt_language.specs.declared.eval_fault.EvalFault.TheVariants.{Memory};

    ghost from_gives = { λ _ fault. fault ≡ Memory };

    fn from(_: AllocError) -> Self {
        EvalFault::Memory
    }
}
