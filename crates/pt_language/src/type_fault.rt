use std::alloc::AllocError;
use thiserror::Error;

/// Why an expression has no type.
#[derive(Clone, Copy, Debug, PartialEq, Eq, Error)]
pub enum TypeFault {
    /// A name that isn't bound.
    #[error("a name that isn't bound")]
    Name,
    /// An operand that its operator doesn't take.
    #[error("an operand of another type")]
    Clash,
    #[error("out of memory")]
    Memory,
}

impl From<AllocError> for TypeFault {
    ghost use Rattle.std.specs.Prelude.{◌≡◌};
    ghost use Rattle.pt_language.specs.declared.type_fault.TypeFault.TheVariants.{Memory};

    ghost from_gives = { λ _ fault. fault ≡ Memory };

    fn from(_: AllocError) -> Self {
        TypeFault::Memory
    }
}
