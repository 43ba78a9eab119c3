use pt_document::Code;
use pt_language::EvalFault;
use std::alloc::{AllocError, AllocFailed};
use thiserror::Error;

/// Why the text of a parameter comes to nothing.
#[derive(Clone, Copy, Debug, PartialEq, Eq, Error)]
pub enum TextFault {
    /// The document is refused for this cause.
    #[error("a text is refused: {0:?}")]
    Refused(Code),
    #[error("out of memory")]
    Memory,
}

impl From<AllocError> for TextFault {
    ghost use Rattle.std.specs.Prelude.{◌≡◌};
    ghost use Rattle.pt_scopes.specs.declared.fault.TextFault.TheVariants.{Memory};

    ghost from_gives = { λ _ fault. fault ≡ Memory };

    fn from(_: AllocError) -> Self {
        TextFault::Memory
    }
}

impl<T: Drop> From<AllocFailed<T>> for TextFault {
    ghost use Rattle.std.specs.Prelude.{◌≡◌};
    ghost use Rattle.pt_scopes.specs.declared.fault.TextFault.TheVariants.{Memory};

    ghost from_gives = { λ _ fault. fault ≡ Memory };

    fn from(_: AllocFailed<T>) -> Self {
        TextFault::Memory
    }
}

impl From<EvalFault> for TextFault {
    ghost use Rattle.std.specs.Prelude.{◌≡◌};
    ghost use Rattle.pt_scopes.specs.TextFault.{of_evaluation};

    ghost from_gives = { λ evaluation fault. fault ≡ of_evaluation evaluation };

    fn from(fault: EvalFault) -> Self {
        match fault {
            EvalFault::DivideByZero
            | EvalFault::Overflow
            | EvalFault::Index
            | EvalFault::Size
            | EvalFault::Absent => TextFault::Refused(Code::Value),
            EvalFault::Memory => TextFault::Memory,
        }
    }
}
