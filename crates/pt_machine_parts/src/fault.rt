ghost use Rattle.std.specs.Prelude.{◌≡◌};
ghost use Rattle.pt_machine_parts.specs.declared.fault.ModalFault.TheVariants.{Memory};

use pt_machine::Cause;
use std::alloc::{AllocError, AllocFailed};
use thiserror::Error;

/// Why a Modal entity is given no machine.
#[derive(Clone, Copy, Debug, PartialEq, Eq, Error)]
pub enum ModalFault {
    /// It is refused for this cause.
    #[error("{0}")]
    Refused(Cause),
    #[error("out of memory")]
    Memory,
}

impl From<AllocError> for ModalFault {
    ghost from_gives = { λ _ fault. fault ≡ Memory };

    fn from(_: AllocError) -> Self {
        ModalFault::Memory
    }
}

impl<T: Drop> From<AllocFailed<T>> for ModalFault {
    ghost from_gives = { λ _ fault. fault ≡ Memory };

    fn from(_: AllocFailed<T>) -> Self {
        ModalFault::Memory
    }
}
