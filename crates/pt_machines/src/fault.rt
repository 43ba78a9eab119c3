ghost use Rattle.std.specs.Prelude.{◌≡◌};
ghost use Rattle.pt_machines.specs.declared.fault.NetFault.TheVariants.{Memory};

use pt_machine::Cause;
use std::alloc::{AllocError, AllocFailed};
use thiserror::Error;

/// Why a net has no machines for its Modal entities.
#[derive(Clone, Copy, Debug, PartialEq, Eq, Error)]
pub enum NetFault {
    /// The Modal entity of this number is refused for this cause.
    #[error("entity {1}: {0}")]
    Refused(Cause, usize),
    #[error("out of memory")]
    Memory,
}

impl From<AllocError> for NetFault {
    ghost from_gives = { λ _ fault. fault ≡ Memory };

    fn from(_: AllocError) -> Self {
        NetFault::Memory
    }
}

impl<T: Drop> From<AllocFailed<T>> for NetFault {
    ghost from_gives = { λ _ fault. fault ≡ Memory };

    fn from(_: AllocFailed<T>) -> Self {
        NetFault::Memory
    }
}
