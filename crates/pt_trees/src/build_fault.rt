ghost use Rattle.std.specs.Prelude.{◌≡◌};
ghost use Rattle.pt_trees.specs.declared.build_fault.BuildFault.TheVariants as fault;

use pt_document::Refusal;
use std::alloc::{AllocError, AllocFailed};
use thiserror::Error;

/// Why a net has no tree of nodes.
#[derive(Debug, Drop, Error)]
pub enum BuildFault {
    /// A composite has no plan.
    #[error(transparent)]
    Refused(Refusal),
    /// The net has no tree: an entity is no actor that starts and no composite with a director, or a composite doesn't fit its director. A net of a document has nothing of the kind.
    #[error("the net has no tree")]
    Unbuilt,
    #[error("out of memory")]
    Memory,
}

impl From<AllocError> for BuildFault {
    ghost from_gives = { λ _ e. e ≡ fault.Memory };

    fn from(_: AllocError) -> Self {
        BuildFault::Memory
    }
}

impl<T: Drop> From<AllocFailed<T>> for BuildFault {
    ghost from_gives = { λ _ e. e ≡ fault.Memory };

    fn from(_: AllocFailed<T>) -> Self {
        BuildFault::Memory
    }
}
