ghost use Rattle.std.specs.Prelude.{◌≡◌};
ghost use Rattle.pt_trees.specs.declared.composite_fault.CompositeFault.TheVariants as fault;

use pt_document::Code;
use std::alloc::AllocError;
use thiserror::Error;

/// Why a composite isn't built.
#[derive(Clone, Copy, Debug, PartialEq, Eq, Error)]
pub enum CompositeFault {
    /// Its children or what is stated of it don't fit its director. In the net of a document none is so.
    #[error("the composite isn't built")]
    Unbuilt,
    #[error("the composite is refused")]
    Refused(Code),
    #[error("out of memory")]
    Memory,
}

impl From<AllocError> for CompositeFault {
    ghost from_gives = { λ _ e. e ≡ fault.Memory };

    fn from(_: AllocError) -> Self {
        CompositeFault::Memory
    }
}
