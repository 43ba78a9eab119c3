ghost use Rattle.std.specs.Prelude.{◌≡◌};
ghost use Rattle.pt_document.specs.Outcome.{IsRefusal};
ghost use Rattle.pt_document.specs.declared.refusal.DocFault.TheVariants.{Memory};

use crate::code::Code;
use pt_value::Text;
use std::alloc::{AllocError, AllocFailed, Global};
use thiserror::Error;

/// A document is refused for this cause, at this path.
#[derive(Debug, Drop, Error)]
#[error("refused at {path}: {code:?}")]
pub struct Refusal {
    pub code: Code,
    pub path: Text,
}

/// Why a document isn't taken.
#[derive(Debug, Drop, Error)]
pub enum DocFault {
    #[error(transparent)]
    Refused(Refusal),
    #[error("out of memory")]
    Memory,
}

impl From<AllocError> for DocFault {
    ghost from_gives = { λ _ e. e ≡ Memory };

    fn from(_: AllocError) -> DocFault {
        DocFault::Memory
    }
}

impl<T: Drop> From<AllocFailed<T>> for DocFault {
    ghost from_gives = { λ _ e. e ≡ Memory };

    fn from(_: AllocFailed<T>) -> DocFault {
        DocFault::Memory
    }
}

/// A refusal for this cause at this path, if there is memory for the path.
pub fn refused(alloc: Global, code: Code, path: &str) -> DocFault
    ensures { IsRefusal result code path.now }
{
    match Text::of(alloc, path) {
        Ok(path) => DocFault::Refused(Refusal { code, path }),
        Err(_) => DocFault::Memory,
    }
}
