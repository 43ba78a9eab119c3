ghost use Rattle.std.specs.Prelude.{◌≡◌};
ghost use Rattle.clap.specs.Words.{kind_of};
ghost use Rattle.pt_words.specs.Matches.{fault_by};
ghost use Rattle.pt_words.specs.declared.fault.WordsFault.TheVariants.{Memory};

use clap::error::ErrorKind;
use std::alloc::AllocError;
use thiserror::Error;

/// Why words ask for nothing.
#[derive(Clone, Copy, Debug, PartialEq, Eq, Error)]
pub enum WordsFault {
    #[error("the words are no line of the program")]
    Refused,
    #[error("out of memory")]
    Memory,
}

impl From<AllocError> for WordsFault {
    ghost from_gives = { λ _ fault. fault ≡ Memory };

    fn from(_: AllocError) -> WordsFault {
        WordsFault::Memory
    }
}

impl From<clap::Error> for WordsFault {
    ghost from_gives = { λ error fault. fault ≡ fault_by (kind_of error) };

    fn from(error: clap::Error) -> WordsFault {
        match error.kind() {
            ErrorKind::OutOfMemory => WordsFault::Memory,
            _ => WordsFault::Refused,
        }
    }
}
