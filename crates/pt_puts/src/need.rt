use pt_firing::Counts;
use std::alloc::{AllocError, Global};

/// What a process needs before it can fire, as it is kept.
#[derive(Drop)]
pub enum KeptNeed {
    /// It fires no more.
    Over,
    /// So many tokens on each place.
    Counts(Counts),
    /// One token, on the only place.
    One,
    /// One token, on any one place.
    Any,
}

impl KeptNeed {
    ghost use Rattle.std.specs.Prelude.{◌≡◌, IfOk};

    /// The same need again.
    pub fn copy(&self, alloc: Global) -> Result<KeptNeed, AllocError>
        ensures { IfOk result (λ copy. copy ≡ self.now) }
    {
        match self {
            KeptNeed::Over => Ok(KeptNeed::Over),
            KeptNeed::Counts(counts) => match counts.copy(alloc) {
                Ok(counts) => Ok(KeptNeed::Counts(counts)),
                Err(fault) => Err(fault),
            },
            KeptNeed::One => Ok(KeptNeed::One),
            KeptNeed::Any => Ok(KeptNeed::Any),
        }
    }
}
