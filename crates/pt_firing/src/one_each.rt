ghost use Rattle.std.specs.Prelude.{◌≡◌, IfOk, replicate};

use crate::need::Counts;
use std::alloc::{AllocError, Global};
use std::marker::Model;

/// The counts of an actor that needs one token on each of its places. A contract sees the number of places.
#[derive(Debug, Drop)]
pub struct OneEach {
    counts: Counts,
}

impl Model for OneEach {
    ghost use Rattle.std.specs.Prelude.{◌≡◌, ℕ, length, replicate};

    ghost Value = { ℕ };

    ghost view = { λ o. length o.counts };

    ghost invariant = { λ o. o.counts ≡ replicate (length o.counts) 1 };
}

impl OneEach {
    pub fn of(alloc: Global, places: usize) -> Result<OneEach, AllocError>
        ensures { IfOk result (λ ones. ones ≡ places) }
    {
        Ok(OneEach {
            counts: Counts::of(vec![in alloc; 1usize; places]?),
        })
    }

    /// The counts of an actor without places. It takes no memory.
    pub fn none(alloc: Global) -> OneEach
        ensures { result ≡ 0 }
    {
        OneEach {
            counts: Counts::of(Vec::new(alloc)),
        }
    }

    pub fn places(&self) -> usize
        ensures { result ≡ self.now }
    {
        self.counts.len()
    }

    pub fn counts(&self) -> &Counts
        ensures { result.now ≡ replicate self.now 1 }
    {
        &self.counts
    }

    pub fn copy(&self, alloc: Global) -> Result<OneEach, AllocError>
        ensures { IfOk result (λ ones. ones ≡ self.now) }
    {
        Ok(OneEach {
            counts: self.counts.copy(alloc)?,
        })
    }
}
