ghost use Rattle.std.specs.Prelude.{◌≡◌, length};

use std::alloc::{AllocError, Global};
use std::marker::Model;

/// A number for each place, as how many tokens an actor needs there.
#[derive(Debug, Drop)]
pub struct Counts {
    counts: Vec<usize>,
}

impl Model for Counts {
    ghost use Rattle.std.specs.Prelude.{List, ℕ};

    ghost Value = { List ℕ };

    ghost view = { λ c. c.counts.items };
}

impl Counts {
    ghost use Rattle.std.specs.Prelude.{IfOk};

    pub fn of(counts: Vec<usize>) -> Counts
        ensures { result ≡ counts.items }
    {
        Counts { counts }
    }

    pub fn as_slice(&self) -> &[usize]
        ensures { result.now ≡ self.now }
    {
        self.counts.as_slice()
    }

    pub fn len(&self) -> usize
        ensures { result ≡ length self.now }
    {
        self.counts.len()
    }

    pub fn copy(&self, alloc: Global) -> Result<Counts, AllocError>
        ensures { IfOk result (λ counts. counts ≡ self.now) }
    {
        Ok(Counts {
            counts: Vec::from_slice(alloc, self.counts.as_slice())?,
        })
    }
}

/// What an actor needs before it can fire. Whoever is asked keeps the counts.
#[derive(Clone, Copy, Debug)]
pub enum Need<'a> {
    /// It fires no more.
    Over,
    /// So many tokens on each place.
    All(&'a Counts),
    /// One token, on any one place.
    Any,
}
