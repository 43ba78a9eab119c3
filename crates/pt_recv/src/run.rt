ghost use Rattle.std.specs.Prelude.{◌≡◌, ◌≤◌, [], ◌∷◌, ◌++◌, if◌then◌else◌, drop, length, slice_get};

use std::alloc::{AllocError, Global};
use std::marker::Model;

/// Integers in order, in a row that they share with those that went before them. No put takes memory.
#[derive(Drop)]
pub(crate) struct Run {
    numbers: Vec<i64>,
    // How many of the row are gone: all before the front. Where none is left the row is empty.
    from: usize,
}

impl Model for Run {
    ghost use Rattle.std.specs.Prelude.{◌≤◌, List, ℤ, drop, length};

    ghost Value = { List ℤ };

    ghost view = { λ r. drop r.from r.numbers.items };

    ghost invariant = { λ r. r.from ≤ length r.numbers.items };
}

impl Run {
    /// A run without integers and without room.
    pub(crate) fn new(alloc: Global) -> Run
        ensures { result ≡ [] }
    {
        Run {
            numbers: Vec::new(alloc),
            from: 0,
        }
    }

    /// Makes room for `n` integers in all. The row gets twice as long, so that to move them to its start is rare.
    pub(crate) fn reserve(&mut self, n: usize) -> Result<(), AllocError>
        ensures { self.new ≡ self.old }
    {
        let Some(places) = n.checked_mul(2) else {
            return Err(AllocError);
        };
        self.numbers
            .reserve(places.saturating_sub(self.numbers.len()))
    }

    /// Puts an integer at the back, or answers `false` where there is no room. Where the row ends, what is left is moved to its start, if it may be.
    #[inline(always)]
    pub(crate) fn push(&mut self, n: i64, may_move: bool) -> bool
        ensures { self.new ≡ (if result then self.old ++ n ∷ [] else self.old) }
    {
        if self.numbers.len() < self.numbers.capacity() {
            self.numbers.push_reserved(n);
            return true;
        }
        if !may_move {
            return false;
        }
        self.push_moved(n)
    }

    // The same at the end of the row.
    #[inline(never)]
    fn push_moved(&mut self, n: i64) -> bool
        ensures { self.new ≡ (if result then self.old ++ n ∷ [] else self.old) }
    {
        self.move_to_start();
        if self.numbers.len() == self.numbers.capacity() {
            return false;
        }
        self.numbers.push_reserved(n);
        true
    }

    /// Puts integers at the back, or answers `false` where there is no room for all, and puts none. Where the row ends, what is left is moved to its start, if it may be.
    #[inline(always)]
    pub(crate) fn push_all(&mut self, numbers: &[i64], may_move: bool) -> bool
        ensures { self.new ≡ (if result then self.old ++ numbers.now else self.old) }
    {
        if numbers.len() > self.numbers.capacity() - self.numbers.len() {
            if !may_move {
                return false;
            }
            return self.push_all_moved(numbers);
        }
        self.numbers.extend_from_slice(numbers).is_ok()
    }

    // The same at the end of the row.
    #[inline(never)]
    fn push_all_moved(&mut self, numbers: &[i64]) -> bool
        ensures { self.new ≡ (if result then self.old ++ numbers.now else self.old) }
    {
        self.move_to_start();
        numbers.len() <= self.numbers.capacity() - self.numbers.len()
            && self.numbers.extend_from_slice(numbers).is_ok()
    }

    // Moves what is left to the start of the row, where at least half of the row is gone.
    fn move_to_start(&mut self)
        ensures { self.new ≡ self.old }
    {
        let left = self.numbers.len() - self.from;
        if self.from < left {
            return;
        }
        self.numbers.copy_within(self.from.., 0);
        self.numbers.truncate(left);
        self.from = 0;
    }

    /// Takes the front, or `None` where there is none.
    #[inline(always)]
    pub(crate) fn take(&mut self) -> Option<i64>
        ensures front { result ≡ slice_get self.old 0 }
        ensures rest { self.new ≡ drop 1 self.old }
    {
        if self.from == self.numbers.len() {
            return None;
        }
        let n = self.numbers[self.from];
        self.skip(1);
        Some(n)
    }

    /// Lets go of the first `n` integers.
    #[inline(always)]
    pub(crate) fn skip(&mut self, n: usize)
        requires { n ≤ length self.old }
        ensures { self.new ≡ drop n self.old }
    {
        self.from += n;
        if self.from == self.numbers.len() {
            self.numbers.clear();
            self.from = 0;
        }
    }

    /// How many integers there are.
    #[inline(always)]
    pub(crate) fn len(&self) -> usize
        ensures { result ≡ length self.now }
    {
        self.numbers.len() - self.from
    }

    /// The integers from front to back.
    #[inline(always)]
    pub(crate) fn as_slice(&self) -> &[i64]
        ensures { result.now ≡ self.now }
    {
        &self.numbers[self.from..]
    }
}
