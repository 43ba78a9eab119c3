ghost use Rattle.std.specs.Prelude.{◌≡◌, ◌<◌, length, replicate, get_or, slice_set, true, false, IfOk};

use std::alloc::{AllocError, Global};
use std::marker::Model;

/// Which of some numbers are marked. All marks are taken away at once, without a walk over them.
#[derive(Drop)]
pub struct Marks {
    // The stamp of each number. Those are marked that have the present one.
    stamps: Vec<u64>,
    present: u64,
}

impl Model for Marks {
    ghost use Rattle.std.specs.Prelude.{List, Bool};
    ghost use Rattle.pt_reaction.specs.Marks.{marked, AreStamps};

    ghost Value = { List Bool };

    ghost view = { λ m. marked m.present m.stamps.items };

    ghost invariant = { λ m. AreStamps m.present m.stamps.items };
}

impl Marks {
    /// So many numbers, of which none is marked.
    pub fn new(alloc: Global, count: usize) -> Result<Marks, AllocError>
        ensures { IfOk result (λ marks. marks ≡ replicate count false) }
    {
        let stamps = zeros(alloc, count)?;
        Ok(Marks { stamps, present: 1 })
    }

    /// How many numbers there are.
    pub fn len(&self) -> usize
        ensures { result ≡ length self.now }
    {
        self.stamps.len()
    }

    pub fn is_marked(&self, number: usize) -> bool
        requires { number < length self.now }
        ensures { result ≡ get_or self.now number false }
    {
        self.stamps[number] == self.present
    }

    pub fn mark(&mut self, number: usize)
        requires { number < length self.old }
        ensures { self.new ≡ slice_set self.old number true }
    {
        self.stamps[number] = self.present;
    }

    /// Takes all marks away. It walks over the numbers only once in 2^64 - 1 times.
    pub fn clear(&mut self)
        ensures { self.new ≡ replicate (length self.old) false }
    {
        if self.present == u64::MAX {
            self.begin_anew();
            return;
        }
        self.present += 1;
    }

    /// The same by new stamps.
    fn begin_anew(&mut self)
        ensures { self.new ≡ replicate (length self.old) false }
    {
        restart(&mut self.stamps);
        self.present = 1;
    }

    pub fn copy(&self, alloc: Global) -> Result<Marks, AllocError>
        ensures { IfOk result (λ marks. marks ≡ self.now) }
    {
        let stamps = Vec::from_slice(alloc, &self.stamps)?;
        Ok(Marks {
            stamps,
            present: self.present,
        })
    }
}

fn zeros(alloc: Global, count: usize) -> Result<Vec<u64>, AllocError>
    ensures { IfOk result (λ stamps. stamps.items ≡ replicate count 0) }
{
    Ok(vec![in alloc; 0; count]?)
}

/// Gives each number the stamp 0.
fn restart(stamps: &mut Vec<u64>)
    ensures { stamps.new.items ≡ replicate (length stamps.old.items) 0 }
{
    for k in 0..stamps.len() {
        stamps[k] = 0;
    }
}
