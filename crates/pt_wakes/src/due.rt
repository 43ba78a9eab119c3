ghost use Rattle.std.specs.Prelude.{◌≡◌, ◌<◌, length, replicate, true, false, IfOk, IfSome, IfNone};
ghost use Rattle.pt_wakes.specs.Due.{with_due, IsFirst, NoneDue};

use crate::ahead::Ahead;
use std::alloc::{AllocError, Global};
use std::marker::Model;

/// Some children, each at its depth, and which of them are due.
#[derive(Drop)]
pub struct DueChildren {
    depths: Vec<u32>,
    due: Vec<bool>,
    // Those that are due, by depth.
    queue: Ahead,
}

impl Model for DueChildren {
    ghost use Rattle.pt_wakes.specs.Due.{DueSet};
    ghost use Rattle.pt_wakes.specs.Codes.{coded_due};

    ghost Value = { DueSet };

    ghost coded = { coded_due };

    ghost use Rattle.pt_wakes.specs.Keys.{AreKeys};

    ghost view = { λ d. record { depths = d.depths.items; due = d.due.items } };

    ghost invariant = { λ d. AreKeys d.depths.items d.due.items d.queue };
}

impl DueChildren {
    /// Children of these depths, of which none is due.
    pub fn new(alloc: Global, depths: &[u32]) -> Result<DueChildren, AllocError>
        ensures { IfOk result (λ children. children ≡ record { depths = depths.now; due = replicate (length depths.now) false }) }
    {
        let due = none_due(alloc, depths.len())?;
        let queue = Ahead::new(alloc, depths.len())?;
        Ok(DueChildren {
            depths: Vec::from_slice(alloc, depths)?,
            due,
            queue,
        })
    }

    /// How many children there are.
    pub fn len(&self) -> usize
        ensures { result ≡ length self.now.due }
    {
        self.due.len()
    }

    /// Makes a child due, which it may be already. It takes no memory.
    #[inline(always)]
    pub fn insert(&mut self, child: usize)
        requires { child < length self.old.due }
        ensures { self.new ≡ with_due self.old child true }
    {
        if !self.due[child] {
            self.due[child] = true;
            self.queue.put(child, self.depths[child]);
        }
    }

    /// Makes a child due no more. It takes no memory.
    #[inline(always)]
    pub fn remove(&mut self, child: usize)
        requires { child < length self.old.due }
        ensures { self.new ≡ with_due self.old child false }
    {
        if self.due[child] {
            self.due[child] = false;
            self.queue.take(child);
        }
    }

    /// A child that is due, where none that is due is less deep.
    #[inline(always)]
    pub fn first(&self) -> Option<usize>
        ensures first { IfSome result (IsFirst self.now) }
        ensures none { IfNone result (NoneDue self.now) }
    {
        self.queue.first()
    }

    /// The same children, of which the same are due.
    pub fn copy(&self, alloc: Global) -> Result<DueChildren, AllocError>
        ensures { IfOk result (λ copy. copy ≡ self.now) }
    {
        Ok(DueChildren {
            depths: Vec::from_slice(alloc, &self.depths)?,
            due: Vec::from_slice(alloc, &self.due)?,
            queue: self.queue.copy(alloc)?,
        })
    }
}

/// So many children that aren't due.
fn none_due(alloc: Global, children: usize) -> Result<Vec<bool>, AllocError>
    ensures { IfOk result (λ due. due.items ≡ replicate children false) }
{
    Ok(vec![in alloc; false; children]?)
}
