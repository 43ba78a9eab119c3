ghost use Rattle.std.specs.Prelude.{◌≡◌, ◌+◌, ◌-◌, ◌<◌, ◌≤◌, ◌∷◌, ◌++◌, [], IsOk, IfOk, OnOk, is_ok, is_some, if◌then◌else◌, length, max, slice_get, slice_set};
ghost use Rattle.pt_pool.specs.Queues.{list_at, spare_at, pushed, popped, moved, raised, lowered};

use crate::cells::Cells;
use crate::links::Links;
use std::alloc::{AllocError, Global};
use std::marker::Model;

/// Queues of items in one region of cells, which are linked by index. Each cell is in one queue or free.
///
/// A queue has a spare: how many free cells it has reserved. `push` takes one of them, and so can't fail.
/// Queues are numbered from 0 on, in the order in which `queue` gave them. Every call but `reserve` takes
/// constant time.
#[derive(Drop)]
pub struct Pool<T> {
    // The item of each cell that is in a queue.
    values: Vec<Option<T>>,
    links: Links,
}

impl<T> Model for Pool<T> {
    ghost use Rattle.pt_pool.specs.Queues.{Queues, queues_code};

    ghost Value = { Queues T };

    ghost coded = { queues_code T.code };

    ghost use Rattle.pt_pool.specs.Pool.{queues_of, IsSound};

    ghost view = { λ p. queues_of p.values.items p.links };

    ghost invariant = { λ p. IsSound p.values.items p.links };
}

impl<T: Drop> Pool<T> {
    /// A pool of `n` free cells and no queue.
    pub fn with_cells(alloc: Global, n: usize) -> Result<Pool<T>, AllocError>
        ensures lists { IfOk result (λ pool. pool.lists ≡ []) }
        ensures spares { IfOk result (λ pool. pool.spares ≡ []) }
        ensures cells { IfOk result (λ pool. pool.unreserved ≡ n) }
    {
        let mut pool = Pool {
            values: Vec::with_capacity(alloc, n)?,
            links: Links::new(alloc),
        };
        pool.make_free(n)?;
        Ok(pool)
    }

    /// The number of a new queue, which is empty and has no spare.
    pub fn queue(&mut self) -> Result<u32, AllocError>
        requires { length self.old.lists < u32.MAX }
        ensures number { IfOk result (λ q. q ≡ length self.old.lists) }
        ensures lists { self.new.lists ≡ (if is_ok result then self.old.lists ++ [] ∷ [] else self.old.lists) }
        ensures spares { self.new.spares ≡ (if is_ok result then self.old.spares ++ 0 ∷ [] else self.old.spares) }
        ensures unreserved { self.new.unreserved ≡ self.old.unreserved }
    {
        let q = self.links.queues.len() as u32;
        self.links.open()?;
        Ok(q)
    }

    /// Makes the spare of queue `q` at least `n`, with new cells where the free ones that no queue has
    /// reserved don't suffice. After an `Err` there may be more free cells than before.
    #[inline(never)]
    pub fn reserve(&mut self, q: u32, n: usize) -> Result<(), AllocError>
        requires { q < length self.old.lists }
        ensures lists { self.new.lists ≡ self.old.lists }
        ensures spares { self.new.spares ≡ (if is_ok result then slice_set self.old.spares q (max n (spare_at self.old.spares q)) else self.old.spares) }
        ensures unreserved { OnOk result (self.new.unreserved ≡ self.old.unreserved - (n - spare_at self.old.spares q)) }
        ensures succeeds { n ≤ spare_at self.old.spares q + self.old.unreserved → IsOk result }
    {
        let spare = self.spare(q);
        if n <= spare {
            return Ok(());
        }
        self.make_free(n - spare)?;
        self.links.promise(q as usize, n);
        Ok(())
    }

    // Makes `n` cells free that no queue has reserved, where there are fewer.
    fn make_free(&mut self, n: usize) -> Result<(), AllocError>
        ensures lists { self.new.lists ≡ self.old.lists }
        ensures spares { self.new.spares ≡ self.old.spares }
        ensures unreserved { OnOk result (self.new.unreserved ≡ max n self.old.unreserved) }
        ensures succeeds { n ≤ self.old.unreserved → IsOk result }
    {
        let missing = n.saturating_sub(self.links.unreserved());
        for _ in 0..missing {
            self.add_cell()?;
        }
        Ok(())
    }

    // One more cell, which is free.
    fn add_cell(&mut self) -> Result<(), AllocError>
        ensures lists { self.new.lists ≡ self.old.lists }
        ensures spares { self.new.spares ≡ self.old.spares }
        ensures unreserved { self.new.unreserved ≡ (if is_ok result then self.old.unreserved + 1 else self.old.unreserved) }
    {
        self.values.push(None)?;
        self.links.add_cell()
    }

    /// Puts `value` at the back of queue `q`, in a cell that the queue has reserved.
    #[inline(never)]
    pub fn push(&mut self, q: u32, value: T)
        requires given { q < length self.old.lists }
        requires spare { 0 < spare_at self.old.spares q }
        ensures lists { self.new.lists ≡ pushed self.old.lists q value }
        ensures spares { self.new.spares ≡ lowered self.old.spares q }
        ensures unreserved { self.new.unreserved ≡ self.old.unreserved }
    {
        let cell = self.links.free();
        self.values[cell] = Some(value);
        self.links.append_free(q as usize);
    }

    /// Takes the front of queue `q`, whose cell stays reserved for `q`, or `None` where the queue is empty.
    #[inline(never)]
    pub fn pop(&mut self, q: u32) -> Option<T>
        requires { q < length self.old.lists }
        ensures front { result ≡ slice_get (list_at self.old.lists q) 0 }
        ensures lists { self.new.lists ≡ popped self.old.lists q }
        ensures spares { self.new.spares ≡ (if is_some result then raised self.old.spares q else self.old.spares) }
        ensures unreserved { self.new.unreserved ≡ self.old.unreserved }
    {
        if self.links.len_of(q as usize) == 0 {
            return None;
        }
        let cell = self.links.free_front(q as usize);
        self.values[cell].take()
    }

    /// Moves the front of one queue to the back of another, or of the same one, and copies nothing.
    pub fn move_front(&mut self, from: u32, to: u32)
        requires given_from { from < length self.old.lists }
        requires given_to { to < length self.old.lists }
        requires filled { 0 < length (list_at self.old.lists from) }
        requires spare { 0 < spare_at self.old.spares to }
        ensures lists { self.new.lists ≡ moved self.old.lists from to }
        ensures spares { self.new.spares ≡ lowered (raised self.old.spares from) to }
        ensures unreserved { self.new.unreserved ≡ self.old.unreserved }
    {
        self.links.free_front(from as usize);
        self.links.append_free(to as usize);
    }

    /// How many items queue `q` has.
    pub fn len(&self, q: u32) -> usize
        requires { q < length self.now.lists }
        ensures { result ≡ length (list_at self.now.lists q) }
    {
        self.links.len_of(q as usize)
    }

    /// How many items may be pushed to queue `q` with no further `reserve`.
    pub fn spare(&self, q: u32) -> usize
        requires { q < length self.now.lists }
        ensures { result ≡ spare_at self.now.spares q }
    {
        self.links.spare_of(q as usize)
    }

    /// The items of queue `q` from front to back. It takes no memory.
    pub fn items(&self, q: u32) -> Cells<'_, T>
        requires { q < length self.now.lists }
        ensures { result ≡ list_at self.now.lists q }
    {
        let ends = self.links.queues[q as usize];
        Cells {
            values: self.values.as_slice(),
            next: self.links.next.as_slice(),
            cell: ends.head,
            left: ends.len,
        }
    }
}
