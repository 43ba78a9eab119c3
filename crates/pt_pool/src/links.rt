ghost use Rattle.std.specs.Prelude.{◌≡◌, ◌+◌, ◌-◌, ◌<◌, ◌≤◌, ◌∷◌, ◌++◌, [], is_ok, if◌then◌else◌, drop, length, slice_index_or, slice_set, vec_len};
ghost use Rattle.pt_pool.specs.Chains.{times_in};
ghost use Rattle.pt_pool.specs.Linked.{chains, spares, unreserved, AreLinked, relinked, lengthened};
ghost use Rattle.pt_pool.specs.Queues.{spare_at, raised, lowered};

use std::alloc::{AllocError, Global};

/// The first and the last cell of a queue, how many it has, and how many free cells it has reserved.
///
/// The cells of an empty queue are any.
#[derive(Clone, Copy, Drop)]
pub(crate) struct Ends {
    pub(crate) head: usize,
    tail: usize,
    pub(crate) len: usize,
    pub(crate) spare: usize,
}

/// Cells that are linked by index: the queues, and the list of free cells.
#[derive(Drop)]
pub(crate) struct Links {
    // The cell that follows each, where it isn't the last of its list.
    pub(crate) next: Vec<usize>,
    pub(crate) queues: Vec<Ends>,
    free: usize,
    free_len: usize,
    // How many free cells the queues have reserved together.
    reserved: usize,
}

impl Links {
    pub(crate) fn new(alloc: Global) -> Links
        ensures linked { AreLinked result }
        ensures cells { result.next.items ≡ [] }
        ensures queues { result.queues.items ≡ [] }
        ensures unreserved { unreserved result ≡ 0 }
    {
        Links {
            next: Vec::new(alloc),
            queues: Vec::new(alloc),
            free: 0,
            free_len: 0,
            reserved: 0,
        }
    }

    /// One more queue, which is empty and has no spare.
    pub(crate) fn open(&mut self) -> Result<(), AllocError>
        requires linked { AreLinked self.old }
        ensures linked { AreLinked self.new }
        ensures chains { chains self.new ≡ (if is_ok result then chains self.old ++ [] ∷ [] else chains self.old) }
        ensures spares { spares self.new ≡ (if is_ok result then spares self.old ++ 0 ∷ [] else spares self.old) }
        ensures cells { self.new.next.items ≡ self.old.next.items }
        ensures unreserved { unreserved self.new ≡ unreserved self.old }
    {
        self.queues.push(Ends {
            head: 0,
            tail: 0,
            len: 0,
            spare: 0,
        })?;
        Ok(())
    }

    /// One more cell, which is free.
    pub(crate) fn add_cell(&mut self) -> Result<(), AllocError>
        requires linked { AreLinked self.old }
        ensures linked { AreLinked self.new }
        ensures chains { chains self.new ≡ chains self.old }
        ensures spares { spares self.new ≡ spares self.old }
        ensures cells { length self.new.next.items ≡ (if is_ok result then length self.old.next.items + 1 else length self.old.next.items) }
        ensures unreserved { unreserved self.new ≡ (if is_ok result then unreserved self.old + 1 else unreserved self.old) }
    {
        let cell = self.next.len();
        self.next.push(self.free)?;
        self.free = cell;
        self.free_len += 1;
        Ok(())
    }

    /// Makes `n` the spare of queue `q`, where the free cells suffice.
    pub(crate) fn promise(&mut self, q: usize, n: usize)
        requires linked { AreLinked self.old }
        requires given { q < length self.old.queues.items }
        requires rises { spare_at (spares self.old) q ≤ n }
        requires room { n ≤ spare_at (spares self.old) q + unreserved self.old }
        ensures linked { AreLinked self.new }
        ensures chains { chains self.new ≡ chains self.old }
        ensures spares { spares self.new ≡ slice_set (spares self.old) q n }
        ensures cells { self.new.next.items ≡ self.old.next.items }
        ensures unreserved { unreserved self.new + n ≡ unreserved self.old + spare_at (spares self.old) q }
    {
        let ends = self.queues[q];
        self.queues[q] = Ends { spare: n, ..ends };
        self.reserved += n - ends.spare;
    }

    /// The next free cell, where a queue has a spare.
    pub(crate) fn free(&self) -> usize
        requires { AreLinked self.now }
        ensures value { result ≡ self.now.free }
        ensures apart { 0 < self.now.free_len → times_in result (chains self.now) ≡ 0 }
        ensures within { 0 < self.now.free_len → result < length self.now.next.items }
    {
        self.free
    }

    /// How many cells queue `q` has.
    pub(crate) fn len_of(&self, q: usize) -> usize
        requires { q < length self.now.queues.items }
        ensures { result ≡ length (slice_index_or (chains self.now) q []) }
    {
        self.queues[q].len
    }

    /// How many free cells queue `q` has reserved.
    pub(crate) fn spare_of(&self, q: usize) -> usize
        requires { q < length self.now.queues.items }
        ensures { result ≡ spare_at (spares self.now) q }
    {
        self.queues[q].spare
    }

    /// How many free cells no queue has reserved.
    pub(crate) fn unreserved(&self) -> usize
        requires { AreLinked self.now }
        ensures { result ≡ unreserved self.now }
    {
        self.free_len - self.reserved
    }

    /// Moves the front of queue `q` to the front of the free list, for `q` to use again.
    pub(crate) fn free_front(&mut self, q: usize) -> usize
        requires linked { AreLinked self.old }
        requires given { q < length self.old.queues.items }
        requires filled { 0 < length (slice_index_or (chains self.old) q []) }
        ensures linked { AreLinked self.new }
        ensures front { slice_index_or (chains self.old) q [] ≡ result ∷ drop 1 (slice_index_or (chains self.old) q []) }
        ensures chains { chains self.new ≡ slice_set (chains self.old) q (drop 1 (slice_index_or (chains self.old) q [])) }
        ensures spares { spares self.new ≡ raised (spares self.old) q }
        ensures free { self.new.free ≡ result }
        ensures apart { times_in result (chains self.new) ≡ 0 }
        ensures within { result < length self.old.next.items }
        ensures cells { length self.new.next.items ≡ length self.old.next.items }
        ensures unreserved { unreserved self.new ≡ unreserved self.old }
    {
        let ends = self.queues[q];
        let cell = ends.head;
        let head = self.next[cell];
        self.queues[q] = Ends {
            head,
            tail: ends.tail,
            len: ends.len - 1,
            spare: ends.spare + 1,
        };
        self.next[cell] = self.free;
        self.free = cell;
        self.free_len += 1;
        self.reserved += 1;
        cell
    }

    /// Moves the front of the free list to the back of queue `q`, which has reserved it.
    pub(crate) fn append_free(&mut self, q: usize)
        requires linked { AreLinked self.old }
        requires given { q < length self.old.queues.items }
        requires spare { 0 < spare_at (spares self.old) q }
        ensures linked { AreLinked self.new }
        ensures chains { chains self.new ≡ slice_set (chains self.old) q (slice_index_or (chains self.old) q [] ++ self.old.free ∷ []) }
        ensures spares { spares self.new ≡ lowered (spares self.old) q }
        ensures cells { length self.new.next.items ≡ length self.old.next.items }
        ensures unreserved { unreserved self.new ≡ unreserved self.old }
    {
        let cell = self.free;
        let ends = self.queues[q];
        let free = self.next[cell];
        link_behind(&mut self.next, ends, cell);
        self.queues[q] = ends.lengthened(cell);
        self.free = free;
        self.free_len -= 1;
        self.reserved -= 1;
    }
}

/// Links a cell behind the last one of a queue with these ends.
fn link_behind(next: &mut Vec<usize>, ends: Ends, cell: usize)
    requires { 0 < ends.len → ends.tail < vec_len next.old }
    ensures { next.new.items ≡ relinked next.old.items ends cell }
{
    if ends.len > 0 {
        next[ends.tail] = cell;
    }
}

impl Ends {
    /// The ends once this cell is the last, and was reserved before.
    fn lengthened(&self, cell: usize) -> Ends
        requires len { self.now.len < usize.MAX }
        requires spare { 0 < self.now.spare }
        ensures { result ≡ lengthened self.now cell }
    {
        Ends {
            head: if self.len == 0 { cell } else { self.head },
            tail: cell,
            len: self.len + 1,
            spare: self.spare - 1,
        }
    }
}
