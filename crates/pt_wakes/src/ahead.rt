ghost use Rattle.std.specs.Prelude.{◌≡◌, ◌<◌, [], length, replicate, set, true, None, IfOk, IfSome, IfNone};
ghost use Rattle.pt_meaning.specs.Tag as tags;
ghost use Rattle.pt_wakes.specs.Wakes.{wake_of};
ghost use Rattle.pt_wakes.specs.Keys.{key_of};
ghost use Rattle.pt_wakes.specs.Queue.{IsFirstKey, IsFront, with_front, is_before};

use crate::queue::{Queue, copy_of_front, last_of};
use std::alloc::{AllocError, Global};
use std::marker::Model;

/// A queue of children, and ahead of it others of one depth, where none is less deep.
///
/// So the children of the two least depths are at hand: often those that are due by their wakes, and those that they reach. A contract sees it as a queue.
#[derive(Drop)]
pub(crate) struct Ahead {
    // Children of one depth, where none is less deep.
    front: Vec<usize>,
    // Their depth.
    depth: u32,
    // The other children.
    behind: Queue,
}

impl Model for Ahead {
    ghost use Rattle.std.specs.Prelude.{List, Option};
    ghost use Rattle.pt_meaning.specs.Tag.{Tag};
    ghost use Rattle.pt_wakes.specs.Codes.{coded_wakes};
    ghost use Rattle.pt_wakes.specs.Queue.{with_front, IsQueue};

    ghost Value = { List (Option Tag) };

    ghost coded = { coded_wakes };

    ghost view = { λ q. with_front q.front.items q.depth q.behind };

    ghost invariant = { λ q. IsQueue q.front.items q.depth q.behind };
}

impl Ahead {
    /// None of so many children.
    pub(crate) fn new(alloc: Global, children: usize) -> Result<Ahead, AllocError>
        ensures { IfOk result (λ queue. queue ≡ replicate children None) }
    {
        Ok(Ahead {
            front: Vec::with_capacity(alloc, children)?,
            depth: 0,
            behind: Queue::new(alloc, children)?,
        })
    }

    /// Puts in a child that isn't there. It takes no memory.
    #[inline(always)]
    pub(crate) fn put(&mut self, child: usize, depth: u32)
        requires there { child < length self.old }
        requires out { wake_of self.old child ≡ None }
        ensures { self.new ≡ set self.old child (key_of true depth) }
    {
        if self.has_before(depth) {
            self.behind.put(child, depth);
            return;
        }
        bring_to(&mut self.front, self.depth, &mut self.behind, depth);
        self.depth = depth;
        if self.front.len() < self.front.capacity() {
            self.front.push_reserved(child);
        } else {
            self.behind.put(child, depth);
        }
    }

    /// Whether it has a child of a lesser depth.
    #[inline(always)]
    fn has_before(&self, depth: u32) -> bool
        ensures { result ≡ is_before depth (tags.least self.now) }
    {
        if last_of(&self.front).is_some() {
            return self.depth < depth;
        }
        self.behind.has_before(depth)
    }

    /// Takes out a child. It takes no memory.
    #[inline(always)]
    pub(crate) fn take(&mut self, child: usize)
        requires { child < length self.old }
        ensures { self.new ≡ set self.old child None }
    {
        match last_of(&self.front) {
            None => self.behind.take(child),
            Some(last) if last == child => {
                self.front.pop();
            }
            Some(_) => self.cut(child),
        }
    }

    /// Takes out a child that isn't the last in front.
    #[inline(never)]
    fn cut(&mut self, child: usize)
        requires { child < length self.old }
        ensures { self.new ≡ set self.old child None }
    {
        put_back(&mut self.front, self.depth, &mut self.behind);
        self.behind.take(child);
    }

    /// A child of the least depth.
    #[inline(always)]
    pub(crate) fn first(&self) -> Option<usize>
        ensures first { IfSome result (IsFirstKey self.now) }
        ensures none { IfNone result (tags.least self.now ≡ None) }
    {
        match last_of(&self.front) {
            Some(child) => Some(child),
            None => self.behind.first(),
        }
    }

    /// The same children.
    pub(crate) fn copy(&self, alloc: Global) -> Result<Ahead, AllocError>
        ensures { IfOk result (λ copy. copy ≡ self.now) }
    {
        Ok(Ahead {
            front: copy_of_front(alloc, &self.front, self.behind.len())?,
            depth: self.depth,
            behind: self.behind.copy(alloc)?,
        })
    }
}

/// Puts those in front back among the others unless they are at the depth. It takes no memory.
#[inline(always)]
fn bring_to(front: &mut Vec<usize>, at: u32, behind: &mut Queue, depth: u32)
    requires { IsFront at behind.old front.old.items }
    ensures front { IsFront depth behind.new front.new.items }
    ensures same { with_front front.new.items depth behind.new ≡ with_front front.old.items at behind.old }
{
    if depth != at {
        put_back(front, at, behind);
    }
}

/// Puts those in front back among the others. It takes no memory.
#[inline(never)]
fn put_back(front: &mut Vec<usize>, depth: u32, behind: &mut Queue)
    requires { IsFront depth behind.old front.old.items }
    ensures front { front.new.items ≡ [] }
    ensures behind { behind.new ≡ with_front front.old.items depth behind.old }
{
    while let Some(child) = front.pop() {
        behind.put(child, depth);
    }
}
