ghost use Rattle.std.specs.Prelude.{◌≡◌, ◌-◌, ◌<◌, [], ◌∷◌, ◌++◌, length, take, replicate, set, true, None, IfOk, IfSome, IfNone};
ghost use Rattle.pt_meaning.specs.Tag as tags;
ghost use Rattle.pt_wakes.specs.Wakes.{wake_of};
ghost use Rattle.pt_wakes.specs.Keys.{key_of};
ghost use Rattle.pt_wakes.specs.Queue.{IsFirstKey, IsFront, with_front, is_before};

use crate::wakes::Wakes;
use pt_time::Tag;
use std::alloc::{AllocError, Global};
use std::marker::Model;

/// Children, each at its depth, of which those of the least depth are at hand.
///
/// A contract sees the key of each child: its depth as a time where it is in the queue, and else none. So the least key
/// is that of a child that comes first.
#[derive(Drop)]
pub(crate) struct Queue {
    // Children of one depth, where none is less deep.
    front: Vec<usize>,
    // Their depth.
    depth: u32,
    // The keys of the other children.
    behind: Wakes,
}

impl Model for Queue {
    ghost use Rattle.std.specs.Prelude.{List, Option};
    ghost use Rattle.pt_meaning.specs.Tag.{Tag};
    ghost use Rattle.pt_wakes.specs.Codes.{coded_wakes};
    ghost use Rattle.pt_wakes.specs.Queue.{with_front, IsQueue};

    ghost Value = { List (Option Tag) };

    ghost coded = { coded_wakes };

    ghost view = { λ q. with_front q.front.items q.depth q.behind };

    ghost invariant = { λ q. IsQueue q.front.items q.depth q.behind };
}

impl Queue {
    /// None of so many children.
    pub(crate) fn new(alloc: Global, children: usize) -> Result<Queue, AllocError>
        ensures { IfOk result (λ queue. queue ≡ replicate children None) }
    {
        let keys = no_keys(alloc, children)?;
        Ok(Queue {
            front: Vec::with_capacity(alloc, children)?,
            depth: 0,
            behind: Wakes::new(alloc, &keys)?,
        })
    }

    /// How many children there are.
    pub(crate) fn len(&self) -> usize
        ensures { result ≡ length self.now }
    {
        self.behind.len()
    }

    /// Puts in a child that isn't there. It takes no memory.
    #[inline(always)]
    pub(crate) fn put(&mut self, child: usize, depth: u32)
        requires there { child < length self.old }
        requires out { wake_of self.old child ≡ None }
        ensures { self.new ≡ set self.old child (key_of true depth) }
    {
        if self.has_before(depth) {
            self.behind.set(child, key(depth));
            return;
        }
        bring_to(&mut self.front, self.depth, &mut self.behind, depth);
        self.depth = depth;
        if self.front.len() < self.front.capacity() {
            self.front.push_reserved(child);
        } else {
            self.behind.set(child, key(depth));
        }
    }

    /// Whether it has a child of a lesser depth.
    #[inline(always)]
    pub(crate) fn has_before(&self, depth: u32) -> bool
        ensures { result ≡ is_before depth (tags.least self.now) }
    {
        if last_of(&self.front).is_some() {
            return self.depth < depth;
        }
        match self.behind.least() {
            Some(least) => least.time < u64::from(depth),
            None => false,
        }
    }

    /// Takes out a child. It takes no memory.
    #[inline(always)]
    pub(crate) fn take(&mut self, child: usize)
        requires { child < length self.old }
        ensures { self.new ≡ set self.old child None }
    {
        match last_of(&self.front) {
            Some(last) if last == child => {
                self.front.pop();
            }
            _ => self.cut(child),
        }
    }

    /// Takes out a child that isn't the last in front.
    #[inline(never)]
    fn cut(&mut self, child: usize)
        requires { child < length self.old }
        ensures { self.new ≡ set self.old child None }
    {
        put_back(&mut self.front, self.depth, &mut self.behind);
        self.behind.set(child, None);
    }

    /// A child of the least depth.
    #[inline(always)]
    pub(crate) fn first(&self) -> Option<usize>
        ensures first { IfSome result (IsFirstKey self.now) }
        ensures none { IfNone result (tags.least self.now ≡ None) }
    {
        match last_of(&self.front) {
            Some(child) => Some(child),
            None if self.behind.is_empty() => None,
            None => first_of(&self.behind),
        }
    }

    /// The same children.
    pub(crate) fn copy(&self, alloc: Global) -> Result<Queue, AllocError>
        ensures { IfOk result (λ copy. copy ≡ self.now) }
    {
        Ok(Queue {
            front: copy_of_front(alloc, &self.front, self.behind.len())?,
            depth: self.depth,
            behind: self.behind.copy(alloc)?,
        })
    }
}

/// The last in front.
#[inline(always)]
pub(crate) fn last_of(front: &[usize]) -> Option<usize>
    ensures some { IfSome result (λ child. front.now ≡ take (length front.now - 1) front.now ++ child ∷ []) }
    ensures none { IfNone result (front.now ≡ []) }
{
    if front.is_empty() {
        return None;
    }
    Some(front[front.len() - 1])
}

/// Puts those in front back among the others unless they are at the depth. It takes no memory.
#[inline(always)]
fn bring_to(front: &mut Vec<usize>, at: u32, behind: &mut Wakes, depth: u32)
    requires { IsFront at behind.old front.old.items }
    ensures front { IsFront depth behind.new front.new.items }
    ensures same { with_front front.new.items depth behind.new ≡ with_front front.old.items at behind.old }
{
    if depth != at {
        put_back(front, at, behind);
    }
}

/// Puts those in front back among the others. It takes no memory.
#[inline(never)]
fn put_back(front: &mut Vec<usize>, depth: u32, behind: &mut Wakes)
    requires { IsFront depth behind.old front.old.items }
    ensures front { front.new.items ≡ [] }
    ensures behind { behind.new ≡ with_front front.old.items depth behind.old }
{
    while let Some(child) = front.pop() {
        behind.set(child, key(depth));
    }
}

/// A child with the least wake.
#[inline(always)]
fn first_of(wakes: &Wakes) -> Option<usize>
    ensures first { IfSome result (IsFirstKey wakes.now) }
    ensures none { IfNone result (tags.least wakes.now ≡ None) }
{
    match wakes.least() {
        Some(least) => wakes.due(least),
        None => None,
    }
}

/// The same children in front, with room for as many as there are.
pub(crate) fn copy_of_front(
    alloc: Global,
    front: &[usize],
    children: usize,
) -> Result<Vec<usize>, AllocError>
    ensures { IfOk result (λ copy. copy.items ≡ front.now) }
{
    let mut copy = Vec::with_capacity(alloc, children)?;
    copy.extend_from_slice(front)?;
    Ok(copy)
}

/// The keys of so many children that aren't due.
fn no_keys(alloc: Global, children: usize) -> Result<Vec<Option<Tag>>, AllocError>
    ensures { IfOk result (λ keys. keys.items ≡ replicate children None) }
{
    let mut keys = Vec::with_capacity(alloc, children)?;
    for _ in 0..children {
        keys.push_reserved(None);
    }
    Ok(keys)
}

/// The wake of a child of this depth that is due.
fn key(depth: u32) -> Option<Tag>
    ensures { result ≡ key_of true depth }
{
    Some(Tag {
        time: u64::from(depth),
        step: 0,
    })
}
