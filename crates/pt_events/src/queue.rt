ghost use Rattle.std.specs.Prelude.{◌≡◌, [], IfOk, is_ok, if◌then◌else◌};
ghost use Rattle.pt_events.specs.Queue.{put, first, taken, left};

use crate::stores::{
    ByDepth, ByTag, Due, Later, actor_of, earlier, first_later, is_up_to, least_tag, move_back,
    move_due, push_reserved,
};
use pt_time::Tag;
use std::alloc::{AllocError, Global};
use std::cmp::Reverse;
use std::collections::BinaryHeap;
use std::marker::Model;

/// The queue of events of a DE composite, which contracts see as the list of its entries by tag, depth and number.
///
/// Later entries are in a heap by tag, and those at or before the tag of the last `take` in one by depth. Each heap has
/// room for all entries, so that moving entries from one to the other takes no memory.
#[derive(Drop)]
pub struct EventQueue {
    // The tag of the last `take`, and at first the origin.
    last: Tag,
    later: Later,
    due: Due,
}

impl Model for EventQueue {
    ghost use Rattle.std.specs.Prelude.{List};
    ghost use Rattle.std.specs.BinaryHeap.{heap_items};
    ghost use Rattle.pt_events.specs.Entries.{Entry};

    ghost Value = { List Entry };

    ghost use Rattle.pt_events.specs.Stores.{queue_of, AreStored};

    ghost view = { λ q. queue_of (heap_items q.later) (heap_items q.due) };

    ghost invariant = { λ q. AreStored q.last q.later q.due };
}

impl EventQueue {
    /// A queue without entries.
    pub fn new(alloc: Global) -> EventQueue
        ensures { result ≡ [] }
    {
        EventQueue {
            last: Tag { time: 0, step: 0 },
            later: BinaryHeap::new(alloc),
            due: BinaryHeap::new(alloc),
        }
    }

    /// Puts one entry more. After an `Err` the queue is as before.
    pub fn put(&mut self, tag: Tag, depth: u32, actor: u32) -> Result<(), AllocError>
        ensures { self.new ≡ (if is_ok result then put (record { tag = tag; depth = depth; actor = actor }) self.old else self.old) }
    {
        let later = self.later.as_slice().len() + 1;
        let due = self.due.as_slice().len() + 1;
        self.later.reserve(due)?;
        self.due.reserve(later)?;
        push_reserved(&mut self.later, Reverse(ByTag { tag, depth, actor }));
        Ok(())
    }

    /// The least tag of the entries, if there are any.
    pub fn first(&self) -> Option<Tag>
        ensures { result ≡ first self.now }
    {
        earlier(first_later(&self.later), least_tag(self.due.as_slice()))
    }

    /// Takes the entry of least depth, then least number, then least tag among those at or before the tag, and gives its
    /// actor. `None` is where no entry is at or before the tag.
    pub fn take(&mut self, tag: Tag) -> Option<u32>
        ensures actor { result ≡ taken tag self.old }
        ensures rest { self.new ≡ left tag self.old }
    {
        if !is_up_to(self.last, tag) {
            move_back(&mut self.later, &mut self.due);
        }
        self.last = tag;
        move_due(&mut self.later, &mut self.due, tag);
        actor_of(self.due.pop())
    }

    /// A queue with the same entries.
    pub fn copy(&self) -> Result<EventQueue, AllocError>
        ensures { IfOk result (λ copy. copy ≡ self.now) }
    {
        let mut later = self.later.clone()?;
        later.reserve(self.due.len())?;
        let mut due = self.due.clone()?;
        due.reserve(self.later.len())?;
        Ok(EventQueue {
            last: self.last,
            later,
            due,
        })
    }
}
