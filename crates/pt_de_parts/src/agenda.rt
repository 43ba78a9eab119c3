ghost use Rattle.std.specs.Prelude.{◌≡◌, ◌<◌, length, replicate, set, true, false, IfOk, IfSome, IfNone};
ghost use Rattle.pt_meaning.specs.Tag as tags;
ghost use Rattle.pt_wakes.specs.Due.{with_due, IsFirst, NoneDue};
ghost use Rattle.pt_wakes.specs.Moved.{with_woken};
ghost use Rattle.pt_wakes.specs.Wakes.{wake_of};

use pt_time::Tag;
use pt_wakes::{DueChildren, Wakes, wake_due};
use std::alloc::{AllocError, Global};
use std::marker::Model;

/// The wake of each child, and which children are due within a reaction.
#[derive(Drop)]
pub struct Agenda {
    wakes: Wakes,
    due: DueChildren,
}

impl Model for Agenda {
    ghost use Rattle.pt_de_parts.specs.Agenda.{Dates, coded_dates, dates_in, IsAgenda};

    ghost Value = { Dates };

    ghost coded = { coded_dates };

    ghost view = { dates_in };

    ghost invariant = { λ a. IsAgenda a.wakes a.due };
}

impl Agenda {
    /// Children with these wakes, each at its depth, of which none is due.
    pub fn new(alloc: Global, wakes: &[Option<Tag>], depths: &[u32]) -> Result<Agenda, AllocError>
        requires { length depths.now ≡ length wakes.now }
        ensures { IfOk result (λ agenda. agenda ≡ record { wakes = wakes.now; set = record { depths = depths.now; due = replicate (length depths.now) false } }) }
    {
        let due = DueChildren::new(alloc, depths)?;
        let wakes = Wakes::new(alloc, wakes)?;
        Ok(Agenda { wakes, due })
    }

    /// Makes each child due whose wake is at or before the tag.
    pub fn wake(&mut self, tag: Tag)
        requires { NoneDue self.old.set }
        ensures { self.new ≡ record { wakes = self.old.wakes; set = with_woken tag self.old.wakes self.old.set } }
    {
        wake_due(&self.wakes, &mut self.due, tag);
    }

    /// Makes a child due, which it may be already.
    #[inline(always)]
    pub fn insert(&mut self, child: usize)
        requires { child < length self.old.wakes }
        ensures { self.new ≡ record { wakes = self.old.wakes; set = with_due self.old.set child true } }
    {
        self.due.insert(child);
    }

    /// Makes a child due no more.
    pub fn remove(&mut self, child: usize)
        requires { child < length self.old.wakes }
        ensures { self.new ≡ record { wakes = self.old.wakes; set = with_due self.old.set child false } }
    {
        self.due.remove(child);
    }

    /// Gives a child this wake.
    pub fn set_wake(&mut self, child: usize, wake: Option<Tag>)
        requires { child < length self.old.wakes }
        ensures { self.new ≡ record { wakes = set self.old.wakes child wake; set = self.old.set } }
    {
        self.wakes.set(child, wake);
    }

    /// A child that is due, where none that is due is less deep.
    pub fn first(&self) -> Option<usize>
        ensures first { IfSome result (IsFirst self.now.set) }
        ensures none { IfNone result (NoneDue self.now.set) }
    {
        self.due.first()
    }

    /// The least wake, where no child is due.
    pub fn least(&self) -> Option<Tag>
        requires { NoneDue self.now.set }
        ensures { result ≡ tags.least self.now.wakes }
    {
        self.wakes.least()
    }

    pub fn copy(&self, alloc: Global) -> Result<Agenda, AllocError>
        ensures { IfOk result (λ agenda. agenda ≡ self.now) }
    {
        let due = self.due.copy(alloc)?;
        let wakes = self.wakes.copy(alloc)?;
        Ok(Agenda { wakes, due })
    }
}
