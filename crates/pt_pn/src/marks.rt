ghost use Rattle.std.specs.Prelude.{◌≡◌, replicate, IfOk};
ghost use Rattle.pt_pn.specs.declared.marks.Mark.TheVariants.{Awake};

use std::alloc::{AllocError, Global};
use std::marker::Model;

/// How a process stands, as far as is noted: it wasn't looked at since its last event, it is stopped, or it is stopped and has no put to make.
#[derive(Clone, Copy)]
pub(crate) enum Mark {
    Awake,
    Waiting,
    Resting,
}

/// A mark for each of some processes, and how many are awake, and how many don't rest, so that whether all are stopped is known without a walk.
#[derive(Drop)]
pub(crate) struct Marks {
    of: Vec<Mark>,
    awake: usize,
    not_resting: usize,
}

impl Model for Marks {
    ghost use Rattle.std.specs.Prelude.{◌≡◌};
    ghost use Rattle.pt_pn.specs.Marks.{Marked, coded_marked, seen_marks, awake_in, not_resting_in};

    ghost Value = { Marked };

    ghost coded = { coded_marked };

    ghost view = { λ m. seen_marks m.of.items };

    ghost invariant = { λ m. (m.awake ≡ awake_in m.of.items) × (m.not_resting ≡ not_resting_in m.of.items) };
}

impl Marks {
    ghost use Rattle.std.specs.Prelude.{◌≡◌, ℕ, ◌<◌, length, get_or, set, replicate, true, false, IfOk};
    ghost use Rattle.pt_pn.specs.Marks.{none_marked, marked_awake, marked_waiting, marked_resting};

    /// So many marks, each awake.
    pub(crate) fn new(alloc: Global, count: usize) -> Result<Marks, AllocError>
        ensures { IfOk result (λ marks. marks ≡ none_marked count) }
    {
        let of = all_awake(alloc, count)?;
        Ok(Marks {
            of,
            awake: count,
            not_resting: count,
        })
    }

    /// Whether each is stopped.
    pub(crate) fn are_settled(&self) -> bool
        ensures { result ≡ true → (i : ℕ) → i < length self.now.settled → get_or self.now.settled i false ≡ true }
    {
        self.awake == 0
    }

    /// Whether each is stopped and has no put to make.
    pub(crate) fn are_resting(&self) -> bool
        ensures { result ≡ true → (i : ℕ) → i < length self.now.resting → get_or self.now.resting i false ≡ true }
    {
        self.not_resting == 0
    }

    /// One is awake, if there is one of that number. Answers whether it was stopped.
    #[inline(always)]
    pub(crate) fn wake(&mut self, number: usize) -> bool
        ensures { self.new ≡ marked_awake number self.old }
    {
        if number >= self.of.len() {
            return false;
        }
        match self.of[number] {
            Mark::Awake => false,
            Mark::Waiting => {
                self.of[number] = Mark::Awake;
                self.awake += 1;
                true
            }
            Mark::Resting => {
                self.of[number] = Mark::Awake;
                self.awake += 1;
                self.not_resting += 1;
                true
            }
        }
    }

    /// One is stopped, if there is one of that number. One that rests is so still.
    #[inline(always)]
    pub(crate) fn wait(&mut self, number: usize)
        ensures { self.new ≡ marked_waiting number self.old }
    {
        if number >= self.of.len() {
            return;
        }
        match self.of[number] {
            Mark::Awake => {
                self.of[number] = Mark::Waiting;
                self.awake -= 1;
            }
            Mark::Waiting => {}
            Mark::Resting => {}
        }
    }

    /// One is stopped and has no put to make, if there is one of that number.
    #[inline(always)]
    pub(crate) fn rest(&mut self, number: usize)
        ensures { self.new ≡ marked_resting number self.old }
    {
        if number >= self.of.len() {
            return;
        }
        match self.of[number] {
            Mark::Awake => {
                self.of[number] = Mark::Resting;
                self.awake -= 1;
                self.not_resting -= 1;
            }
            Mark::Waiting => {
                self.of[number] = Mark::Resting;
                self.not_resting -= 1;
            }
            Mark::Resting => {}
        }
    }

    /// The same again.
    pub(crate) fn copy(&self, alloc: Global) -> Result<Marks, AllocError>
        ensures { IfOk result (λ marks. marks ≡ self.now) }
    {
        Ok(Marks {
            of: Vec::from_slice(alloc, &self.of)?,
            awake: self.awake,
            not_resting: self.not_resting,
        })
    }
}

/// So many marks, each awake.
fn all_awake(alloc: Global, count: usize) -> Result<Vec<Mark>, AllocError>
    ensures { IfOk result (λ marks. marks.items ≡ replicate count Awake) }
{
    Ok(vec![in alloc; Mark::Awake; count]?)
}
