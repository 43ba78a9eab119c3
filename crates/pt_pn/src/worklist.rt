use std::alloc::{AllocError, Global};
use std::collections::VecDeque;

/// The number of no process.
const NOBODY: u32 = u32::MAX;

/// The processes that are looked at next: each at first, then those that made an event, and those that waited for it.
///
/// No contract speaks of it. Whoever takes a process from it looks at the process, and where it is empty the notes tell whether each is stopped.
#[derive(Drop)]
pub(crate) struct Worklist {
    /// The process that is taken next, if one is: it made the last event.
    next: u32,
    /// The others, of which that is taken first that was woken first: what is under way in a long chain stays close together, and in the cache.
    woken: VecDeque<u32>,
    /// How many processes there are.
    processes: usize,
}

impl Worklist {
    /// A worklist with each of so many processes in it.
    pub(crate) fn new(alloc: Global, processes: usize) -> Result<Worklist, AllocError> {
        let mut worklist = Worklist {
            next: NOBODY,
            woken: VecDeque::with_capacity(alloc, processes)?,
            processes,
        };
        for process in 0..processes {
            if process < NOBODY as usize {
                worklist.wake(process as u32);
            }
        }
        Ok(worklist)
    }

    /// At most so many processes stand in it.
    pub(crate) fn len(&self) -> usize {
        if self.next == NOBODY {
            return self.woken.len();
        }
        self.woken.len().saturating_add(1)
    }

    /// Takes a process out of it.
    pub(crate) fn take(&mut self) -> Option<u32> {
        let next = self.next;
        if next == NOBODY {
            return self.woken.pop_front();
        }
        self.next = NOBODY;
        Some(next)
    }

    /// A process has made an event, or has fired: it may go on.
    pub(crate) fn note(&mut self, process: u32) {
        if self.next != NOBODY {
            self.wake(self.next);
        }
        self.next = process;
    }

    /// A process stands in it.
    pub(crate) fn wake(&mut self, process: u32) {
        if self.woken.len() < self.woken.capacity() {
            self.woken.push_back_reserved(process);
        }
    }

    /// The same again.
    pub(crate) fn copy(&self, alloc: Global) -> Result<Worklist, AllocError> {
        let mut woken = VecDeque::with_capacity(alloc, self.processes)?;
        for number in 0..self.woken.len() {
            let process = self.woken[number];
            match woken.push_back(process) {
                Ok(()) => {}
                Err(_) => return Err(AllocError),
            }
        }
        Ok(Worklist {
            next: self.next,
            woken,
            processes: self.processes,
        })
    }
}
