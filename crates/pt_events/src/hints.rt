use crate::feeders::{Children, empty_lists};
use std::alloc::{AllocError, Global};

/// Which children may have no feeder of unknown depth. It says where to look first, and no proof rests on it.
#[derive(Drop)]
pub(crate) struct Hints {
    // The children that each child feeds, and how many feeders of unknown depth each has.
    fed: Vec<Children>,
    waiting: Vec<usize>,
    pub(crate) ready: Vec<u32>,
}

impl Hints {
    /// Before any depth is known.
    pub(crate) fn new(alloc: Global, n: u32, edges: &[(u32, u32)]) -> Result<Hints, AllocError> {
        let mut hints = Hints {
            fed: empty_lists(alloc, n)?,
            waiting: vec![in alloc; 0usize; n as usize]?,
            ready: Vec::new(alloc),
        };
        for (from, to) in edges {
            hints.note(*from, *to)?;
        }
        for child in (0..n).rev() {
            hints.add(child)?;
        }
        Ok(hints)
    }

    /// Notes that a child feeds another.
    fn note(&mut self, from: u32, to: u32) -> Result<(), AllocError> {
        if let Some(waiting) = self.waiting.get_mut(to as usize) {
            *waiting = waiting.saturating_add(1);
        }
        if let Some(fed) = self.fed.get_mut(from as usize) {
            fed.push(to)?;
        }
        Ok(())
    }

    /// The depth of a child is known: those that it feeds wait for one feeder less.
    pub(crate) fn found(&mut self, child: u32) -> Result<(), AllocError> {
        if child as usize >= self.fed.len() {
            return Ok(());
        }
        for fed in self.fed[child as usize].as_slice() {
            if let Some(waiting) = self.waiting.get_mut(*fed as usize) {
                *waiting = waiting.saturating_sub(1);
                if *waiting == 0 {
                    self.ready.push(*fed)?;
                }
            }
        }
        Ok(())
    }

    /// Notes a child that waits for no feeder.
    fn add(&mut self, child: u32) -> Result<(), AllocError> {
        if self.waiting.get(child as usize) == Some(&0) {
            self.ready.push(child)?;
        }
        Ok(())
    }
}
