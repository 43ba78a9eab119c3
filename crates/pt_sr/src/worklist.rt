ghost use Rattle.std.specs.Prelude.{◌^◌, ◌<◌, length};

use crate::plan::CorePlan;
use std::alloc::{AllocError, Global};

/// The children that may react, as far as is noted: each at first, then those of which an input became known that they waited for.
///
/// No contract speaks of it. Whoever takes a child from it looks at the child, and looks at all where it is empty.
#[derive(Drop)]
pub(crate) struct Worklist {
    /// Each child once, in the order that the plan hints at.
    seeds: Vec<u32>,
    /// How many of these were taken.
    at: usize,
    /// The children that stand in the worklist again, but those that give early answers.
    woken: Vec<u32>,
    /// Those that do, which come last: more is known to them then.
    early: Vec<u32>,
    /// Whether each child stands in the worklist.
    listed: Vec<bool>,
    /// For how many inputs each child still waits that doesn't, until it is to be looked at again.
    waits: Vec<usize>,
    /// Whether each gives early answers, and is looked at whenever an input of it becomes known.
    eager: Vec<bool>,
    /// The child at whose place each channel ends, and a number past them for an own output.
    readers: Vec<u32>,
}

impl Worklist {
    ghost use Rattle.std.specs.Prelude.{◌^◌, ◌<◌, length};

    pub(crate) fn new(alloc: Global, plan: &CorePlan) -> Result<Worklist, AllocError>
        requires { length plan.now.places < 2 ^ 32 }
    {
        let children = plan.places.len();
        let readers = readers_of(alloc, plan)?;
        let seeds = seeds_of(alloc, &plan.order, children)?;
        let eager = Vec::from_slice(alloc, &plan.nonstrict)?;
        let woken = Vec::with_capacity(alloc, children)?;
        let early = Vec::with_capacity(alloc, children)?;
        Ok(Worklist {
            seeds,
            at: 0,
            woken,
            early,
            listed: vec![in alloc; true; children]?,
            waits: vec![in alloc; 0; children]?,
            eager,
            readers,
        })
    }

    /// Each child stands in the worklist.
    pub(crate) fn restart(&mut self) {
        self.at = 0;
        self.woken.clear();
        self.early.clear();
        for listed in &mut self.listed {
            *listed = true;
        }
    }

    /// At most so many children stand in it.
    pub(crate) fn len(&self) -> usize {
        self.seeds
            .len()
            .saturating_sub(self.at)
            .saturating_add(self.woken.len())
            .saturating_add(self.early.len())
    }

    /// Takes a child out of it.
    #[inline(always)]
    pub(crate) fn take(&mut self) -> Option<u32> {
        let child = self.front()?;
        if let Some(listed) = self.listed.get_mut(child as usize) {
            *listed = false;
        }
        Some(child)
    }

    #[inline(always)]
    fn front(&mut self) -> Option<u32> {
        if let Some(child) = self.woken.pop() {
            return Some(child);
        }
        match self.seeds.get(self.at) {
            Some(child) => {
                let child = *child;
                self.at = self.at.saturating_add(1);
                Some(child)
            }
            None => self.early.pop(),
        }
    }

    /// Notes that a child that was taken waits for so many inputs, of which it wants to be told once all are known, or where it gives early answers at each.
    pub(crate) fn wait(&mut self, child: u32, inputs: usize) {
        let eager = matches!(self.eager.get(child as usize), Some(true));
        if let Some(waits) = self.waits.get_mut(child as usize) {
            *waits = if eager { 1 } else { inputs };
        }
    }

    /// Notes that a channel has become known, if it has. Its reader stands in the worklist then, where it waited for that.
    #[inline(always)]
    pub(crate) fn note(&mut self, channel: u32, news: bool) {
        if news && let Some(reader) = self.readers.get(channel as usize) {
            let child = *reader;
            if let Some(listed) = self.listed.get(child as usize)
                && !*listed
            {
                self.wake(child);
            }
        }
    }

    /// One input less is unknown of a child that doesn't stand in the worklist.
    #[inline(never)]
    fn wake(&mut self, child: u32) {
        if !self.has_woken(child as usize) {
            return;
        }
        if matches!(self.eager.get(child as usize), Some(true)) {
            list(&mut self.early, child);
        } else {
            list(&mut self.woken, child);
        }
    }

    /// Whether the child is to be listed now.
    fn has_woken(&mut self, child: usize) -> bool {
        let Some(waits) = self.waits.get_mut(child) else {
            return false;
        };
        *waits = waits.saturating_sub(1);
        if *waits > 0 {
            return false;
        }
        if let Some(listed) = self.listed.get_mut(child) {
            *listed = true;
        }
        true
    }

    /// The same again.
    pub(crate) fn copy(&self, alloc: Global) -> Result<Worklist, AllocError> {
        let mut woken = Vec::with_capacity(alloc, self.listed.len())?;
        for child in &self.woken {
            woken.push(*child)?;
        }
        let mut early = Vec::with_capacity(alloc, self.listed.len())?;
        for child in &self.early {
            early.push(*child)?;
        }
        Ok(Worklist {
            seeds: Vec::from_slice(alloc, &self.seeds)?,
            at: self.at,
            woken,
            early,
            listed: Vec::from_slice(alloc, &self.listed)?,
            waits: Vec::from_slice(alloc, &self.waits)?,
            eager: Vec::from_slice(alloc, &self.eager)?,
            readers: Vec::from_slice(alloc, &self.readers)?,
        })
    }
}

/// Puts a child behind others, where there is room.
fn list(row: &mut Vec<u32>, child: u32) {
    if row.len() < row.capacity() {
        row.push_reserved(child);
    }
}

/// The children in the order of a hint, and behind them those that it leaves out.
fn seeds_of(alloc: Global, order: &[u32], children: usize) -> Result<Vec<u32>, AllocError>
    requires { children < 2 ^ 32 }
{
    let mut seen = vec![in alloc; false; children]?;
    let mut seeds = Vec::with_capacity(alloc, children)?;
    for child in order {
        if is_new(&mut seen, *child as usize) {
            seeds.push(*child)?;
        }
    }
    for child in 0..children {
        if is_new(&mut seen, child) {
            seeds.push(child as u32)?;
        }
    }
    Ok(seeds)
}

/// Whether a child is there and wasn't seen before. It is seen then.
fn is_new(seen: &mut Vec<bool>, child: usize) -> bool {
    if child >= seen.len() || seen[child] {
        return false;
    }
    seen[child] = true;
    true
}

/// The child at whose place each channel ends.
fn readers_of(alloc: Global, plan: &CorePlan) -> Result<Vec<u32>, AllocError>
    requires { length plan.now.places < 2 ^ 32 }
{
    let places = plan.places.as_slice();
    let mut readers = Vec::with_capacity(alloc, plan.sources.len())?;
    for child in 0..places.len() {
        for _ in 0..places[child] {
            readers.push(child as u32)?;
        }
    }
    Ok(readers)
}
