ghost use Rattle.std.specs.Prelude.{◌≡◌, IfOk, map};

use pt_core::Source;
use pt_firing::{Counts, Tokens};
use std::alloc::{AllocError, Global};

/// The net of a PN composite, and what its director states.
/// Channels are numbered by the places where they end: those of the processes in order, then the own outputs.
#[derive(Drop)]
pub struct CorePlan {
    /// Where each channel begins.
    pub sources: Vec<Source>,
    /// How many places each process has.
    pub places: Counts,
    /// What a firing takes from each own input.
    pub takes: Counts,
    /// The initial and the maximum capacity of channels.
    pub initial: usize,
    pub maximum: usize,
    /// The first tokens of each channel.
    pub first: Vec<Tokens>,
    /// What each process needs at its start, or `None` where it is over.
    pub starts: Vec<Option<Counts>>,
}

impl CorePlan {
    ghost use Rattle.std.specs.Prelude.{◌≡◌, IfOk};
    ghost use Rattle.pt_process.specs.Plan.{IsSamePlan};

    /// The same plan again.
    pub fn copy(&self, alloc: Global) -> Result<CorePlan, AllocError>
        ensures { IfOk result (λ plan. IsSamePlan self.now plan) }
    {
        let sources = Vec::from_slice(alloc, &self.sources)?;
        let first = copies(alloc, &self.first)?;
        let starts = needs_of(alloc, &self.starts)?;
        let places = self.places.copy(alloc)?;
        let takes = self.takes.copy(alloc)?;
        Ok(CorePlan {
            sources,
            places,
            takes,
            initial: self.initial,
            maximum: self.maximum,
            first,
            starts,
        })
    }
}

/// The same lists again.
pub(crate) fn copies(alloc: Global, lists: &[Tokens]) -> Result<Vec<Tokens>, AllocError>
    ensures { IfOk result (λ copies. copies.items ≡ lists.now) }
{
    let mut copies = Vec::with_capacity(alloc, lists.len())?;
    for tokens in lists {
        let tokens = tokens.copy(alloc)?;
        copies.push(tokens)?;
    }
    Ok(copies)
}

fn needs_of(alloc: Global, needs: &[Option<Counts>]) -> Result<Vec<Option<Counts>>, AllocError>
    ensures { IfOk result (λ copies. copies.items ≡ needs.now) }
{
    let mut copies = Vec::with_capacity(alloc, needs.len())?;
    for need in needs {
        let copy = need_copy(alloc, need)?;
        copies.push(copy)?;
    }
    Ok(copies)
}

/// The same need again.
pub fn need_copy(alloc: Global, need: &Option<Counts>) -> Result<Option<Counts>, AllocError>
    ensures { IfOk result (λ copy. copy ≡ need.now) }
{
    match need {
        Some(counts) => match counts.copy(alloc) {
            Ok(copy) => Ok(Some(copy)),
            Err(fault) => Err(fault),
        },
        None => Ok(None),
    }
}
