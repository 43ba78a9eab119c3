ghost use Rattle.std.specs.Prelude.{◌≡◌, IfOk};

use pt_core::Source;
use pt_firing::Counts;
use pt_puts::KeptNeed;
use std::alloc::{AllocError, Global};

/// The net of a Rendezvous composite, and what its director has to know of its processes.
/// Channels are numbered by the places where they end: those of the processes in order, then the own outputs.
#[derive(Drop)]
pub struct CorePlan {
    /// Where each channel begins.
    pub sources: Vec<Source>,
    /// How many places each process has.
    pub places: Counts,
    /// Which processes are Barriers.
    pub barriers: Vec<bool>,
    /// What a firing takes from each own input.
    pub takes: Counts,
    /// What each process needs at its start.
    pub starts: Vec<KeptNeed>,
}

impl CorePlan {
    ghost use Rattle.std.specs.Prelude.{◌≡◌, IfOk};
    ghost use Rattle.pt_rv_plan.specs.Plan.{IsSamePlan};

    /// The same plan again.
    pub fn copy(&self, alloc: Global) -> Result<CorePlan, AllocError>
        ensures { IfOk result (λ plan. IsSamePlan self.now plan) }
    {
        let sources = Vec::from_slice(alloc, &self.sources)?;
        let barriers = Vec::from_slice(alloc, &self.barriers)?;
        let starts = needs_of(alloc, &self.starts)?;
        let places = self.places.copy(alloc)?;
        let takes = self.takes.copy(alloc)?;
        Ok(CorePlan {
            sources,
            places,
            barriers,
            takes,
            starts,
        })
    }
}

/// The same needs again.
fn needs_of(alloc: Global, needs: &[KeptNeed]) -> Result<Vec<KeptNeed>, AllocError>
    ensures { IfOk result (λ copies. copies.items ≡ needs.now) }
{
    let mut copies = Vec::with_capacity(alloc, needs.len())?;
    for need in needs {
        let copy = need.copy(alloc)?;
        copies.push(copy)?;
    }
    Ok(copies)
}
