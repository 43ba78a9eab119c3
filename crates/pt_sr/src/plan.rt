ghost use Rattle.std.specs.Prelude.{◌≡◌, IfOk};

use pt_core::Source;
use pt_firing::Counts;
use std::alloc::{AllocError, Global};

/// The net of an SR composite.
/// Channels are numbered by the places where they end: those of the children in order, then the own outputs.
#[derive(Debug, Drop)]
pub struct CorePlan {
    /// Where each channel begins.
    pub sources: Vec<Source>,
    /// How many places each child has.
    pub places: Counts,
    /// How many outputs each child has.
    pub outputs: Counts,
    /// Whether each child gives early answers.
    pub nonstrict: Vec<bool>,
    /// How many tokens a tick takes at most from each own input: one.
    pub takes: Counts,
    /// The children in an order in which few wait for later ones: a hint, which is tested and not trusted.
    pub order: Vec<u32>,
}

impl CorePlan {
    ghost use Rattle.std.specs.Prelude.{◌≡◌, IfOk};
    ghost use Rattle.pt_sr.specs.Plan.{IsSamePlan};

    /// The same plan again.
    pub fn copy(&self, alloc: Global) -> Result<CorePlan, AllocError>
        ensures { IfOk result (λ plan. IsSamePlan self.now plan) }
    {
        Ok(CorePlan {
            sources: Vec::from_slice(alloc, &self.sources)?,
            places: self.places.copy(alloc)?,
            outputs: self.outputs.copy(alloc)?,
            nonstrict: Vec::from_slice(alloc, &self.nonstrict)?,
            takes: self.takes.copy(alloc)?,
            order: Vec::from_slice(alloc, &self.order)?,
        })
    }
}
