ghost use Rattle.std.specs.Prelude.{◌≡◌, IfOk};

use pt_core::Source;
use pt_firing::Counts;
use pt_sched::Stretch;
use std::alloc::{AllocError, Global};

/// The net of an SDF composite with its rates, and the order of the firings of an iteration.
/// Channels are numbered by the places where they end: those of the children in order, then the own outputs.
/// Behind these are channels that end nowhere, one for each own input that feeds nothing: its tokens bound the iterations.
#[derive(Debug, Drop)]
pub struct CorePlan {
    /// Where each channel begins.
    pub sources: Vec<Source>,
    /// How many places each child has.
    pub places: Counts,
    /// How many tokens a firing takes, for each place of each child.
    pub needs: Counts,
    /// How many tokens a firing gives, for each port of each child.
    pub rates: Vec<Counts>,
    /// How often each child fires in an iteration.
    pub repetitions: Counts,
    /// How many tokens an iteration takes from each own input.
    pub takes: Counts,
    /// How many tokens an iteration gives on each own output.
    pub gives: Counts,
    /// The children of an iteration's firings, one after another, stretch by stretch.
    pub order: Vec<Stretch>,
    /// How many tokens each channel is to have room for.
    pub room: Counts,
}

/// What a plan says of the children.
#[derive(Drop)]
struct ChildRates {
    places: Counts,
    needs: Counts,
    rates: Vec<Counts>,
}

/// What a plan says of an iteration.
#[derive(Drop)]
struct IterationCounts {
    repetitions: Counts,
    takes: Counts,
    gives: Counts,
}

/// What a plan says of the channels, and the order of the firings.
#[derive(Drop)]
struct ChannelLists {
    sources: Vec<Source>,
    order: Vec<Stretch>,
    room: Counts,
}

impl CorePlan {
    ghost use Rattle.std.specs.Prelude.{◌≡◌, IfOk};
    ghost use Rattle.pt_sdf_parts.specs.Plan.{IsSamePlan};

    /// The same plan again.
    pub fn copy(&self, alloc: Global) -> Result<CorePlan, AllocError>
        ensures { IfOk result (λ plan. IsSamePlan self.now plan) }
    {
        let children = self.child_rates(alloc)?;
        let iteration = self.iteration_counts(alloc)?;
        let channels = self.channel_lists(alloc)?;
        Ok(CorePlan {
            sources: channels.sources,
            places: children.places,
            needs: children.needs,
            rates: children.rates,
            repetitions: iteration.repetitions,
            takes: iteration.takes,
            gives: iteration.gives,
            order: channels.order,
            room: channels.room,
        })
    }

    fn child_rates(&self, alloc: Global) -> Result<ChildRates, AllocError>
        ensures places { IfOk result (λ copy. copy.places ≡ self.now.places) }
        ensures needs { IfOk result (λ copy. copy.needs ≡ self.now.needs) }
        ensures rates { IfOk result (λ copy. copy.rates.items ≡ self.now.rates.items) }
    {
        Ok(ChildRates {
            places: self.places.copy(alloc)?,
            needs: self.needs.copy(alloc)?,
            rates: copies(alloc, &self.rates)?,
        })
    }

    fn iteration_counts(&self, alloc: Global) -> Result<IterationCounts, AllocError>
        ensures repetitions { IfOk result (λ copy. copy.repetitions ≡ self.now.repetitions) }
        ensures takes { IfOk result (λ copy. copy.takes ≡ self.now.takes) }
        ensures gives { IfOk result (λ copy. copy.gives ≡ self.now.gives) }
    {
        Ok(IterationCounts {
            repetitions: self.repetitions.copy(alloc)?,
            takes: self.takes.copy(alloc)?,
            gives: self.gives.copy(alloc)?,
        })
    }

    fn channel_lists(&self, alloc: Global) -> Result<ChannelLists, AllocError>
        ensures sources { IfOk result (λ copy. copy.sources.items ≡ self.now.sources.items) }
        ensures order { IfOk result (λ copy. copy.order.items ≡ self.now.order.items) }
        ensures room { IfOk result (λ copy. copy.room ≡ self.now.room) }
    {
        Ok(ChannelLists {
            sources: Vec::from_slice(alloc, &self.sources)?,
            order: Vec::from_slice(alloc, &self.order)?,
            room: self.room.copy(alloc)?,
        })
    }
}

fn copies(alloc: Global, rates: &[Counts]) -> Result<Vec<Counts>, AllocError>
    ensures { IfOk result (λ copies. copies.items ≡ rates.now) }
{
    let mut copies = Vec::with_capacity(alloc, rates.len())?;
    for counts in rates {
        copies.push(counts.copy(alloc)?)?;
    }
    Ok(copies)
}
