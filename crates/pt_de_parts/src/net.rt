ghost use Rattle.std.specs.Prelude.{◌≡◌, ℕ, ◌+◌, ◌^◌, ◌<◌, ◌≤◌, length, map, get_or, take, false, None, IfOk};
ghost use Rattle.pt_meaning.specs.Running.{total};
ghost use Rattle.pt_de_laws.specs.Lawful.{IsLawful};
ghost use Rattle.pt_reaction.specs.Feeds.{target_of, targets, MovesOnce};
ghost use Rattle.pt_de_parts.specs.Net.{planned_of, reader_in, IsSameInside, IsSamePlan};

use pt_de_plan::{DeInside, DePlan};
use pt_firing::Counts;
use pt_reaction::{Feed, feeds_of, offsets_of, readers_of};
use pt_time::Tag;
use std::alloc::{AllocError, Global};
use std::marker::Model;

/// The plan of a composite, and the tables that are read of it. Nothing of it changes.
#[derive(Drop)]
pub struct Net {
    plan: DePlan,
    // How many outputs each child has.
    outputs: Counts,
    // Where the places of each child begin, and where those of all end.
    offsets: Vec<usize>,
    // The channels that each child feeds, and behind them those that the own inputs feed.
    feeds: Vec<Vec<Feed>>,
    // The child at whose place each channel ends.
    readers: Vec<u32>,
}

impl Model for Net {
    ghost use Rattle.pt_de_parts.specs.Net.{Planned, coded_planned, planned_in, IsNet};

    ghost Value = { Planned };

    ghost coded = { coded_planned };

    ghost view = { planned_in };

    ghost invariant = { IsNet };
}

impl Net {
    /// The tables of this plan, where the children have so many outputs.
    pub fn new(alloc: Global, plan: DePlan, outputs: Counts) -> Result<Net, AllocError>
        requires lawful { IsLawful (planned_of plan).plan (planned_of plan).roles }
        requires few { length plan.inside.places < 2 ^ 32 }
        requires fewer { length plan.inside.sources.items < 2 ^ 32 }
        requires outputs { length outputs ≡ length plan.inside.places }
        ensures { IfOk result (λ net. net ≡ planned_of plan) }
    {
        let inside = &plan.inside;
        let places = inside.places.as_slice();
        let offsets = offsets_of(alloc, places)?;
        let readers = readers_of(alloc, places, inside.sources.len())?;
        let own = inside.inputs as usize;
        let feeds = feeds_of(alloc, &inside.sources, outputs.as_slice(), own)?;
        Ok(Net {
            plan,
            outputs,
            offsets,
            feeds,
            readers,
        })
    }

    /// How many children there are.
    pub fn children(&self) -> usize
        ensures count { result ≡ length self.now.plan.net.places }
        ensures few { result < 2 ^ 32 }
    {
        self.plan.inside.places.len()
    }

    /// How many channels there are.
    pub fn channels(&self) -> usize
        ensures { result ≡ length self.now.plan.net.sources }
    {
        self.plan.inside.sources.len()
    }

    /// The channel that ends at the first place of a child.
    pub fn first(&self, child: usize) -> usize
        requires { child < length self.now.plan.net.places }
        ensures { result ≡ total (take child self.now.plan.net.places) }
    {
        self.offsets[child]
    }

    /// The channel behind the last of a child.
    pub fn behind(&self, child: usize) -> usize
        requires { child < length self.now.plan.net.places }
        ensures { result ≡ total (take (child + 1) self.now.plan.net.places) }
    {
        self.offsets[child + 1]
    }

    /// How many places the children have.
    pub fn end(&self) -> usize
        ensures { result ≡ total self.now.plan.net.places }
    {
        self.offsets[self.plan.inside.places.len()]
    }

    /// The channels that a child feeds, or behind the last child those that the own inputs feed.
    pub fn feeds(&self, row: usize) -> &[Feed]
        requires { row ≤ length self.now.plan.net.places }
        ensures targets { map target_of result.now ≡ targets (length self.now.plan.net.places) row 0 self.now.plan.net.sources }
        ensures moves { MovesOnce result.now }
    {
        &self.feeds[row]
    }

    /// The child at whose place a channel ends, and the number of children where it is an own output.
    pub fn reader(&self, channel: usize) -> u32
        requires { channel < length self.now.plan.net.sources }
        ensures { result ≡ reader_in self.now channel }
    {
        self.readers[channel]
    }

    /// Whether a channel ends at a delay.
    pub fn is_delayed(&self, channel: usize) -> bool
        requires { channel < length self.now.plan.net.sources }
        ensures { result ≡ get_or self.now.roles.delayed channel false }
    {
        self.plan.inside.delayed[channel]
    }

    /// Whether a child has delays, so that it answers early.
    pub fn is_early(&self, child: usize) -> bool
        requires { child < length self.now.plan.net.places }
        ensures { result ≡ get_or self.now.roles.early child false }
    {
        self.plan.inside.early[child]
    }

    /// Whether a child takes its lists whole.
    pub fn takes_whole(&self, child: usize) -> bool
        requires { child < length self.now.plan.net.places }
        ensures { result ≡ get_or self.now.roles.whole child false }
    {
        self.plan.inside.whole[child]
    }

    /// The wake of each child at its start.
    pub fn starts(&self) -> &[Option<Tag>]
        ensures { result.now ≡ self.now.roles.starts }
    {
        &self.plan.inside.starts
    }

    /// The depth of each child.
    pub fn depths(&self) -> &[u32]
        ensures { result.now ≡ self.now.roles.depths }
    {
        &self.plan.depths
    }

    /// The most places that a child has.
    pub fn width(&self) -> usize
        ensures { (i : ℕ) → get_or self.now.plan.net.places i 0 ≤ result }
    {
        let mut most = 0usize;
        for count in self.plan.inside.places.as_slice() {
            most = (*count).max(most);
        }
        most
    }

    pub fn copy(&self, alloc: Global) -> Result<Net, AllocError>
        ensures { IfOk result (λ net. net ≡ self.now) }
    {
        let plan = copy_of_plan(alloc, &self.plan)?;
        let outputs = self.outputs.copy(alloc)?;
        Net::new(alloc, plan, outputs)
    }
}

fn copy_of_plan(alloc: Global, plan: &DePlan) -> Result<DePlan, AllocError>
    ensures { IfOk result (IsSamePlan plan.now) }
{
    let depths = Vec::from_slice(alloc, &plan.depths)?;
    let inside = copy_of_inside(alloc, &plan.inside)?;
    Ok(DePlan { inside, depths })
}

fn copy_of_inside(alloc: Global, inside: &DeInside) -> Result<DeInside, AllocError>
    ensures { IfOk result (IsSameInside inside.now) }
{
    Ok(DeInside {
        sources: Vec::from_slice(alloc, &inside.sources)?,
        places: inside.places.copy(alloc)?,
        inputs: inside.inputs,
        delayed: Vec::from_slice(alloc, &inside.delayed)?,
        early: Vec::from_slice(alloc, &inside.early)?,
        whole: Vec::from_slice(alloc, &inside.whole)?,
        starts: Vec::from_slice(alloc, &inside.starts)?,
    })
}
