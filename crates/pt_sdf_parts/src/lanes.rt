ghost use Rattle.std.specs.Prelude.{◌≡◌, ℕ, ◌+◌, ◌^◌, ◌<◌, ◌≤◌, length, get_or, IfOk, IsTrue};
ghost use Rattle.pt_sdf_parts.specs.ByNeed.{place_of};
ghost use Rattle.pt_sdf_parts.specs.Lanes.{NeedsOneEach, FitsInlet, FitsOutlet, IsLane, AreLanes};

use crate::feeds::Feed;
use pt_firing::Counts;
use std::alloc::{AllocError, Global};

/// What is simple of a child, so that its firings need no walk over places and feeds.
#[derive(Clone, Copy, Debug)]
pub struct Lane {
    pub inlet: Inlet,
    pub outlet: Outlet,
}

/// What comes to a child.
#[derive(Clone, Copy, Debug)]
pub enum Inlet {
    /// It has no place.
    Nothing,
    /// It has one place, where it needs so many tokens of this channel.
    Alone(u32, usize),
    /// It needs one token at each of its places.
    Each,
    Several,
}

/// What a child feeds that has one port.
#[derive(Clone, Copy, Debug)]
pub enum Outlet {
    /// It gives one token, on no channel.
    Nothing,
    /// It gives one token on this channel alone.
    One(u32),
    /// It gives so many tokens on this channel alone.
    Burst(u32, usize),
    /// Several channels, or it isn't such a child.
    Several,
}

/// The lanes of children with these places, needs, rates and feeds, whose places begin at `offsets`.
pub(crate) fn lanes_of(
    alloc: Global,
    places: &[usize],
    needs: &[usize],
    rates: &[Counts],
    offsets: &[usize],
    feeds: &[Vec<Feed>],
) -> Result<Vec<Lane>, AllocError>
    requires few { length needs.now < 2 ^ 32 }
    requires offsets { (i : ℕ) → i < length places.now → get_or offsets.now i 0 ≡ place_of places.now i }
    requires offsets_counted { length offsets.now ≡ length places.now }
    requires rates_counted { length rates.now ≡ length places.now }
    requires feeds_counted { length places.now < length feeds.now }
    requires needed { (i : ℕ) → i < length places.now → place_of places.now i + get_or places.now i 0 ≤ length needs.now }
    ensures { IfOk result (λ lanes. AreLanes places.now needs.now rates.now feeds.now lanes.items) }
{
    let mut lanes = Vec::with_capacity(alloc, places.len())?;
    for i in 0..places.len() {
        let lane = lane_of(needs, offsets[i], places[i], rates[i].as_slice(), &feeds[i]);
        lanes.push_reserved(lane);
    }
    Ok(lanes)
}

/// The lane of a child whose places begin at `from`.
fn lane_of(needs: &[usize], from: usize, places: usize, rates: &[usize], feeds: &[Feed]) -> Lane
    requires few { length needs.now < 2 ^ 32 }
    requires needed { from + places ≤ length needs.now }
    ensures { IsLane needs.now from places rates.now feeds.now result }
{
    Lane {
        inlet: inlet_of(needs, from, places),
        outlet: outlet_of(rates, feeds),
    }
}

fn inlet_of(needs: &[usize], from: usize, places: usize) -> Inlet
    requires few { length needs.now < 2 ^ 32 }
    requires needed { from + places ≤ length needs.now }
    ensures { FitsInlet needs.now from places result }
{
    if places == 0 {
        Inlet::Nothing
    } else if places == 1 {
        Inlet::Alone(from as u32, needs[from])
    } else if needs_one_each(needs, from, places) {
        Inlet::Each
    } else {
        Inlet::Several
    }
}

fn outlet_of(rates: &[usize], feeds: &[Feed]) -> Outlet
    ensures { FitsOutlet rates.now feeds.now result }
{
    match (rates, feeds) {
        ([1], []) => Outlet::Nothing,
        ([1], [feed]) if feed.port == 0 => Outlet::One(feed.channel),
        ([rate], [feed]) if feed.port == 0 => Outlet::Burst(feed.channel, *rate),
        _ => Outlet::Several,
    }
}

/// Whether each of the places needs one token.
fn needs_one_each(needs: &[usize], from: usize, places: usize) -> bool
    requires needed { from + places ≤ length needs.now }
    ensures { IsTrue result → NeedsOneEach needs.now from places }
{
    for k in 0..places {
        if needs[from + k] != 1 {
            return false;
        }
    }
    true
}
