ghost use Rattle.std.specs.Prelude.{◌≡◌, ◌^◌, ◌<◌, ◌≤◌, length, IfOk};
ghost use Rattle.pt_meaning.specs.Rounds.{has_rates};
ghost use Rattle.pt_meaning.specs.Running.{total};
ghost use Rattle.pt_sched.specs.Stretches.{spread};
ghost use Rattle.pt_sdf_parts.specs.Stretches.{left_at_first};
ghost use Rattle.pt_sdf_parts.specs.Lanes.{begins, AreTables};
ghost use Rattle.pt_sdf_parts.specs.Stretches.{IsWithin, IsAdvanced};

use crate::feeds::{Feed, feeds_of};
use crate::lanes::{Lane, lanes_of};
use crate::plan::CorePlan;
use pt_firing::{Outputs, Tokens};
use pt_recv::Channels;
use pt_sched::Stretch;
use std::alloc::{AllocError, Global};

/// What is worked out of a plan once.
#[derive(Drop)]
pub struct Tables {
    /// Where the places of each child begin.
    pub offsets: Vec<usize>,
    /// The channels that each child feeds, and behind them those that the own inputs feed.
    pub feeds: Vec<Vec<Feed>>,
    /// What is simple of each child.
    pub lanes: Vec<Lane>,
}

impl Tables {
    pub fn of(alloc: Global, plan: &CorePlan) -> Result<Tables, AllocError>
        requires few { length plan.now.sources.items < 2 ^ 32 }
        requires rates { length plan.now.rates.items ≡ length plan.now.places }
        requires needed { length plan.now.needs ≡ total plan.now.places }
        requires channels { total plan.now.places ≤ length plan.now.sources.items }
        requires children { length plan.now.places < usize.MAX }
        ensures { IfOk result (AreTables plan.now) }
    {
        let places = plan.places.as_slice();
        let offsets = offsets_of(alloc, places)?;
        let feeds = feeds_of(alloc, plan)?;
        let lanes = lanes_of(
            alloc,
            places,
            plan.needs.as_slice(),
            &plan.rates,
            &offsets,
            &feeds,
        )?;
        Ok(Tables {
            offsets,
            feeds,
            lanes,
        })
    }
}

/// Where the places of each child begin. `places` has so many in all that their number is in range.
fn offsets_of(alloc: Global, places: &[usize]) -> Result<Vec<usize>, AllocError>
    ensures { IfOk result (λ offsets. offsets.items ≡ begins 0 places.now) }
{
    let mut offsets = Vec::with_capacity(alloc, places.len())?;
    let mut from = 0usize;
    for n in places {
        offsets.push_reserved(from);
        let Some(next) = from.checked_add(*n) else {
            return Err(AllocError);
        };
        from = next;
    }
    Ok(offsets)
}

/// So many empty lists.
pub fn empty_lists(alloc: Global, n: usize) -> Result<Vec<Tokens>, AllocError>
    ensures { IfOk result (λ lists. length lists.items ≡ n) }
{
    let mut lists = Vec::with_capacity(alloc, n)?;
    for _ in 0..n {
        lists.push_reserved(Tokens::new());
    }
    Ok(lists)
}

/// Copies of some lists.
pub fn copies_of_lists(alloc: Global, lists: &[Tokens]) -> Result<Vec<Tokens>, AllocError>
    ensures { IfOk result (λ copies. copies.items ≡ lists.now) }
{
    let mut copies = Vec::with_capacity(alloc, lists.len())?;
    for tokens in lists {
        copies.push(tokens.copy(alloc)?)?;
    }
    Ok(copies)
}

/// Makes each channel ready for so many tokens in all.
pub fn make_ready(channels: &mut Channels, room: &[usize]) -> Result<(), AllocError>
    requires few { length channels.old.lists < 2 ^ 32 }
    requires counted { length room.now ≡ length channels.old.lists }
    ensures { channels.new.lists ≡ channels.old.lists }
{
    for c in 0..room.len() {
        let held = channels.len(c as u32);
        channels.ready(c as u32, room[c].saturating_sub(held))?;
    }
    Ok(())
}

/// Whether each port gave as many tokens as its rate says.
pub fn fits_rates(rates: &[usize], outputs: &Outputs) -> bool
    ensures { result ≡ has_rates rates.now outputs.now }
{
    if rates.len() != outputs.ports() {
        return false;
    }
    for port in 0..rates.len() {
        if outputs.list(port).len() != rates[port] {
            return false;
        }
    }
    true
}

/// Goes on by one firing in an order, or to the next turn. `at` is the stretch, of which `done` firings are made.
#[inline(always)]
pub fn advance(order: &[Stretch], left: &mut usize, at: &mut usize, done: &mut u32)
    requires within { IsWithin order.now at.old done.old }
    requires some { 0 < left.old }
    ensures { IsAdvanced order.now left.old at.old done.old left.new at.new done.new }
{
    if *done < order[*at].again {
        *done += 1;
        return;
    }
    *done = 0;
    if *at + 1 == order.len() {
        *left -= 1;
        *at = 0;
        return;
    }
    *at += 1;
}

/// How many turns of an order are to be made.
pub fn turns_of(order: &[Stretch], turns: usize) -> usize
    ensures { result ≡ left_at_first (spread order.now) turns }
{
    if order.is_empty() {
        return 0;
    }
    turns
}
