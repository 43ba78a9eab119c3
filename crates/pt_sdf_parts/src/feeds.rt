ghost use Rattle.std.specs.Prelude.{◌≡◌, ℕ, ◌+◌, ◌^◌, ◌<◌, length, map, IfOk, OnOk, [], ◌∷◌, ◌++◌, get_or, slice_set, true, false};
ghost use Rattle.pt_core.specs.Source.{source_of};
ghost use Rattle.pt_sdf_parts.specs.Feeds.{target_of, rows_in, row_of, port_of, AreFeeds, AreTargets, MovesOnce};

use crate::plan::CorePlan;
use pt_core::Source;
use std::alloc::{AllocError, Global};

/// A channel that a port feeds, and whether it is the first of that port, to which the tokens are moved.
#[derive(Clone, Copy, Debug)]
pub struct Feed {
    pub channel: u32,
    pub port: u32,
    pub moves: bool,
}

/// The channels that each child feeds, and behind them those that the own inputs feed.
pub(crate) fn feeds_of(alloc: Global, plan: &CorePlan) -> Result<Vec<Vec<Feed>>, AllocError>
    requires few { length plan.now.sources.items < 2 ^ 32 }
    requires children { length plan.now.places < usize.MAX }
    ensures { IfOk result (λ feeds. AreFeeds (length plan.now.places) (map source_of plan.now.sources.items) feeds.items) }
{
    let mut rows = rows_of(alloc, plan.places.len(), &plan.sources)?;
    for r in 0..rows.len() {
        let row = &mut rows[r];
        mark(alloc, row, ports_of(plan, r))?;
    }
    Ok(rows)
}

/// How many ports a row has at most.
fn ports_of(plan: &CorePlan, r: usize) -> usize {
    match plan.rates.get(r) {
        Some(rates) => rates.len(),
        None => plan.takes.len(),
    }
}

/// So many rows without feeds, and one more.
fn empty_rows(alloc: Global, n: usize) -> Result<Vec<Vec<Feed>>, AllocError>
    requires { n < usize.MAX }
    ensures { IfOk result (λ rows. AreTargets n [] rows.items) }
{
    let mut rows = Vec::with_capacity(alloc, n + 1)?;
    for _ in 0..n + 1 {
        rows.push_reserved(Vec::new(alloc));
    }
    Ok(rows)
}

/// The rows of n children, of which nothing is moved yet.
fn rows_of(alloc: Global, n: usize, sources: &[Source]) -> Result<Vec<Vec<Feed>>, AllocError>
    requires few { length sources.now < 2 ^ 32 }
    requires children { n < usize.MAX }
    ensures { IfOk result (λ rows. AreTargets n (map source_of sources.now) rows.items) }
{
    let mut rows = empty_rows(alloc, n)?;
    for c in 0..sources.len() {
        let r = row_in(n, sources[c]);
        if r <= n {
            let feed = Feed {
                channel: c as u32,
                port: port_in(sources[c]),
                moves: false,
            };
            add(&mut rows, r, feed)?;
        }
    }
    Ok(rows)
}

/// Puts a feed behind the others of a row.
fn add(rows: &mut Vec<Vec<Feed>>, r: usize, feed: Feed) -> Result<(), AllocError>
    requires { r < length rows.old.items }
    ensures { OnOk result (rows_in rows.new.items ≡ slice_set (rows_in rows.old.items) r (get_or (rows_in rows.old.items) r [] ++ feed ∷ [])) }
{
    let row = &mut rows[r];
    row.push(feed)?;
    Ok(())
}

/// The row of a source.
fn row_in(n: usize, source: Source) -> usize
    ensures { result ≡ row_of n (source_of source) }
{
    match source {
        Source::Own(_) => n,
        Source::Output(child, _) => child as usize,
    }
}

fn port_in(source: Source) -> u32
    ensures { result ≡ port_of (source_of source) }
{
    match source {
        Source::Own(port) => port,
        Source::Output(_, port) => port,
    }
}

/// Marks the first feed of each of so many ports.
fn mark(alloc: Global, row: &mut Vec<Feed>, ports: usize) -> Result<(), AllocError>
    ensures targets { map target_of row.new.items ≡ map target_of row.old.items }
    ensures moves { OnOk result (MovesOnce row.new.items) }
{
    let mut seen = vec![in alloc; false; ports]?;
    for k in 0..row.len() {
        let feed = row[k];
        row[k] = Feed {
            moves: is_first(&mut seen, feed.port as usize),
            ..feed
        };
    }
    Ok(())
}

/// Whether a port wasn't seen before. It is seen then, if it is there.
fn is_first(seen: &mut Vec<bool>, port: usize) -> bool
    ensures first { result ≡ true → get_or seen.old.items port true ≡ false }
    ensures seen { port < length seen.old.items → get_or seen.new.items port false ≡ true }
    ensures keeps { (p : ℕ) → get_or seen.old.items p false ≡ true → get_or seen.new.items p false ≡ true }
    ensures length { length seen.new.items ≡ length seen.old.items }
{
    if port >= seen.len() || seen[port] {
        return false;
    }
    seen[port] = true;
    true
}
