ghost use Rattle.std.specs.Prelude.{◌≡◌, ℕ, ◌<◌, ◌↔◌, All, IsTrue, length, slice_index};
ghost use Rattle.pt_sched.specs.Channels.{IsSchedEdge, AreSmall};
ghost use Rattle.pt_sched.specs.Lists.{AreAt, AreListed};
ghost use Rattle.pt_sched.specs.Next.{IsReady, ComesNext};
ghost use Rattle.pt_sched.specs.Runs.{HasTokens};
ghost use Rattle.pt_sched.specs.declared.lists.Side.TheVariants.{End};

use crate::edge::{SchedEdge, is_short};
use crate::hints::Hints;
use crate::lists::{Numbers, numbers_at};

/// What comes next in a run.
#[derive(Clone, Copy)]
pub(crate) enum Next {
    /// This child lacks firings, and has its tokens.
    Ready(u32),
    /// This child lacks firings, and no child that lacks firings has its tokens.
    Stuck(u32),
    /// No child lacks firings.
    Over,
}

/// A child that can fire: of the hints, or else of all.
pub(crate) fn next_child(
    n: u32,
    channels: &[SchedEdge],
    ins: &[Numbers],
    q: &[u64],
    fired: &[u64],
    hints: &mut Hints,
) -> Next
    requires channels { All (IsSchedEdge (length q.now)) channels.now }
    requires ins { AreListed (length q.now) End channels.now ins.now }
    requires counted { length q.now ≡ n }
    requires fired { length fired.now ≡ length q.now }
    requires small { AreSmall fired.now }
    ensures { ComesNext channels.now q.now (slice_index fired.now) result }
{
    while let Some(child) = hints.ready.pop() {
        if is_ready(channels, ins, q, fired, child) {
            return Next::Ready(child);
        }
    }
    search(n, channels, ins, q, fired)
}

/// The first child that can fire, or the first that can't.
fn search(n: u32, channels: &[SchedEdge], ins: &[Numbers], q: &[u64], fired: &[u64]) -> Next
    requires channels { All (IsSchedEdge (length q.now)) channels.now }
    requires ins { AreListed (length q.now) End channels.now ins.now }
    requires counted { length q.now ≡ n }
    requires fired { length fired.now ≡ length q.now }
    requires small { AreSmall fired.now }
    ensures { ComesNext channels.now q.now (slice_index fired.now) result }
{
    let mut stuck = None;
    for child in 0..n {
        if is_ready(channels, ins, q, fired, child) {
            return Next::Ready(child);
        }
        if fired[child as usize] < q[child as usize] {
            stuck = stuck.or(Some(child));
        }
    }
    match stuck {
        Some(child) => Next::Stuck(child),
        None => Next::Over,
    }
}

/// Whether a child lacks firings and has its tokens.
fn is_ready(channels: &[SchedEdge], ins: &[Numbers], q: &[u64], fired: &[u64], child: u32) -> bool
    requires channels { All (IsSchedEdge (length q.now)) channels.now }
    requires ins { AreListed (length q.now) End channels.now ins.now }
    requires fired { length fired.now ≡ length q.now }
    requires small { AreSmall fired.now }
    ensures { IsTrue result ↔ IsReady channels.now q.now (slice_index fired.now) child }
{
    if child as usize >= q.len() || fired[child as usize] >= q[child as usize] {
        return false;
    }
    has_tokens(channels, numbers_at(ins, child), fired)
}

/// Whether each of these channels, which are all that end at a child, holds what its next firing takes.
fn has_tokens(channels: &[SchedEdge], ins: &[usize], fired: &[u64]) -> bool
    requires channels { All (IsSchedEdge (length fired.now)) channels.now }
    requires small { AreSmall fired.now }
    requires inside { All (λ number. number < length channels.now) ins.now }
    ensures { (child : ℕ) → AreAt End channels.now child ins.now → (IsTrue result ↔ HasTokens channels.now (slice_index fired.now) child) }
{
    for number in ins {
        if is_short(&channels[*number], fired) {
            return false;
        }
    }
    true
}
