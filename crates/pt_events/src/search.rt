ghost use Rattle.std.specs.Prelude.{◌≡◌, ◌<◌, ◌↔◌, All, Contains, IsTrue, MatchOption, false, length};
ghost use Rattle.pt_events.specs.Found.{AreInside, AreKnown, ComesNext, IsReady, is_known};

use crate::feeders::Children;
use crate::hints::Hints;

/// What comes next in a search for depths.
#[derive(Clone, Copy)]
pub(crate) enum Next {
    /// The depth of this child isn't known, and those of its feeders are.
    Ready(u32),
    /// The depth of this child isn't known, and no child is ready.
    Stuck(u32),
    /// All depths are known.
    Over,
}

/// A child whose feeders have their depths: of the hints, or else of all.
pub(crate) fn next_child(n: u32, feeders: &[Children], known: &[bool], hints: &mut Hints) -> Next
    requires inside { AreInside feeders.now }
    requires counted { length feeders.now ≡ n }
    requires flags { length known.now ≡ length feeders.now }
    ensures { ComesNext feeders.now known.now result }
{
    while let Some(child) = hints.ready.pop() {
        if is_ready(feeders, known, child) {
            return Next::Ready(child);
        }
    }
    search(n, feeders, known)
}

/// The first child that is ready, or the first of unknown depth.
fn search(n: u32, feeders: &[Children], known: &[bool]) -> Next
    requires inside { AreInside feeders.now }
    requires counted { length feeders.now ≡ n }
    requires flags { length known.now ≡ length feeders.now }
    ensures { ComesNext feeders.now known.now result }
{
    let mut stuck = None;
    for child in 0..n {
        if is_ready(feeders, known, child) {
            return Next::Ready(child);
        }
        if !known[child as usize] {
            stuck = stuck.or(Some(child));
        }
    }
    match stuck {
        Some(child) => Next::Stuck(child),
        None => Next::Over,
    }
}

/// Whether the depth of a child isn't known, and those of its feeders are.
fn is_ready(feeders: &[Children], known: &[bool], child: u32) -> bool
    requires inside { AreInside feeders.now }
    requires flags { length known.now ≡ length feeders.now }
    ensures { IsTrue result ↔ IsReady feeders.now known.now child }
{
    if child as usize >= feeders.len() || known[child as usize] {
        return false;
    }
    unknown_of(feeders[child as usize].as_slice(), known).is_none()
}

/// The first of these children whose depth isn't known.
pub(crate) fn unknown_of(children: &[u32], known: &[bool]) -> Option<u32>
    requires { All (λ child. child < length known.now) children.now }
    ensures { MatchOption result (AreKnown known.now children.now) (λ child. Contains children.now child × (is_known known.now child ≡ false)) }
{
    for child in children {
        if !known[*child as usize] {
            return Some(*child);
        }
    }
    None
}
