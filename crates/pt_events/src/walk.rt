ghost use Rattle.std.specs.Prelude.{◌≡◌, ◌≤◌, IfOk, drop, length, reverse};
ghost use Rattle.pt_events.specs.Depths.{IsCycle};
ghost use Rattle.pt_events.specs.Found.{AreInside, FeedsBy, IsStuck};

use crate::feeders::Children;
use crate::search::unknown_of;
use std::alloc::{AllocError, Global};

/// A directed loop that is met on the way back from a stuck child.
pub(crate) fn loop_behind(
    alloc: Global,
    feeders: &[Children],
    known: &[bool],
    stuck: u32,
) -> Result<Vec<u32>, AllocError>
    requires inside { AreInside feeders.now }
    requires flags { length known.now ≡ length feeders.now }
    requires stuck { IsStuck feeders.now known.now stuck }
    ensures { IfOk result (λ children. IsCycle (FeedsBy feeders.now) children.items) }
{
    let mut path = Vec::new(alloc);
    let mut places = vec![in alloc; None; feeders.len()]?;
    let mut child = stuck;
    'steps: loop {
        match places[child as usize] {
            Some(place) => return turned(alloc, &path, place),
            None => {}
        }
        places[child as usize] = Some(path.len());
        path.push(child)?;
        child = match unknown_of(feeders[child as usize].as_slice(), known) {
            Some(feeder) => feeder,
            None => unreachable!(),
        };
    }
}

/// The children from a place on, in the other order.
fn turned(alloc: Global, path: &[u32], place: usize) -> Result<Vec<u32>, AllocError>
    requires { place ≤ length path.now }
    ensures { IfOk result (λ children. children.items ≡ reverse (drop place path.now)) }
{
    path[place..].iter().rev().copied().collect(alloc)
}
