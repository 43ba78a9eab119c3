ghost use Rattle.std.specs.Prelude.{◌≡◌, ◌↔◌, IfErr, IfOk, IsTrue};
ghost use Rattle.pt_events.specs.Depths.{AreBetween, AreDepths, FaultStands, IsBetween};
ghost use Rattle.pt_events.specs.declared.depth.DepthFault.TheVariants.{Memory};

use crate::feeders::listed;
use crate::found::Found;
use crate::hints::Hints;
use crate::search::{Next, next_child};
use crate::walk::loop_behind;
use std::alloc::{AllocError, Global};
use thiserror::Error;

/// Why there are no depths.
#[derive(Debug, Drop, Error)]
pub enum DepthFault {
    /// A directed loop: each of these children feeds the next, and the last the first.
    #[error("a directed loop has no delay")]
    Loop(Vec<u32>),
    #[error("out of memory")]
    Memory,
}

impl From<AllocError> for DepthFault {
    ghost from_gives = { λ _ e. e ≡ Memory };

    fn from(_: AllocError) -> Self {
        DepthFault::Memory
    }
}

/// The depth of each of the children 0 to `n - 1`: 0 where no child feeds it, else one more than the greatest depth of
/// those that do.
///
/// An edge goes from a child to one that it feeds, over an input that isn't a delay. Each child and edge is looked at a
/// few times.
pub fn depths(alloc: Global, n: u32, edges: &[(u32, u32)]) -> Result<Vec<u32>, DepthFault>
    requires { AreBetween n edges.now }
    ensures depths { IfOk result (λ depths. AreDepths n edges.now depths.items) }
    ensures fault { IfErr result (FaultStands edges.now) }
{
    let lists = listed(alloc, n, edges)?;
    let feeders = lists.as_slice();
    let mut hints = Hints::new(alloc, n, edges)?;
    let mut found = Found::new(alloc, n)?;
    'children: loop {
        match next_child(n, feeders, &found.known, &mut hints) {
            Next::Ready(child) => {
                found.add(feeders, child);
                hints.found(child)?;
            }
            Next::Stuck(child) => {
                let children = loop_behind(alloc, feeders, &found.known, child)?;
                return Err(DepthFault::Loop(children));
            }
            Next::Over => return Ok(found.depths),
        }
    }
}

/// Whether each edge goes from one of the children 0 to `n - 1` to one of them.
pub fn are_between(n: u32, edges: &[(u32, u32)]) -> bool
    ensures { IsTrue result ↔ AreBetween n edges.now }
{
    edges.iter().all(|edge| is_between(n, edge))
}

/// Whether both ends of an edge are such children.
fn is_between(n: u32, edge: &(u32, u32)) -> bool
    ensures { IsTrue result ↔ IsBetween n edge.now }
{
    edge.0 < n && edge.1 < n
}
