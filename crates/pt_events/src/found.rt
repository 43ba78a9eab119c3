ghost use Rattle.std.specs.Prelude.{◌≡◌, ◌<◌, ◌≤◌, All, IfOk, List, ℕ, length, slice_index};
ghost use Rattle.pt_events.specs.Depths.{depth_after};
ghost use Rattle.pt_events.specs.Found.{AreInside, IsFound, IsReady, known_count};

use crate::feeders::Children;
use std::alloc::{AllocError, Global};

/// The children whose depth is known, and the depth of each.
#[derive(Drop)]
pub(crate) struct Found {
    pub(crate) known: Vec<bool>,
    pub(crate) depths: Vec<u32>,
}

impl Found {
    /// No depth is known.
    pub(crate) fn new(alloc: Global, n: u32) -> Result<Found, AllocError>
        ensures { IfOk result (λ found. (lists : List (List ℕ)) → length lists ≡ n → IsFound lists found.known.items found.depths.items) }
    {
        Ok(Found {
            known: vec![in alloc; false; n as usize]?,
            depths: vec![in alloc; 0u32; n as usize]?,
        })
    }

    /// Notes the depth of a child whose feeders have theirs.
    pub(crate) fn add(&mut self, feeders: &[Children], child: u32)
        requires inside { AreInside feeders.now }
        requires small { length feeders.now ≤ u32.MAX }
        requires found { IsFound feeders.now self.old.known.items self.old.depths.items }
        requires ready { IsReady feeders.now self.old.known.items child }
        ensures found { IsFound feeders.now self.new.known.items self.new.depths.items }
        ensures more { known_count self.old.known.items < known_count self.new.known.items }
    {
        self.depths[child as usize] = depth_behind(
            feeders[child as usize].as_slice(),
            &self.depths,
        );
        self.known[child as usize] = true;
    }
}

/// One more than the greatest depth of these children, and 0 where there are none.
fn depth_behind(children: &[u32], depths: &[u32]) -> u32
    requires inside { All (λ child. child < length depths.now) children.now }
    requires small { All (λ child. slice_index depths.now child < u32.MAX) children.now }
    ensures { result ≡ depth_after depths.now children.now }
{
    let mut depth = 0;
    for child in children {
        depth = depth.max(depths[*child as usize] + 1);
    }
    depth
}
