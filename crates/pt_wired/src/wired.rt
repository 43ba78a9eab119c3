ghost use Rattle.std.specs.Prelude.{◌≡◌, ◌↔◌, ◌+◌, ◌^◌, ◌<◌, All, IfOk, IsTrue, length, map};
ghost use Rattle.pt_core.specs.Source.{source_of};
ghost use Rattle.pt_laws.specs.StartedRuns.{IsThere};
ghost use Rattle.pt_node.specs.Shown.{shown};
ghost use Rattle.pt_trees.specs.Around.{around_of};
ghost use Rattle.pt_trees.specs.Sr.{IsWiredIf};
ghost use Rattle.pt_trees.specs.Composite.{trees_of};

use crate::needs::needs_of;
use pt_core::Source;
use pt_node::Node;
use pt_trees::Wiring;
use std::alloc::{AllocError, Global};

/// The most channels or children of a composite, and one more.
const MOST: usize = 1 << 32;

/// Whether the wiring is one of an SR composite round these children.
pub fn is_wired(alloc: Global, children: &[Node], wiring: &Wiring) -> Result<bool, AllocError>
    ensures { IfOk result (IsWiredIf (around_of wiring.now) (trees_of (map shown children.now))) }
{
    let Some(needs) = needs_of(alloc, children, wiring.places.as_slice())? else {
        return Ok(false);
    };
    Ok(fits(wiring, needs.len()))
}

/// Whether a channel ends at each of so many places and at each own output, and begins at an own input or at a child, and there are few enough.
fn fits(wiring: &Wiring, places: usize) -> bool
    ensures { IsTrue result ↔ ((length wiring.now.sources.items ≡ places + wiring.now.outputs) × All (λ source. IsThere wiring.now.inputs (length wiring.now.places) (source_of source)) wiring.now.sources.items
        × (length wiring.now.sources.items < 2 ^ 32) × (length wiring.now.places < 2 ^ 32)) }
{
    let channels = wiring.sources.len();
    let children = wiring.places.len();
    channels < MOST
        && children < MOST
        && channels >= places
        && channels - places == wiring.outputs as usize
        && wiring
            .sources
            .iter()
            .all(|source| is_there(source, wiring.inputs, children))
}

/// Whether a channel can begin there, where so many own inputs and children are.
fn is_there(source: &Source, inputs: u32, children: usize) -> bool
    ensures { IsTrue result ↔ IsThere inputs children (source_of source.now) }
{
    match *source {
        Source::Own(port) => port < inputs,
        Source::Output(child, _) => (child as usize) < children,
    }
}
