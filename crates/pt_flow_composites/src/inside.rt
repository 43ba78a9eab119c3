ghost use Rattle.std.specs.Prelude.{◌↔◌, ◌+◌, ◌<◌, ◌^◌, IsTrue, IfOk, IfErr, length, map};
ghost use Rattle.pt_plan.specs.Inside.{IsInside};
ghost use Rattle.pt_node.specs.Shown.{shown};
ghost use Rattle.pt_trees.specs.Around.{around_of};
ghost use Rattle.pt_trees.specs.Sdf.{sdf, IsInsideOf};
ghost use Rattle.pt_trees.specs.Composite.{trees_of, IsUncomposed};
ghost use Rattle.pt_trees.specs.Rates.{AllStarted};

use pt_firing::Counts;
use pt_inside::{are_steady, first_counts, rates_of};
use pt_node::Node;
use pt_plan::Inside;
use pt_trees::{CompositeFault, Wiring};
use pt_wired::needs_of;
use std::alloc::Global;

/// The most channels of a composite with its own inputs, and one more.
const CHANNELS: usize = 1 << 32;

/// Whether there are few enough channels that each own input may have one more.
fn are_few(wiring: &Wiring) -> bool
    ensures { IsTrue result ↔ (length wiring.now.sources.items + wiring.now.inputs < 2 ^ 32) }
{
    wiring.sources.len() < CHANNELS - wiring.inputs as usize
}

/// The inside of an SDF composite round these children, if each is steady and it is well formed. More channels and own inputs
/// than their numbers count are want of memory.
pub fn inside_of(alloc: Global, children: &[Node], wiring: Wiring) -> Result<Inside, CompositeFault>
    requires { AllStarted (trees_of (map shown children.now)) }
    ensures inside { IfOk result (λ inside. IsInsideOf (around_of wiring) (trees_of (map shown children.now)) inside) }
    ensures formed { IfOk result IsInside }
    ensures stands { IfErr result (IsUncomposed sdf (around_of wiring) (map shown children.now)) }
{
    if !are_few(&wiring) {
        return Err(CompositeFault::Memory);
    }
    if !are_steady(children) {
        return Err(CompositeFault::Unbuilt);
    }
    let Some(needs) = needs_of(alloc, children, wiring.places.as_slice())? else {
        return Err(CompositeFault::Unbuilt);
    };
    let Some(rates) = rates_of(alloc, children, &wiring.declared)? else {
        return Err(CompositeFault::Unbuilt);
    };
    let inside = Inside {
        first: first_counts(alloc, children, &wiring.sources)?,
        sources: wiring.sources,
        places: wiring.places,
        needs: Counts::of(needs),
        rates,
        inputs: wiring.inputs,
        outputs: wiring.outputs,
    };
    if !inside.is_well_formed() {
        return Err(CompositeFault::Unbuilt);
    }
    Ok(inside)
}
