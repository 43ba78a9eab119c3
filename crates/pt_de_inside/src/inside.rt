ghost use Rattle.std.specs.Prelude.{IfOk, map};
ghost use Rattle.pt_de_plan.specs.Inside.{IsInside};
ghost use Rattle.pt_node.specs.Shown.{shown};
ghost use Rattle.pt_trees.specs.Around.{around_of};
ghost use Rattle.pt_trees.specs.Composite.{trees_of};
ghost use Rattle.pt_trees.specs.De.{IsDeWired};
ghost use Rattle.pt_trees.specs.Fresh.{AllFresh};
ghost use Rattle.pt_de_inside.specs.Inside.{IsInsideOf};

use crate::children::{early_of, wakes_of, whole_of};
use crate::delays::delayed_in;
use pt_de_plan::DeInside;
use pt_node::Node;
use pt_trees::Wiring;
use std::alloc::{AllocError, Global};

/// What is within a DE composite with this wiring round these children: they may be of any kind.
///
/// Each child and each channel is looked at a few times.
pub fn inside_of(alloc: Global, children: &[Node], wiring: Wiring) -> Result<DeInside, AllocError>
    requires fresh { AllFresh (map shown children.now) }
    requires wired { IsDeWired (around_of wiring) (trees_of (map shown children.now)) }
    ensures inside { IfOk result (λ inside. IsInsideOf (around_of wiring) (trees_of (map shown children.now)) inside) }
    ensures formed { IfOk result IsInside }
{
    let delayed = delayed_in(alloc, children, &wiring)?;
    let early = early_of(alloc, children)?;
    let whole = whole_of(alloc, children)?;
    let starts = wakes_of(alloc, children)?;
    Ok(DeInside {
        sources: wiring.sources,
        places: wiring.places,
        inputs: wiring.inputs,
        delayed,
        early,
        whole,
        starts,
    })
}
