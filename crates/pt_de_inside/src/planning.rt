ghost use Rattle.std.specs.Prelude.{IfErr, IfOk, map};
ghost use Rattle.pt_de_plan.specs.Depths.{FaultStands};
ghost use Rattle.pt_node.specs.Shown.{shown};
ghost use Rattle.pt_trees.specs.Around.{around_of};
ghost use Rattle.pt_trees.specs.Composite.{trees_of, IsUncomposed};
ghost use Rattle.pt_trees.specs.De.{de, IsDeWired};
ghost use Rattle.pt_trees.specs.Fresh.{AllFresh};
ghost use Rattle.pt_trees.specs.Rates.{AllStarted};
ghost use Rattle.pt_de_inside.specs.Inside.{IsInsideOf};
ghost use Rattle.pt_de_inside.specs.Planned.{IsPlanOf, IsToldAs};

use crate::inside::inside_of;
use pt_de_plan::{DePlan, plan};
use pt_document::Code;
use pt_events::DepthFault;
use pt_node::Node;
use pt_trees::{CompositeFault, Wiring};
use std::alloc::Global;

/// The plan of the DE composite with this wiring round these children, which suits them. Where a directed loop has no delay there is none.
pub fn planned(alloc: Global, children: &[Node], wiring: Wiring) -> Result<DePlan, CompositeFault>
    requires fresh { AllFresh (map shown children.now) }
    requires started { AllStarted (trees_of (map shown children.now)) }
    requires wired { IsDeWired (around_of wiring) (trees_of (map shown children.now)) }
    ensures plan { IfOk result (λ plan. IsPlanOf (around_of wiring) (trees_of (map shown children.now)) plan) }
    ensures stands { IfErr result (IsUncomposed de (around_of wiring) (map shown children.now)) }
{
    let inside = inside_of(alloc, children, wiring)?;
    match plan(alloc, inside) {
        Ok(plan) => Ok(plan),
        Err(fault) => Err(told_as(fault)),
    }
}

/// How it is told that there is no plan.
fn told_as(fault: DepthFault) -> CompositeFault
    ensures { IsToldAs fault result }
{
    match fault {
        DepthFault::Loop(_) => CompositeFault::Refused(Code::ZeroDelayLoop),
        DepthFault::Memory => CompositeFault::Memory,
    }
}
