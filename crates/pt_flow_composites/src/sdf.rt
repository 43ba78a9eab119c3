ghost use Rattle.std.specs.Prelude.{◌≡◌, IfOk, IfErr, map};
ghost use Rattle.pt_meaning.specs.Start.{first_held};
ghost use Rattle.pt_core.specs.Source.{source_of};
ghost use Rattle.pt_sdf_parts.specs.Lawful.{IsLawful};
ghost use Rattle.pt_sdf_parts.specs.Plan.{plan_of, order_of};
ghost use Rattle.pt_sdf.specs.State.{started};
ghost use Rattle.pt_library.specs.LibraryActor.{rows};
ghost use Rattle.pt_node.specs.Shown.{shown, shown_node};
ghost use Rattle.pt_trees.specs.Around.{around_of};
ghost use Rattle.pt_trees.specs.Fresh.{AllFresh, AreEmpty};
ghost use Rattle.pt_trees.specs.Rates.{AllStarted};
ghost use Rattle.pt_trees.specs.Composite.{trees_of, IsComposed, IsUncomposed};
ghost use Rattle.pt_trees.specs.Sdf.{sdf};
ghost use Rattle.pt_flow_composites.specs.Unplanned.{IsToldAs};

use crate::inside::inside_of;
use pt_composite_node::composite_node;
use pt_directors::Boxed;
use pt_document::Code;
use pt_inside::first_tokens;
use pt_node::Node;
use pt_past::{Labels, Records};
use pt_plan::{PlanFault, plan};
use pt_sdf::Core;
use pt_sdf_parts::CorePlan;
use pt_trees::{CompositeFault, Wiring};
use pt_value::Text;
use std::alloc::{AllocError, Global};

/// The SDF composite round these children, at its start.
pub fn sdf_composite(
    alloc: Global,
    children: Vec<Node>,
    wiring: Wiring,
    path: Text,
    records: Records,
    labels: Labels,
) -> Result<Node, CompositeFault>
    requires fresh { AllFresh (map shown children.items) }
    requires started { AllStarted (trees_of (map shown children.items)) }
    requires empty { AreEmpty records }
    ensures node { IfOk result (λ node. IsComposed sdf (around_of wiring) (map shown children.items) path records labels (shown_node node)) }
    ensures stands { IfErr result (IsUncomposed sdf (around_of wiring) (map shown children.items)) }
{
    let inside = inside_of(alloc, &children, wiring)?;
    let plan = match plan(alloc, inside) {
        Ok(plan) => plan,
        Err(fault) => return Err(told(fault)),
    };
    let core = core_of(alloc, &children, plan)?;
    let director = Boxed::new(alloc, pt_directors::sdf(core))?;
    Ok(composite_node(director, children, path, records, labels))
}

/// The core of a plan, whose channels hold the first tokens of the children that feed them.
fn core_of(alloc: Global, children: &[Node], plan: CorePlan) -> Result<Core, AllocError>
    requires { IsLawful (plan_of plan) plan.needs (order_of plan) plan.room (first_held rows (trees_of (map shown children.now)) (map source_of plan.sources.items)) }
    ensures { IfOk result (λ core. core ≡ started (plan_of plan) plan.needs (first_held rows (trees_of (map shown children.now)) (map source_of plan.sources.items))) }
{
    match first_tokens(alloc, children, &plan.sources) {
        Ok(first) => Core::new(alloc, plan, first),
        Err(fault) => {
            drop(plan);
            Err(fault)
        }
    }
}

/// How it is told that there is no plan.
fn told(fault: PlanFault) -> CompositeFault
    ensures { IsToldAs fault result }
{
    match fault {
        PlanFault::Rates => CompositeFault::Refused(Code::Rates),
        PlanFault::Limit => CompositeFault::Refused(Code::Limit),
        PlanFault::Deadlock => CompositeFault::Refused(Code::SdfDeadlock),
        PlanFault::Memory => CompositeFault::Memory,
    }
}
