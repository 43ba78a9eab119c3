ghost use Rattle.std.specs.Prelude.{IfOk, IfErr, map};
ghost use Rattle.pt_node.specs.Shown.{shown, shown_node};
ghost use Rattle.pt_trees.specs.Around.{around_of};
ghost use Rattle.pt_trees.specs.Composite.{trees_of, IsComposed, IsUncomposed};
ghost use Rattle.pt_trees.specs.De.{de, IsDeWiredIf};
ghost use Rattle.pt_trees.specs.Fresh.{AllFresh, AreEmpty};
ghost use Rattle.pt_trees.specs.Rates.{AllStarted};
ghost use Rattle.pt_reactive_composites.specs.Timed.{StartsByPlan};

use pt_composite_node::composite_node;
use pt_de::DeCore;
use pt_de_inside::{begin_at_outputs, planned};
use pt_directors::Boxed;
use pt_node::Node;
use pt_past::{Labels, Records};
use pt_trees::{CompositeFault, Wiring};
use pt_value::Text;
use pt_wired::is_wired;
use std::alloc::{AllocError, Global};

/// The DE composite round these children, at its start. Its children may be of any kind.
pub fn de_composite(
    alloc: Global,
    children: Vec<Node>,
    wiring: Wiring,
    path: Text,
    records: Records,
    labels: Labels,
) -> Result<Node, CompositeFault>
    requires fresh { AllFresh (map shown children.items) }
    requires started { AllStarted (trees_of (map shown children.items)) }
    requires empty { AreEmpty records }
    ensures node { IfOk result (λ node. IsComposed de (around_of wiring) (map shown children.items) path records labels (shown_node node)) }
    ensures stands { IfErr result (IsUncomposed de (around_of wiring) (map shown children.items)) }
{
    let core = core_of(alloc, &children, wiring)?;
    let director = Boxed::new(alloc, pt_directors::de(core))?;
    Ok(composite_node(director, children, path, records, labels))
}

/// The core of the composite, which starts with its plan.
fn core_of(alloc: Global, children: &[Node], wiring: Wiring) -> Result<DeCore, CompositeFault>
    requires fresh { AllFresh (map shown children.now) }
    requires started { AllStarted (trees_of (map shown children.now)) }
    ensures core { IfOk result (StartsByPlan (around_of wiring) (trees_of (map shown children.now))) }
    ensures stands { IfErr result (IsUncomposed de (around_of wiring) (map shown children.now)) }
{
    if !is_de_wired(alloc, children, &wiring)? {
        return Err(CompositeFault::Unbuilt);
    }
    let plan = planned(alloc, children, wiring)?;
    Ok(DeCore::new(alloc, plan)?)
}

/// Whether the wiring is one of a DE composite round these children.
fn is_de_wired(alloc: Global, children: &[Node], wiring: &Wiring) -> Result<bool, AllocError>
    ensures { IfOk result (IsDeWiredIf (around_of wiring.now) (trees_of (map shown children.now))) }
{
    let wired = is_wired(alloc, children, wiring)?;
    Ok(wired && begin_at_outputs(children, wiring))
}
