ghost use Rattle.std.specs.Prelude.{IfOk, IfErr, map};
ghost use Rattle.pt_node.specs.Shown.{shown, shown_node};
ghost use Rattle.pt_trees.specs.declared.directing.Directing.TheVariants.{By};
ghost use Rattle.pt_trees.specs.Around.{around_of};
ghost use Rattle.pt_trees.specs.Composite.{trees_of, IsComposite, CompositeFaultStands};
ghost use Rattle.pt_trees.specs.Fresh.{AllFresh, AreEmpty};
ghost use Rattle.pt_trees.specs.Rates.{AllStarted};

use pt_document::Director;
use pt_flow_composites::{pn_composite, rendezvous_composite, sdf_composite};
use pt_modal_composite::modal_composite;
use pt_node::Node;
use pt_past::{Labels, Records};
use pt_reactive_composites::{de_composite, sr_composite};
use pt_trees::{CompositeFault, Directing, Wiring};
use pt_value::Text;
use std::alloc::Global;

/// The composite with this director round these children, at its start.
pub fn composite(
    alloc: Global,
    director: Directing,
    children: Vec<Node>,
    wiring: Wiring,
    path: Text,
    records: Records,
    labels: Labels,
) -> Result<Node, CompositeFault>
    requires fresh { AllFresh (map shown children.items) }
    requires started { AllStarted (trees_of (map shown children.items)) }
    requires empty { AreEmpty records }
    ensures node { IfOk result (λ node. IsComposite director (around_of wiring) (map shown children.items) path records labels (shown_node node)) }
    ensures stands { IfErr result (CompositeFaultStands director (around_of wiring) (map shown children.items)) }
{
    match director {
        Directing::By(director) => {
            directed_composite(alloc, director, children, wiring, path, records, labels)
        }
        Directing::Modal => modal_composite(alloc, children, wiring, path, records, labels),
    }
}

/// The composite with a director that its property names.
fn directed_composite(
    alloc: Global,
    director: Director,
    children: Vec<Node>,
    wiring: Wiring,
    path: Text,
    records: Records,
    labels: Labels,
) -> Result<Node, CompositeFault>
    requires fresh { AllFresh (map shown children.items) }
    requires started { AllStarted (trees_of (map shown children.items)) }
    requires empty { AreEmpty records }
    ensures node { IfOk result (λ node. IsComposite (By director) (around_of wiring) (map shown children.items) path records labels (shown_node node)) }
    ensures stands { IfErr result (CompositeFaultStands (By director) (around_of wiring) (map shown children.items)) }
{
    match director {
        Director::Sdf => sdf_composite(alloc, children, wiring, path, records, labels),
        Director::Sr => sr_composite(alloc, children, wiring, path, records, labels),
        Director::De => de_composite(alloc, children, wiring, path, records, labels),
        Director::Pn => pn_composite(alloc, children, wiring, path, records, labels),
        Director::Rendezvous => {
            rendezvous_composite(alloc, children, wiring, path, records, labels)
        }
    }
}
