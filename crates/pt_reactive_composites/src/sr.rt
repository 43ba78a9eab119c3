ghost use Rattle.std.specs.Prelude.{◌≡◌, IfOk, IfErr, map, replicate};
ghost use Rattle.pt_node.specs.Shown.{shown, shown_node};
ghost use Rattle.pt_trees.specs.Around.{around_of};
ghost use Rattle.pt_trees.specs.Sr.{sr, tick_plan, IsWired};
ghost use Rattle.pt_trees.specs.Fresh.{AllFresh, AreEmpty};
ghost use Rattle.pt_trees.specs.Composite.{trees_of, IsComposed, IsUncomposed};
ghost use Rattle.pt_sr.specs.State.{started};
ghost use Rattle.pt_wired.specs.Nonstrict.{is_nonstrict};

use pt_composite_node::composite_node;
use pt_directors::Boxed;
use pt_firing::Counts;
use pt_node::Node;
use pt_past::{Labels, Records};
use pt_sr::{Core, CorePlan};
use pt_trees::{CompositeFault, Wiring};
use pt_value::Text;
use pt_wired::{is_wired, nonstrict_of, order_of, outputs_of};
use std::alloc::{AllocError, Global};

/// The SR composite round these children, at its start. Its children may be of any kind.
pub fn sr_composite(
    alloc: Global,
    children: Vec<Node>,
    wiring: Wiring,
    path: Text,
    records: Records,
    labels: Labels,
) -> Result<Node, CompositeFault>
    requires fresh { AllFresh (map shown children.items) }
    requires empty { AreEmpty records }
    ensures node { IfOk result (λ node. IsComposed sr (around_of wiring) (map shown children.items) path records labels (shown_node node)) }
    ensures stands { IfErr result (IsUncomposed sr (around_of wiring) (map shown children.items)) }
{
    if !is_wired(alloc, &children, &wiring)? {
        return Err(CompositeFault::Unbuilt);
    }
    let core = core_of(alloc, &children, wiring)?;
    let director = Boxed::new(alloc, pt_directors::sr(core))?;
    Ok(composite_node(director, children, path, records, labels))
}

/// The core round these children, of which those that their libraries don't tell to be strict are asked for early answers.
fn core_of(alloc: Global, children: &[Node], wiring: Wiring) -> Result<Core, AllocError>
    requires { IsWired (around_of wiring) (trees_of (map shown children.now)) }
    ensures { IfOk result (λ core. core ≡ started (tick_plan (around_of wiring)) (map is_nonstrict (trees_of (map shown children.now)))) }
{
    let nonstrict = nonstrict_of(alloc, children)?;
    let outputs = outputs_of(alloc, children.len(), &wiring.sources)?;
    let order = order_of(alloc, &wiring.sources, wiring.places.as_slice(), &nonstrict)?;
    let takes = ones(alloc, wiring.inputs as usize)?;
    Core::new(
        alloc,
        CorePlan {
            sources: wiring.sources,
            places: wiring.places,
            outputs,
            nonstrict,
            takes,
            order,
        },
    )
}

/// One for each of so many ports.
fn ones(alloc: Global, ports: usize) -> Result<Counts, AllocError>
    ensures { IfOk result (λ counts. counts ≡ replicate ports 1) }
{
    Ok(Counts::of(vec![in alloc; 1usize; ports]?))
}
