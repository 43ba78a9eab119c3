ghost use Rattle.std.specs.Prelude.{◌≡◌, ◌↔◌, ◌<◌, ◌≤◌, IfOk, IfErr, IsTrue, length, map};
ghost use Rattle.pt_core.specs.Source.{source_of};
ghost use Rattle.pt_node.specs.Shown.{shown, shown_node};
ghost use Rattle.pt_pn_laws.specs.State.{started};
ghost use Rattle.pt_process.specs.Plan.{IsSoundNetwork};
ghost use Rattle.pt_trees.specs.Around.{around_of};
ghost use Rattle.pt_trees.specs.Composite.{trees_of, IsComposed, IsUncomposed};
ghost use Rattle.pt_trees.specs.Fresh.{AllFresh, AreEmpty};
ghost use Rattle.pt_trees.specs.Pn.{pn};
ghost use Rattle.pt_flow_composites.specs.Networks.{network_round};

use pt_composite_node::composite_node;
use pt_core::Source;
use pt_directors::Boxed;
use pt_firing::Counts;
use pt_inside::{first_lists, starts_of};
use pt_node::Node;
use pt_past::{Labels, Records};
use pt_pn::Core;
use pt_process::CorePlan;
use pt_stated::{Capacities, Stated};
use pt_trees::{CompositeFault, Wiring};
use pt_value::Text;
use pt_wired::is_wired;
use std::alloc::{AllocError, Global};

/// The PN composite round these children, at its start. Each child is a process, and may be of any kind.
pub fn pn_composite(
    alloc: Global,
    children: Vec<Node>,
    wiring: Wiring,
    path: Text,
    records: Records,
    labels: Labels,
) -> Result<Node, CompositeFault>
    requires fresh { AllFresh (map shown children.items) }
    requires empty { AreEmpty records }
    ensures node { IfOk result (λ node. IsComposed pn (around_of wiring) (map shown children.items) path records labels (shown_node node)) }
    ensures stands { IfErr result (IsUncomposed pn (around_of wiring) (map shown children.items)) }
{
    let wired = is_wired(alloc, &children, &wiring)?;
    if !wired {
        return Err(CompositeFault::Unbuilt);
    }
    let Wiring {
        sources,
        places,
        inputs,
        outputs,
        stated,
        ..
    } = wiring;
    let Some(stated) = stated else {
        return Err(CompositeFault::Unbuilt);
    };
    let Some(capacities) = stated.capacities else {
        return Err(CompositeFault::Unbuilt);
    };
    if !are_lawful(capacities, &stated, inputs, outputs) {
        return Err(CompositeFault::Unbuilt);
    }
    let core = core_of(alloc, &children, sources, places, stated.takes, capacities)?;
    let director = Boxed::new(alloc, pt_directors::pn(core))?;
    Ok(composite_node(director, children, path, records, labels))
}

/// Whether the capacities are lawful, and a number is stated for each of so many own ports.
fn are_lawful(capacities: Capacities, stated: &Stated, inputs: u32, outputs: u32) -> bool
    ensures { IsTrue result ↔ ((0 < capacities.initial) × (capacities.initial ≤ capacities.maximum) × (length stated.now.takes ≡ inputs) × (length stated.now.gives ≡ outputs)) }
{
    capacities.initial > 0
        && capacities.initial <= capacities.maximum
        && stated.takes.len() == inputs as usize
        && stated.gives.len() == outputs as usize
}

/// The core of a net round these children, whose channels hold the first tokens.
fn core_of(
    alloc: Global,
    children: &[Node],
    sources: Vec<Source>,
    places: Counts,
    takes: Counts,
    capacities: Capacities,
) -> Result<Core, AllocError>
    requires { IsSoundNetwork (network_round (map source_of sources.items) places takes capacities (trees_of (map shown children.now))) }
    ensures { IfOk result (λ core. core ≡ started (network_round (map source_of sources.items) places takes capacities (trees_of (map shown children.now)))) }
{
    let first = first_lists(alloc, children, &sources)?;
    let starts = starts_of(alloc, children)?;
    Core::new(
        alloc,
        CorePlan {
            sources,
            places,
            takes,
            initial: capacities.initial,
            maximum: capacities.maximum,
            first,
            starts,
        },
    )
}
