ghost use Rattle.std.specs.Prelude.{◌≡◌, ◌↔◌, IfOk, IfErr, IsTrue, length, map};
ghost use Rattle.pt_core.specs.Source.{source_of};
ghost use Rattle.pt_node.specs.Shown.{shown, shown_node};
ghost use Rattle.pt_rv_laws.specs.State.{started};
ghost use Rattle.pt_rv_plan.specs.Plan.{AreSound};
ghost use Rattle.pt_trees.specs.Around.{around_of};
ghost use Rattle.pt_trees.specs.Composite.{trees_of, IsComposed, IsUncomposed};
ghost use Rattle.pt_trees.specs.Fresh.{AllFresh, AreEmpty};
ghost use Rattle.pt_trees.specs.Rendezvous.{rendezvous};
ghost use Rattle.pt_flow_composites.specs.Processes.{processes_round};

use pt_composite_node::recording_node;
use pt_core::Source;
use pt_directors::Boxed;
use pt_firing::Counts;
use pt_node::Node;
use pt_past::{Labels, MeetingRecord, Records};
use pt_rv::Core;
use pt_rv_inside::{barriers_of, is_met, kept_needs_of};
use pt_rv_plan::CorePlan;
use pt_stated::Stated;
use pt_trees::{CompositeFault, Wiring};
use pt_value::Text;
use std::alloc::{AllocError, Global};

/// The Rendezvous composite round these children, at its start. Each child is a process, and may be of any kind.
pub fn rendezvous_composite(
    alloc: Global,
    children: Vec<Node>,
    wiring: Wiring,
    path: Text,
    records: Records,
    labels: Labels,
) -> Result<Node, CompositeFault>
    requires fresh { AllFresh (map shown children.items) }
    requires empty { AreEmpty records }
    ensures node { IfOk result (λ node. IsComposed rendezvous (around_of wiring) (map shown children.items) path records labels (shown_node node)) }
    ensures stands { IfErr result (IsUncomposed rendezvous (around_of wiring) (map shown children.items)) }
{
    let met = is_met(&children, &wiring);
    if !met {
        return Err(CompositeFault::Unbuilt);
    }
    let Wiring {
        sources,
        places,
        inputs,
        outputs,
        stated,
        ..
    } = wiring;
    let Some(stated) = stated else {
        return Err(CompositeFault::Unbuilt);
    };
    if !has_rates(&stated, inputs, outputs) {
        return Err(CompositeFault::Unbuilt);
    }
    let core = core_of(alloc, &children, sources, places, stated.takes)?;
    let director = Boxed::new(alloc, pt_directors::rendezvous(core))?;
    let meetings = MeetingRecord::new(alloc);
    Ok(recording_node(director, meetings, children, path, records, labels))
}

/// Whether a number is stated for each of so many own ports.
fn has_rates(stated: &Stated, inputs: u32, outputs: u32) -> bool
    ensures { IsTrue result ↔ ((length stated.now.takes ≡ inputs) × (length stated.now.gives ≡ outputs)) }
{
    stated.takes.len() == inputs as usize && stated.gives.len() == outputs as usize
}

/// The core of a net round these children, before they meet.
fn core_of(
    alloc: Global,
    children: &[Node],
    sources: Vec<Source>,
    places: Counts,
    takes: Counts,
) -> Result<Core, AllocError>
    requires { AreSound (processes_round (map source_of sources.items) places takes (trees_of (map shown children.now))) }
    ensures { IfOk result (λ core. core ≡ started (processes_round (map source_of sources.items) places takes (trees_of (map shown children.now)))) }
{
    let barriers = barriers_of(alloc, children)?;
    let starts = kept_needs_of(alloc, children)?;
    Core::new(
        alloc,
        CorePlan {
            sources,
            places,
            barriers,
            takes,
            starts,
        },
    )
}
