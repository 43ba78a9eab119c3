ghost use Rattle.std.specs.Prelude.{◌≡◌, ◌↔◌, ◌<◌, IfOk, IfErr, IsTrue, All, length, map, true, false};
ghost use Rattle.pt_meaning.specs.NodeFacts.{next_of};
ghost use Rattle.pt_chart.specs.Chart.{chart_of};
ghost use Rattle.pt_chart.specs.Views.{machine_of, ports_view};
ghost use Rattle.pt_library.specs.LibraryActor.{rows};
ghost use Rattle.pt_modal_laws.specs.State.{started};
ghost use Rattle.pt_node.specs.Shown.{shown, shown_node};
ghost use Rattle.pt_trees.specs.Around.{around_of};
ghost use Rattle.pt_trees.specs.Composite.{trees_of, IsComposed, IsUncomposed};
ghost use Rattle.pt_trees.specs.Fresh.{AllFresh, AreEmpty};
ghost use Rattle.pt_node.specs.View.{node_of};
ghost use Rattle.pt_trees.specs.Modal.{modal, taken_by, is_opaque, AreOpaque, IsOneOf, HasRefinementsIf};
ghost use Rattle.pt_modal_composite.specs.Machines.{StartsByMachine, IsChartRound};

use pt_chart::{Mode, Ports, Written};
use pt_composite_node::composite_node;
use pt_de_inside::wakes_of;
use pt_directors::Boxed;
use pt_modal::{Core, CorePlan};
use pt_node::{Body, Node};
use pt_past::{Labels, Records};
use pt_transitions::Chart;
use pt_trees::{CompositeFault, Wiring};
use pt_value::Text;
use pt_wired::needs_of;
use std::alloc::{AllocError, Global};

/// The composite of a Modal entity round these children, at its start. They are its refinements, and may be of any kind.
pub fn modal_composite(
    alloc: Global,
    children: Vec<Node>,
    wiring: Wiring,
    path: Text,
    records: Records,
    labels: Labels,
) -> Result<Node, CompositeFault>
    requires fresh { AllFresh (map shown children.items) }
    requires empty { AreEmpty records }
    ensures node { IfOk result (λ node. IsComposed modal (around_of wiring) (map shown children.items) path records labels (shown_node node)) }
    ensures stands { IfErr result (IsUncomposed modal (around_of wiring) (map shown children.items)) }
{
    let core = core_of(alloc, &children, wiring)?;
    let director = Boxed::new(alloc, pt_directors::modal(core))?;
    Ok(composite_node(director, children, path, records, labels))
}

/// The core of the machine that the wiring has, round these children.
fn core_of(alloc: Global, children: &[Node], wiring: Wiring) -> Result<Core, CompositeFault>
    requires { AllFresh (map shown children.now) }
    ensures core { IfOk result (StartsByMachine (around_of wiring) (trees_of (map shown children.now))) }
    ensures stands { IfErr result (IsUncomposed modal (around_of wiring) (map shown children.now)) }
{
    let Wiring {
        inputs,
        outputs,
        machine,
        ..
    } = wiring;
    let Some(machine) = machine else {
        return Err(CompositeFault::Unbuilt);
    };
    let chart = charted(alloc, children, machine, inputs, outputs)?;
    match chart {
        Some(chart) => Ok(core_with(alloc, children, chart)?),
        None => Err(CompositeFault::Unbuilt),
    }
}

/// The chart of a machine with so many own ports, if these children are its refinements, and its guards and actions have their types.
fn charted(
    alloc: Global,
    children: &[Node],
    machine: Written,
    inputs: u32,
    outputs: u32,
) -> Result<Option<Chart>, AllocError>
    ensures { IfOk result (IsChartRound inputs outputs (trees_of (map shown children.now)) (machine_of machine)) }
{
    if !has_refinements(alloc, children, &machine, inputs, outputs)? {
        drop(machine);
        return Ok(None);
    }
    Chart::new(alloc, machine)
}

/// A core of this chart, before its first reaction: it knows the wakes of its refinements at their start.
fn core_with(alloc: Global, children: &[Node], chart: Chart) -> Result<Core, AllocError>
    requires { AllFresh (map shown children.now) }
    ensures { IfOk result (λ core. core ≡ started chart_of (record { machine = chart; starts = map (next_of rows) (trees_of (map shown children.now)) })) }
{
    let starts = wakes_of(alloc, children)?;
    let plan = CorePlan::of(alloc, chart, starts)?;
    Core::new(alloc, plan)
}

/// Whether these children are the refinements of a machine, which has so many own ports.
fn has_refinements(
    alloc: Global,
    children: &[Node],
    machine: &Written,
    inputs: u32,
    outputs: u32,
) -> Result<bool, AllocError>
    ensures { IfOk result (HasRefinementsIf inputs outputs (trees_of (map shown children.now)) (machine_of machine.now)) }
{
    if !are_opaque(children) {
        return Ok(false);
    }
    let places = places_of(alloc, &machine.ports)?;
    match needs_of(alloc, children, &places)? {
        Some(_) => Ok(is_for(machine, children.len(), inputs, outputs)),
        None => Ok(false),
    }
}

/// Whether a node is an opaque composite or a Modal entity.
fn is_opaque(node: &Node) -> bool
    ensures { result ≡ is_opaque (node_of (shown_node node.now)) }
{
    match &node.body {
        Body::Actor(_) => false,
        Body::Composite(_) => true,
    }
}

/// Whether each child is one.
fn are_opaque(children: &[Node]) -> bool
    ensures yes { result ≡ true → AreOpaque (trees_of (map shown children.now)) }
    ensures no { result ≡ false → AreOpaque (trees_of (map shown children.now)) → ⊥ }
{
    for child in children {
        if !is_opaque(child) {
            return false;
        }
    }
    true
}

/// How many own inputs each refinement takes from.
fn places_of(alloc: Global, ports: &[Ports]) -> Result<Vec<usize>, AllocError>
    ensures { IfOk result (λ places. places.items ≡ map (λ ports. taken_by (ports_view ports)) ports.now) }
{
    let mut places = Vec::with_capacity(alloc, ports.len())?;
    for refinement in ports {
        places.push(refinement.inputs.len())?;
    }
    Ok(places)
}

/// Whether a machine is one for so many own ports and refinements.
fn is_for(machine: &Written, refinements: usize, inputs: u32, outputs: u32) -> bool
    ensures { IsTrue result ↔ ((length machine.now.names.inputs ≡ inputs) × (length machine.now.names.outputs ≡ outputs)
        × All (λ ports. All (λ input. input < inputs) ports.inputs.items × (length ports.outputs.items ≡ outputs)) machine.now.ports.items
        × All (λ mode. IsOneOf refinements mode.refinement) machine.now.modes.items) }
{
    machine.names.inputs.as_slice().len() == inputs as usize
        && machine.names.outputs.as_slice().len() == outputs as usize
        && machine
            .ports
            .iter()
            .all(|ports| is_mapped(ports, inputs, outputs))
        && machine
            .modes
            .iter()
            .all(|mode| is_refined(mode, refinements))
}

/// Whether a refinement takes from own inputs that are there, and tells of each own output what it has of it.
fn is_mapped(ports: &Ports, inputs: u32, outputs: u32) -> bool
    ensures { IsTrue result ↔ (All (λ input. input < inputs) ports.now.inputs.items × (length ports.now.outputs.items ≡ outputs)) }
{
    ports.inputs.iter().all(|input| *input < inputs) && ports.outputs.len() == outputs as usize
}

/// Whether what a state names as its refinement is one of so many.
fn is_refined(mode: &Mode, refinements: usize) -> bool
    ensures { IsTrue result ↔ IsOneOf refinements mode.now.refinement }
{
    match mode.refinement {
        Some(refinement) => (refinement as usize) < refinements,
        None => true,
    }
}
