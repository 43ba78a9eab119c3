ghost use Rattle.std.specs.Prelude.{◌≡◌, ◌++◌, IfOk, OnOk, length, map};
ghost use Rattle.pt_node.specs.Shown.{shown, shown_node};
ghost use Rattle.pt_node.specs.View.{node_of};
ghost use Rattle.pt_trees.specs.Around.{around_of};
ghost use Rattle.pt_trees.specs.Composite.{trees_of};
ghost use Rattle.pt_trees.specs.De.{delayed_in, delays_from, delays_of, is_delay};

use pt_node::{Body, Node};
use pt_trees::Wiring;
use std::alloc::{AllocError, Global};

/// Whether a place of a node is a delay.
fn is_delay(node: &Node, place: usize) -> bool
    ensures { result ≡ is_delay (node_of (shown_node node.now)) place }
{
    match &node.body {
        Body::Actor(held) => held.actor.is_delay(place),
        Body::Composite(_) => false,
    }
}

/// Tells of the places of a child, of which there are so many, whether they are delays.
fn add_delays(flags: &mut Vec<bool>, child: &Node, count: usize) -> Result<(), AllocError>
    ensures { OnOk result (flags.new.items ≡ flags.old.items ++ delays_from (node_of (shown_node child.now)) 0 count) }
{
    for place in 0..count {
        flags.push(is_delay(child, place))?;
    }
    Ok(())
}

/// The same of the places of all children, in order.
fn add_all(flags: &mut Vec<bool>, children: &[Node], places: &[usize]) -> Result<(), AllocError>
    requires { length children.now ≡ length places.now }
    ensures { OnOk result (flags.new.items ≡ flags.old.items ++ delays_of (trees_of (map shown children.now)) places.now) }
{
    for (number, child) in children.iter().enumerate() {
        add_delays(flags, child, places[number])?;
    }
    Ok(())
}

/// Of each channel of a composite whether it ends at a delay. An own output is none.
pub(crate) fn delayed_in(
    alloc: Global,
    children: &[Node],
    wiring: &Wiring,
) -> Result<Vec<bool>, AllocError>
    requires { length children.now ≡ length wiring.now.places }
    ensures { IfOk result (λ flags. flags.items ≡ delayed_in (around_of wiring.now) (trees_of (map shown children.now))) }
{
    let mut flags = Vec::with_capacity(alloc, wiring.sources.len())?;
    add_all(&mut flags, children, wiring.places.as_slice())?;
    let outputs = vec![in alloc; false; wiring.outputs as usize]?;
    flags.extend_from_slice(&outputs)?;
    Ok(flags)
}
