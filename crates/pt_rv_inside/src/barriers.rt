ghost use Rattle.std.specs.Prelude.{◌≡◌, IfOk, map};
ghost use Rattle.pt_node.specs.Shown.{shown, shown_node};
ghost use Rattle.pt_node.specs.View.{node_of};
ghost use Rattle.pt_trees.specs.Composite.{trees_of};
ghost use Rattle.pt_trees.specs.Rendezvous.{is_barrier};

use pt_node::{Body, Node};
use std::alloc::{AllocError, Global};

/// Whether a node is a Barrier.
fn is_barrier(node: &Node) -> bool
    ensures { result ≡ is_barrier (node_of (shown_node node.now)) }
{
    match &node.body {
        Body::Actor(held) => held.actor.is_barrier(),
        Body::Composite(_) => false,
    }
}

/// Which children are Barriers.
pub fn barriers_of(alloc: Global, children: &[Node]) -> Result<Vec<bool>, AllocError>
    ensures { IfOk result (λ barriers. barriers.items ≡ map is_barrier (trees_of (map shown children.now))) }
{
    let mut barriers = Vec::with_capacity(alloc, children.len())?;
    for child in children {
        barriers.push(is_barrier(child))?;
    }
    Ok(barriers)
}
