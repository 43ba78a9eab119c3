ghost use Rattle.std.specs.Prelude.{◌≡◌, IfOk, map};
ghost use Rattle.pt_node.specs.Shown.{shown, shown_node};
ghost use Rattle.pt_node.specs.View.{node_of};
ghost use Rattle.pt_trees.specs.Composite.{trees_of};
ghost use Rattle.pt_wired.specs.Nonstrict.{is_nonstrict};

use pt_node::{Body, Node};
use std::alloc::{AllocError, Global};

/// Whether a node may give an early answer.
fn is_nonstrict(node: &Node) -> bool
    ensures { result ≡ is_nonstrict (node_of (shown_node node.now)) }
{
    match &node.body {
        Body::Actor(held) => !held.actor.is_strict(),
        Body::Composite(_) => false,
    }
}

/// Whether each child may give an early answer.
pub fn nonstrict_of(alloc: Global, children: &[Node]) -> Result<Vec<bool>, AllocError>
    ensures { IfOk result (λ flags. flags.items ≡ map is_nonstrict (trees_of (map shown children.now))) }
{
    let mut flags = Vec::with_capacity(alloc, children.len())?;
    for child in children {
        flags.push(is_nonstrict(child))?;
    }
    Ok(flags)
}
