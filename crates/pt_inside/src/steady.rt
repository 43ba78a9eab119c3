ghost use Rattle.std.specs.Prelude.{◌≡◌, map, true, false};
ghost use Rattle.pt_node.specs.Shown.{shown, shown_node};
ghost use Rattle.pt_node.specs.View.{node_of};
ghost use Rattle.pt_trees.specs.Around.{Around};
ghost use Rattle.pt_trees.specs.Composite.{trees_of};
ghost use Rattle.pt_trees.specs.Rates.{is_steady, AreSteady, HasUnsteady};

use pt_node::{Body, Node};

/// Whether a node needs the same at each firing.
fn is_steady(node: &Node) -> bool
    ensures { result ≡ is_steady (node_of (shown_node node.now)) }
{
    match &node.body {
        Body::Actor(held) => held.actor.is_steady(),
        Body::Composite(_) => true,
    }
}

/// Whether each child needs the same at each firing.
pub fn are_steady(children: &[Node]) -> bool
    ensures yes { result ≡ true → AreSteady (trees_of (map shown children.now)) }
    ensures no { result ≡ false → (around : Around) → HasUnsteady around (trees_of (map shown children.now)) }
{
    for child in children {
        if !is_steady(child) {
            return false;
        }
    }
    true
}
