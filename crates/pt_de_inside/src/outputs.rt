ghost use Rattle.std.specs.Prelude.{◌↔◌, IsTrue, map};
ghost use Rattle.std.specs.List.{All};
ghost use Rattle.pt_core.specs.Source.{source_of};
ghost use Rattle.pt_node.specs.Shown.{shown, shown_node};
ghost use Rattle.pt_node.specs.View.{node_of};
ghost use Rattle.pt_trees.specs.Around.{around_of};
ghost use Rattle.pt_trees.specs.Composite.{trees_of};
ghost use Rattle.pt_trees.specs.De.{BeginsAtOutput, HasOutput};

use pt_core::Source;
use pt_node::{Body, Node};
use pt_trees::Wiring;

/// Whether each channel that begins at a child that answers early begins at an output of it.
pub fn begin_at_outputs(children: &[Node], wiring: &Wiring) -> bool
    ensures { IsTrue result ↔ All (λ source. BeginsAtOutput (trees_of (map shown children.now)) (source_of source)) wiring.now.sources.items }
{
    wiring
        .sources
        .iter()
        .all(|source| begins_at_output(children, *source))
}

/// Whether the one channel does.
fn begins_at_output(children: &[Node], source: Source) -> bool
    ensures { IsTrue result ↔ BeginsAtOutput (trees_of (map shown children.now)) (source_of source) }
{
    let Source::Output(child, port) = source else {
        return true;
    };
    match children.get(child as usize) {
        Some(node) => has_output(node, port as usize),
        None => true,
    }
}

/// Whether the port is an output of the node, where this answers early.
fn has_output(node: &Node, port: usize) -> bool
    ensures { IsTrue result ↔ HasOutput (node_of (shown_node node.now)) port }
{
    match &node.body {
        Body::Actor(held) => !held.actor.whole() || port < held.actor.outputs(),
        Body::Composite(_) => true,
    }
}
