ghost use Rattle.std.specs.Prelude.{◌≡◌, IfOk, map};
ghost use Rattle.pt_meaning.specs.NodeFacts as facts;
ghost use Rattle.pt_library.specs.LibraryActor as library;
ghost use Rattle.pt_node.specs.Shown.{shown, shown_node};
ghost use Rattle.pt_node.specs.View.{node_of};
ghost use Rattle.pt_trees.specs.Composite.{trees_of};
ghost use Rattle.pt_trees.specs.De.{answers_early};
ghost use Rattle.pt_trees.specs.Fresh.{AllFresh};

use pt_node::{Body, Node};
use pt_time::Tag;
use std::alloc::{AllocError, Global};

/// Whether a node answers early, once all its places but its delays are known.
pub(crate) fn answers_early(node: &Node) -> bool
    ensures { result ≡ answers_early (node_of (shown_node node.now)) }
{
    match &node.body {
        Body::Actor(held) => held.actor.whole(),
        Body::Composite(_) => false,
    }
}

/// Whether each child answers early.
pub(crate) fn early_of(alloc: Global, children: &[Node]) -> Result<Vec<bool>, AllocError>
    ensures { IfOk result (λ flags. flags.items ≡ map answers_early (trees_of (map shown children.now))) }
{
    let mut flags = Vec::with_capacity(alloc, children.len())?;
    for child in children {
        flags.push(answers_early(child))?;
    }
    Ok(flags)
}

/// Whether each child takes its lists whole.
pub(crate) fn whole_of(alloc: Global, children: &[Node]) -> Result<Vec<bool>, AllocError>
    ensures { IfOk result (λ flags. flags.items ≡ map (facts.whole_of library.rows) (trees_of (map shown children.now))) }
{
    let mut flags = Vec::with_capacity(alloc, children.len())?;
    for child in children {
        flags.push(child.whole())?;
    }
    Ok(flags)
}

/// The wake of each child, which is at its start.
pub fn wakes_of(alloc: Global, children: &[Node]) -> Result<Vec<Option<Tag>>, AllocError>
    requires { AllFresh (map shown children.now) }
    ensures { IfOk result (λ wakes. wakes.items ≡ map (facts.next_of library.rows) (trees_of (map shown children.now))) }
{
    let mut wakes = Vec::with_capacity(alloc, children.len())?;
    for child in children {
        wakes.push(child.next())?;
    }
    Ok(wakes)
}
