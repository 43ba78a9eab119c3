// The nodes of a tree, from those of the actors up.
ghost use Rattle.std.specs.Prelude.{IfOk, IfErr, OnOk, map};
ghost use Rattle.pt_net.specs.Inside.{children_of};
ghost use Rattle.pt_node.specs.Shown.{shown, shown_node};
ghost use Rattle.pt_trees.specs.Fresh.{IsFresh, AllFresh};
ghost use Rattle.pt_trees.specs.Directors.{IsDirectedBy};
ghost use Rattle.pt_trees.specs.Trees.{IsEntity, IsUndirected, AreStarted};
ghost use Rattle.pt_trees.specs.Built.{IsBuilt, AreBuilt, BuildFaultStands};
ghost use Rattle.pt_builder.specs.Starts.{starts_in};
ghost use Rattle.pt_builder.specs.Reached.{IsPrepared, IsReached, HasRoom, IsAdded};

use pt_builder::{Builder, fault_at};
use pt_composite::composite;
use pt_net::NetEntity;
use pt_node::Node;
use pt_trees::{BuildFault, Directing};
use pt_within::is_undirected;
use std::alloc::Global;

/// The node of the composite of that number with this director round its children.
fn composite_at(
    alloc: Global,
    builder: &Builder,
    k: usize,
    director: Directing,
    entity: &NetEntity,
    children: Vec<Node>,
) -> Result<Node, BuildFault>
    requires prepared { IsPrepared builder.now }
    requires started { AreStarted (starts_in builder.now) }
    requires entity { IsEntity builder.now.net.now k entity.now }
    requires directed { IsDirectedBy entity.now director }
    requires children { AreBuilt builder.now.net.now (starts_in builder.now) (children_of builder.now.net.now.entities.items k) (map shown children.items) }
    requires fresh { AllFresh (map shown children.items) }
    ensures built { IfOk result (λ node. IsBuilt builder.now.net.now (starts_in builder.now) k (shown_node node)) }
    ensures fresh { IfOk result (λ node. IsFresh (shown_node node)) }
    ensures stands { IfErr result (BuildFaultStands builder.now.net.now (starts_in builder.now)) }
{
    let frame = builder.frame_of(alloc, k, entity)?;
    match composite(
        alloc,
        director,
        children,
        frame.wiring,
        frame.path,
        frame.records,
        frame.labels,
    ) {
        Ok(node) => Ok(node),
        Err(fault) => Err(fault_at(alloc, fault, &entity.path)),
    }
}

/// Puts the node of the entity of that number, which stands below so many composites, behind others.
#[cycle(tree)]
fn add_node(
    alloc: Global,
    builder: &Builder,
    k: usize,
    depth: u32,
    nodes: &mut Vec<Node>,
) -> Result<(), BuildFault>
    requires { IsReached builder.now k depth }
    ensures added { OnOk result (IsAdded builder.now k nodes.old.items nodes.new.items) }
    ensures stands { IfErr result (BuildFaultStands builder.now.net.now (starts_in builder.now)) }
{
    let entity = builder.entity_at(k)?;
    if is_undirected(entity) {
        return builder.add_actor(alloc, k, entity, nodes);
    }
    let node = composite_node(alloc, builder, k, depth, entity)?;
    nodes.push(node)?;
    Ok(())
}

/// The node of the composite of that number, which stands below so many composites.
#[cycle(tree)]
fn composite_node(
    alloc: Global,
    builder: &Builder,
    k: usize,
    depth: u32,
    entity: &NetEntity,
) -> Result<Node, BuildFault>
    requires reached { IsReached builder.now k depth }
    requires entity { IsEntity builder.now.net.now k entity.now }
    requires directed { IsUndirected entity.now → ⊥ }
    ensures built { IfOk result (λ node. IsBuilt builder.now.net.now (starts_in builder.now) k (shown_node node)) }
    ensures fresh { IfOk result (λ node. IsFresh (shown_node node)) }
    ensures stands { IfErr result (BuildFaultStands builder.now.net.now (starts_in builder.now)) }
{
    let director = builder.check_composite(k, depth, entity)?;
    let children = children_at(alloc, builder, k, depth)?;
    composite_at(alloc, builder, k, director, entity, children)
}

/// The nodes of the children of a composite, which stands below so many composites.
#[cycle(tree)]
fn children_at(
    alloc: Global,
    builder: &Builder,
    k: usize,
    depth: u32,
) -> Result<Vec<Node>, BuildFault>
    requires { HasRoom builder.now k depth }
    ensures built { IfOk result (λ nodes. AreBuilt builder.now.net.now (starts_in builder.now) (children_of builder.now.net.now.entities.items k) (map shown nodes.items)) }
    ensures fresh { IfOk result (λ nodes. AllFresh (map shown nodes.items)) }
    ensures stands { IfErr result (BuildFaultStands builder.now.net.now (starts_in builder.now)) }
{
    let numbers = builder.children_of(k);
    // A node is large, so that a list which grows would move the nodes many times.
    let mut children = Vec::with_capacity(alloc, numbers.len())?;
    for number in numbers {
        add_node(alloc, builder, *number, depth + 1, &mut children)?;
    }
    Ok(children)
}

/// The node of the top.
pub(crate) fn top(alloc: Global, builder: &Builder) -> Result<Node, BuildFault>
    requires { IsReached builder.now 0 0 }
    ensures built { IfOk result (λ node. IsBuilt builder.now.net.now (starts_in builder.now) 0 (shown_node node)) }
    ensures fresh { IfOk result (λ node. IsFresh (shown_node node)) }
    ensures stands { IfErr result (BuildFaultStands builder.now.net.now (starts_in builder.now)) }
{
    let mut nodes = Vec::with_capacity(alloc, 1)?;
    add_node(alloc, builder, 0, 0, &mut nodes)?;
    match nodes.pop() {
        Some(node) => Ok(node),
        None => unreachable!(),
    }
}
