ghost use Rattle.std.specs.Prelude.{◌≡◌, ◌+◌, ◌<◌, ◌^◌, [], map, IsTrue};
ghost use Rattle.pt_directors.specs.Directors.{of_sdf};
ghost use Rattle.pt_node.specs.declared.node.Node.{out-Node};
ghost use Rattle.pt_node.specs.Shown.{all_of, shown, shown_node};
ghost use Rattle.pt_node.specs.View.{outline_of, count_of};
ghost use Rattle.pt_node.specs.Live.{IsReady, IsReadyBody, IsLive};
ghost use Rattle.pt_blocks.specs.Block.{IsMade, ChildrenTo};
ghost use Rattle.pt_blocks.specs.Made.{BlockTo};

use crate::blocks::Blocks;
use crate::children::{copies, note_all, record_all};
use pt_block_work::{clear, fire_all, offsets_of};
use pt_core::Either;
use pt_node::{Body, Node};
use pt_sdf::Core;
use pt_time::Tag;
use std::alloc::Global;

/// Makes so many firings of the top at once, at a tag, where its children take and give integers alone and no channel has a token. `false` says that none was made.
/// What is left of the allowance is lowered by each firing.
pub fn fire_block(
    alloc: Global,
    top: &mut Node,
    blocks: &mut Blocks,
    tag: Tag,
    iterations: u64,
    left: &mut u64,
) -> bool
    requires live { IsLive (shown_node top.old) }
    ensures made { BlockTo iterations tag result (shown_node top.old) (shown_node top.new) }
    ensures outline { outline_of (shown_node top.new) ≡ outline_of (shown_node top.old) }
    ensures counted { count_of (shown_node top.new) + left.new ≡ count_of (shown_node top.old) + left.old }
{
    if !has_room(top, iterations) {
        return false;
    }
    if !fire_children(
        alloc,
        &top.body,
        &mut top.children,
        blocks,
        tag,
        iterations,
        left,
    ) {
        return false;
    }
    top.record_row(tag, iterations);
    true
}

/// Whether nothing of the node itself is recorded, and its count has room for so many firings.
fn has_room(top: &Node, iterations: u64) -> bool
    ensures alone { IsTrue result → (out-Node top.now).records ≡ [] }
    ensures few { IsTrue result → (out-Node top.now).past.made + iterations < 2 ^ 64 }
{
    top.records.as_slice().is_empty() && top.past.made.checked_add(iterations).is_some()
}

/// Makes the firings of the children of a top under SDF, notes what they gave, and records them. Where `false` is told nothing is recorded, and nothing spent.
fn fire_children(
    alloc: Global,
    body: &Body,
    children: &mut Vec<Node>,
    blocks: &mut Blocks,
    tag: Tag,
    iterations: u64,
    left: &mut u64,
) -> bool
    requires { IsReadyBody body.now (all_of (map shown children.old.items)) }
    ensures { ChildrenTo body.now tag iterations result left.old left.new (map shown children.old.items) (map shown children.new.items) }
{
    let Body::Composite(director) = body else {
        return false;
    };
    let director = director.get();
    let Either::First(core) = director else {
        return false;
    };
    if !work(alloc, core, children, blocks, iterations as usize) {
        return false;
    }
    let repetitions = core.repetitions().as_slice();
    let Some(after) = note_all(repetitions, children, &blocks.given, tag, iterations, *left) else {
        return false;
    };
    record_all(repetitions, children, &mut blocks.actors, tag, iterations);
    *left = after;
    true
}

/// Makes the firings of the children by copies of their actors. Where that isn't told, some weren't made.
fn work(
    alloc: Global,
    core: &Core,
    children: &[Node],
    blocks: &mut Blocks,
    iterations: usize,
) -> bool
    requires { IsReady (of_sdf core.now) (all_of (map shown children.now)) }
    ensures { IsTrue result → IsMade core.now iterations (map shown children.now) blocks.new.actors.items blocks.new.given.items }
{
    let plan = core.plan();
    let Ok(places) = offsets_of(plan.places.as_slice(), &mut blocks.offsets) else {
        return false;
    };
    if places != plan.sources.len() || places != plan.needs.len() || !core.is_bare() {
        return false;
    }
    if children.is_empty() || blocks.given.len() != children.len() {
        return false;
    }
    if copies(alloc, children, &mut blocks.actors).is_err() {
        return false;
    }
    clear(&mut blocks.given);
    let made = fire_all(
        alloc,
        plan,
        &blocks.offsets,
        &blocks.order,
        iterations,
        &mut blocks.actors,
        &mut blocks.given,
    );
    made && blocks.actors.len() == children.len() && blocks.given.len() == children.len()
}
