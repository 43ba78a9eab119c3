// The children of a top before a block and after it.
ghost use Rattle.std.specs.Prelude.{◌≡◌, ◌+◌, ◌*◌, ◌<◌, ◌^◌, [], ◌∷◌, length, map, IfSome, IsTrue, OnOk};
ghost use Rattle.pt_value.specs.declared.token.Token.TheVariants.{Int};
ghost use Rattle.pt_node.specs.declared.node.Node.{out-Node};
ghost use Rattle.pt_node.specs.Shown.{shown, shown_node};
ghost use Rattle.pt_node.specs.Firing.{noted, bare, recorded_times};
ghost use Rattle.pt_blocks.specs.Children.{AreOf, Each, IsBareAs, AllNotedTo, MayRecord, IsRecorded, with_actor};

use pt_block_work::Row;
use pt_firing::Fires;
use pt_library::LibraryActor;
use pt_node::{Body, Node};
use pt_time::Tag;
use std::alloc::{AllocError, Global};
use std::mem;

/// Copies of the library actors that the children are. An `Err` also says that one of them is a composite.
pub(crate) fn copies(
    alloc: Global,
    children: &[Node],
    actors: &mut Vec<LibraryActor>,
) -> Result<(), AllocError>
    ensures { OnOk result (AreOf (map shown children.now) actors.new.items) }
{
    actors.clear();
    actors.reserve_exact(children.len())?;
    for child in children {
        let Body::Actor(held) = &child.body else {
            return Err(AllocError);
        };
        let copy = held.actor.copy(alloc)?;
        actors.push(copy)?;
    }
    Ok(())
}

/// Notes what the children gave in so many iterations, and answers what is left of an allowance after these. `None` says that it doesn't suffice, or that a count would pass its end, or that memory was wanting.
pub(crate) fn note_all(
    repetitions: &[usize],
    children: &mut Vec<Node>,
    given: &[Row],
    tag: Tag,
    iterations: u64,
    left: u64,
) -> Option<u64>
    requires repetitions { length repetitions.now ≡ length children.old.items }
    requires rows { length given.now ≡ length children.old.items }
    ensures bare { Each IsBareAs (map shown children.old.items) (map shown children.new.items) }
    ensures noted { IfSome result (AllNotedTo (length children.old.items) repetitions.now given.now tag iterations left (map shown children.old.items) (map shown children.new.items)) }
{
    let mut after = left.checked_sub(iterations)?;
    for i in 0..children.len() {
        let firings = (repetitions[i] as u64).checked_mul(iterations)?;
        let rest = after.checked_sub(firings)?;
        let child = &mut children[i];
        if !note_child(child, given[i].as_slice(), tag, firings) {
            return None;
        }
        after = rest;
    }
    Some(after)
}

/// Notes what a child gave in so many firings. `false` says that its count would pass its end, or that memory was wanting.
fn note_child(child: &mut Node, numbers: &[i64], tag: Tag, firings: u64) -> bool
    ensures bare { bare (shown_node child.new) ≡ bare (shown_node child.old) }
    ensures noted { IsTrue result → shown_node child.new ≡ noted tag (map Int numbers.now ∷ []) (shown_node child.old) }
    ensures few { IsTrue result → (out-Node child.old).past.made + firings < 2 ^ 64 }
{
    if child.past.made.checked_add(firings).is_none() {
        return false;
    }
    child.note_numbers(tag, numbers).is_ok()
}

/// Gives the children the actors that fired for them, and records their firings.
pub(crate) fn record_all(
    repetitions: &[usize],
    children: &mut Vec<Node>,
    actors: &mut Vec<LibraryActor>,
    tag: Tag,
    iterations: u64,
)
    requires { MayRecord repetitions.now iterations (map shown children.old.items) actors.old.items }
    ensures { Each (IsRecorded repetitions.now tag iterations actors.old.items) (map shown children.old.items) (map shown children.new.items) }
{
    for i in 0..children.len() {
        let child = &mut children[i];
        let actor = &mut actors[i];
        record_child(child, actor, tag, repetitions[i] as u64 * iterations);
    }
}

/// Gives a child the actor that fired for it, and records so many firings.
fn record_child(child: &mut Node, actor: &mut LibraryActor, tag: Tag, firings: u64)
    requires { (out-Node child.old).past.made + firings < 2 ^ 64 }
    ensures { shown_node child.new ≡ recorded_times tag firings (with_actor actor.old (shown_node child.old)) }
{
    if let Body::Actor(held) = &mut child.body {
        mem::swap(&mut held.actor, actor);
    }
    child.record_row(tag, firings);
}
