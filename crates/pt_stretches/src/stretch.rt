ghost use Rattle.std.specs.Prelude.{◌≡◌, [], ◌∷◌, Some, IfOk, OnErr, map};
ghost use Rattle.pt_value.specs.declared.token.Token.TheVariants.{Int};
ghost use Rattle.pt_sdf.specs.State.{asked_child};
ghost use Rattle.pt_node.specs.declared.node.Node.{out-Node};
ghost use Rattle.pt_node.specs.Firing.{noted, bare};
ghost use Rattle.pt_node.specs.Live.{IsFit};
ghost use Rattle.pt_node.specs.Reset.{KeepsRecords};
ghost use Rattle.pt_node.specs.Shown.{shown_node};
ghost use Rattle.pt_stretches.specs.Stretches.{RowTo, StretchTo};

use pt_node::{Body, Node};
use pt_sdf::Core;
use pt_time::Tag;
use std::alloc::{AllocError, Global};

/// The next firings of a child that are in a row, where it takes and gives integers, and so many as it makes. `false` says that nothing was done.
/// After an `Err` the core is as before, and none of the firings is recorded.
#[inline(always)]
pub fn fire_stretch(
    core: &mut Core,
    child: &mut Node,
    number: u32,
    tag: Tag,
    left: &mut u64,
    given: &mut Vec<i64>,
) -> Result<bool, AllocError>
    requires asked { asked_child core.old.stage ≡ Some number }
    requires fit { IsFit (shown_node child.old) }
    ensures made { IfOk result (λ made. StretchTo core.old (shown_node child.old) number tag left.old made core.new (shown_node child.new) left.new) }
    ensures kept { OnErr result (core.new ≡ core.old) }
    ensures records { OnErr result (KeepsRecords (shown_node child.old) (shown_node child.new)) }
    ensures unspent { OnErr result (left.new ≡ left.old) }
{
    let most = (*left).min(u64::MAX - child.past.made);
    let Some((firings, rate)) = make_row(core, child, number, most, given) else {
        return Ok(false);
    };
    note_row(child, tag, given)?;
    core.told_rows(number, firings, rate, given)?;
    child.record_row(tag, firings as u64);
    *left -= firings as u64;
    Ok(true)
}

/// Makes the next firings of a library actor that are in a row, where it takes and gives integers: how many, at most so many, and how many integers each gave. None of them is recorded. Where that isn't told, nothing was done.
#[inline(always)]
fn make_row(
    core: &Core,
    child: &mut Node,
    number: u32,
    most: u64,
    given: &mut Vec<i64>,
) -> Option<(usize, usize)>
    requires asked { asked_child core.now.stage ≡ Some number }
    requires fit { IsFit (shown_node child.old) }
    ensures goes { RowTo core.now (shown_node child.old) number most result given.new.items (shown_node child.new) }
    ensures past { (out-Node child.new).past ≡ (out-Node child.old).past }
{
    match &mut child.body {
        Body::Actor(held) => {
            let (rows, rate) = core.int_rows(number, most as usize)?;
            if rows.firings() as u64 > most {
                return None;
            }
            let firings = held.actor.stretch(&rows, rate, given);
            if firings == 0 {
                return None;
            }
            child.live = false;
            Some((firings, rate))
        }
        Body::Composite(_) => None,
    }
}

/// Notes the integers that firings gave on the one output, where any are recorded. Nothing is recorded by that.
#[inline(always)]
fn note_row(child: &mut Node, tag: Tag, given: &[i64]) -> Result<(), AllocError>
    ensures noted { IfOk result (λ _. shown_node child.new ≡ noted tag (map Int given.now ∷ []) (shown_node child.old)) }
    ensures kept { bare (shown_node child.new) ≡ bare (shown_node child.old) }
{
    if child.records.as_slice().is_empty() {
        return Ok(());
    }
    child.note_numbers(tag, given)
}
