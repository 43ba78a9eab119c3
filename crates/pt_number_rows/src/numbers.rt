ghost use Rattle.std.specs.Prelude.{◌≡◌, ◌+◌, ◌<◌, ◌≤◌, List, ℕ, Some, IsSome, map};
ghost use Rattle.pt_meaning.specs.Basics as basics;
ghost use Rattle.pt_value.specs.declared.token.Token.{Token};
ghost use Rattle.pt_directors.specs.Directors as directors;
ghost use Rattle.pt_directors.specs.Directors.{director_calls};
ghost use Rattle.pt_node.specs.Acts.{acts};
ghost use Rattle.pt_node.specs.declared.node.Node.{out-Node};
ghost use Rattle.pt_node.specs.Shown.{Shown, shown, shown_node};
ghost use Rattle.pt_node.specs.View.{outline_of, count_of};
ghost use Rattle.pt_node.specs.Live.{IsFit};
ghost use Rattle.pt_turns.specs.Within.{NumberTo, Given};
ghost use Rattle.pt_turns.specs.Between.{At, IsUnderWay, Between, Rested};
ghost use Rattle.pt_turns.specs.OwnMeetings.{OwnMeetings};
ghost use Rattle.pt_number_rows.specs.Quick.{QuickTo, QuickSpends};

use pt_firing::Ask;
use pt_node::{Body, Node};
use pt_number_cores::NumberCore;
use pt_time::Tag;
use pt_turns::Rest;
use std::alloc::Global;
use std::slice;

/// How the turn of a child went that may give one number.
#[derive(Clone, Copy, Debug)]
pub(crate) enum Quick {
    Done,
    /// The firing gave this number, of which the core isn't told yet, or wasn't made.
    Open(Option<i64>),
}

/// Makes one firing of a child after another, as the core asks for them, as long as each takes integers and gives one, of which nothing is recorded and no memory is wanted.
/// This is the inner loop of a run. On its common path it calls nothing, so that it stays in registers.
#[inline(never)]
pub fn fire_numbers<C: NumberCore>(
    alloc: Global,
    core: &mut C,
    children: &mut Vec<Node>,
    left: &mut u64,
    row: &mut Vec<i64>,
) -> Rest
    requires { (tag : basics.Tag) × IsUnderWay acts tag (C.director core.old) (map shown children.old.items) left.old }
    ensures lowered { left.new ≤ left.old }
    ensures goes { (before : directors.Director) (olds : List Shown) (tag : basics.Tag) (X : basics.Streams Token) (allowance : ℕ) (own : OwnMeetings) → At acts before olds tag X allowance own (C.director core.old) (map shown children.old.items) left.old → Rested before olds tag X allowance own result (C.director core.new) (map shown children.new.items) left.new }
{
    loop {
        match asked(core) {
            Ask::Fire(number, when) => {
                if *left == 0 {
                    return Rest::Asked(Ask::Fire(number, when));
                }
                let child = &mut children[number as usize];
                if let Quick::Open(given) = turn_of_number(
                    alloc, core, child, number, when, left, row,
                ) {
                    return Rest::Turn(number, when, given);
                }
            }
            next => return Rest::Asked(next),
        }
    }
}

/// What the core asks for that isn't a move of its own. Such a move is made already, and it is only asked again.
#[inline(always)]
fn asked<C: NumberCore>(core: &mut C) -> Ask
    requires { (now : List Shown) × ((left : ℕ) × ((tag : basics.Tag) × IsUnderWay acts tag (C.director core.old) now left)) }
    ensures { (before : directors.Director) (olds : List Shown) (tag : basics.Tag) (X : basics.Streams Token) (allowance : ℕ) (own : OwnMeetings) (now : List Shown) (left : ℕ) → At acts before olds tag X allowance own (C.director core.old) now left → Between acts before olds tag X allowance own result (C.director core.new) now left }
{
    loop {
        match core.ask_on() {
            Ask::Get(_) | Ask::Put(_) | Ask::Grow => {}
            next => return next,
        }
    }
}

/// The turn of a child that may give one number.
#[inline(always)]
pub(crate) fn turn_of_number<C: NumberCore>(
    alloc: Global,
    core: &mut C,
    child: &mut Node,
    number: u32,
    tag: Tag,
    left: &mut u64,
    row: &mut Vec<i64>,
) -> Quick
    requires asked { director_calls.asked_of (C.director core.old) ≡ Some number }
    requires fit { IsFit (shown_node child.old) }
    requires left { 0 < left.old }
    ensures goes { QuickTo director_calls (C.director core.old) (shown_node child.old) number tag result (C.director core.new) (shown_node child.new) }
    ensures spends { QuickSpends result left.old left.new }
    ensures outline { outline_of (shown_node child.new) ≡ outline_of (shown_node child.old) }
    ensures counted { count_of (shown_node child.new) + left.new ≡ count_of (shown_node child.old) + left.old }
{
    if core.gives_several(number) {
        return Quick::Open(None);
    }
    let Some(given) = fire_number(core, child, row) else {
        return Quick::Open(None);
    };
    if !child.records.as_slice().is_empty() || child.past.made == u64::MAX {
        return Quick::Open(Some(given));
    }
    if !core.told_number(alloc, child, number, given) {
        return Quick::Open(Some(given));
    }
    child.record_alone(tag);
    *left -= 1;
    Quick::Done
}

/// The same, where a number of which something is recorded is told too.
#[inline(always)]
pub(crate) fn turn_with_records<C: NumberCore>(
    alloc: Global,
    core: &mut C,
    child: &mut Node,
    number: u32,
    tag: Tag,
    left: &mut u64,
    row: &mut Vec<i64>,
) -> Quick
    requires asked { director_calls.asked_of (C.director core.old) ≡ Some number }
    requires fit { IsFit (shown_node child.old) }
    requires left { 0 < left.old }
    ensures goes { QuickTo director_calls (C.director core.old) (shown_node child.old) number tag result (C.director core.new) (shown_node child.new) }
    ensures spends { QuickSpends result left.old left.new }
    ensures outline { outline_of (shown_node child.new) ≡ outline_of (shown_node child.old) }
    ensures counted { count_of (shown_node child.new) + left.new ≡ count_of (shown_node child.old) + left.old }
{
    match turn_of_number(alloc, core, child, number, tag, left, row) {
        Quick::Done => Quick::Done,
        Quick::Open(given) => tell_open(alloc, core, child, number, tag, left, given),
    }
}

/// Tells the core the integer that a child gave, if its firing was made, and records the firing.
#[inline(always)]
fn tell_open<C: NumberCore>(
    alloc: Global,
    core: &mut C,
    child: &mut Node,
    number: u32,
    tag: Tag,
    left: &mut u64,
    given: Option<i64>,
) -> Quick
    requires asked { director_calls.asked_of (C.director core.old) ≡ Some number }
    requires left { 0 < left.old }
    ensures goes { (old : Shown) → Given given old (director_calls.lent_of (C.director core.old)) (shown_node child.old) → QuickTo director_calls (C.director core.old) old number tag result (C.director core.new) (shown_node child.new) }
    ensures spends { QuickSpends result left.old left.new }
    ensures outline { outline_of (shown_node child.new) ≡ outline_of (shown_node child.old) }
    ensures counted { count_of (shown_node child.new) + left.new ≡ count_of (shown_node child.old) + left.old }
{
    match given {
        Some(given) => tell_recorded(alloc, core, child, number, tag, left, given),
        None => Quick::Open(None),
    }
}

/// Tells the core the integer that a child gave, and records its firing with what it gave.
#[inline(never)]
fn tell_recorded<C: NumberCore>(
    alloc: Global,
    core: &mut C,
    node: &mut Node,
    number: u32,
    tag: Tag,
    left: &mut u64,
    given: i64,
) -> Quick
    requires asked { director_calls.asked_of (C.director core.old) ≡ Some number }
    requires left { 0 < left.old }
    ensures goes { (old : Shown) → Given (Some given) old (director_calls.lent_of (C.director core.old)) (shown_node node.old) → QuickTo director_calls (C.director core.old) old number tag result (C.director core.new) (shown_node node.new) }
    ensures spends { QuickSpends result left.old left.new }
    ensures outline { outline_of (shown_node node.new) ≡ outline_of (shown_node node.old) }
    ensures counted { count_of (shown_node node.new) + left.new ≡ count_of (shown_node node.old) + left.old }
{
    if node.past.made == u64::MAX {
        return Quick::Open(Some(given));
    }
    if node.note_numbers(tag, slice::from_ref(&given)).is_err() {
        return Quick::Open(Some(given));
    }
    if !core.told_number(alloc, node, number, given) {
        return Quick::Open(Some(given));
    }
    node.record(tag);
    *left -= 1;
    Quick::Done
}

/// One firing of a library actor, where it takes numbers and gives one. The firing isn't recorded. Where no number is given, nothing was done.
#[inline(always)]
fn fire_number<C: NumberCore>(core: &C, node: &mut Node, row: &mut Vec<i64>) -> Option<i64>
    requires asked { IsSome (director_calls.asked_of (C.director core.now)) }
    requires fit { IsFit (shown_node node.old) }
    ensures goes { NumberTo (shown_node node.old) (director_calls.lent_of (C.director core.now)) result (shown_node node.new) }
    ensures past { (out-Node node.new).past ≡ (out-Node node.old).past }
{
    match &mut node.body {
        Body::Actor(held) => {
            let inputs = core.int_inputs(row)?;
            let given = held.actor.number(&inputs)?;
            node.live = false;
            Some(given)
        }
        Body::Composite(_) => None,
    }
}
