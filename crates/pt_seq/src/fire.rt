ghost use Rattle.std.specs.Prelude.{◌≡◌, ◌+◌, ◌<◌, ◌≤◌, List, ℕ, Option, Some, false, map};
ghost use Rattle.pt_meaning.specs.Basics as basics;
ghost use Rattle.pt_value.specs.declared.token.Token.{Token};
ghost use Rattle.pt_records.specs.Kept.{Made};
ghost use Rattle.pt_node.specs.declared.node.Node.{out-Node};
ghost use Rattle.pt_directors.specs.Directors as directors;
ghost use Rattle.pt_directors.specs.Directors.{director_calls};
ghost use Rattle.pt_node.specs.Acts.{acts};
ghost use Rattle.pt_node.specs.Shown.{Shown, shown, shown_node, all_of};
ghost use Rattle.pt_node.specs.View.{outline_of, outlines_of, count_of, counts_of};
ghost use Rattle.pt_node.specs.Live.{IsLive, is_live, IsFit, Takes, AllFit, IsReady, TakenBy};
ghost use Rattle.pt_past.specs.Meetings.{Serves};
ghost use Rattle.pt_turns.specs.Within.{WithinTo, SpendsAll, StaysFit, AnswersTo, EndsLive};
ghost use Rattle.pt_turns.specs.Composite.{CompositeTo, KeepsFit, EndsAs, FinishTo};
ghost use Rattle.pt_turns.specs.Turns.{TurnTo, TurnFrom, TurnSpends, MayFire};
ghost use Rattle.pt_turns.specs.Between.{Rested, IsRestedUnderWay};
ghost use Rattle.pt_turns.specs.OwnMeetings.{own_of};

use crate::full::full_at;
use pt_core::Core;
use pt_directors::Director;
use pt_firing::{Answer, Inputs};
use pt_node::{Body, Node};
use pt_past::{Labels, MeetingRecord};
use pt_pause::{Pause, settle};
use pt_rows::{fire_row, first_row};
use pt_several::{Buffers, fire_actor, several, tell_numbers};
use pt_time::Tag;
use pt_turns::{Rest, Turn, Within, fault_at, tell};
use pt_value::Text;
use std::alloc::Global;
use std::slice;

/// One firing of the node at a tag, on a list of tokens for each of its places. At most `allowance` firings are recorded in it, those of the node and of all within it.
/// After any answer but `Done` the node isn't live, and fires no more.
pub fn fire_seq(
    alloc: Global,
    node: &mut Node,
    tag: Tag,
    inputs: &Inputs<'_>,
    allowance: u64,
) -> Answer
    requires live { IsLive (shown_node node.old) }
    requires inputs { Takes tag (shown_node node.old) inputs.now }
    ensures answers { AnswersTo (shown_node node.old) tag inputs.now allowance result (shown_node node.new) }
    ensures outline { outline_of (shown_node node.new) ≡ outline_of (shown_node node.old) }
    ensures live { EndsLive result (shown_node node.new) }
{
    let mut left = allowance;
    fire_within(alloc, node, tag, inputs, &mut left)
}

/// The same by what is left of an allowance, which is lowered by each firing that is recorded.
#[inline(always)]
pub fn fire_within(
    alloc: Global,
    node: &mut Node,
    tag: Tag,
    inputs: &Inputs<'_>,
    left: &mut u64,
) -> Answer
    requires live { IsLive (shown_node node.old) }
    requires inputs { Takes tag (shown_node node.old) inputs.now }
    ensures answers { AnswersTo (shown_node node.old) tag inputs.now left.old result (shown_node node.new) }
    ensures outline { outline_of (shown_node node.new) ≡ outline_of (shown_node node.old) }
    ensures counted { count_of (shown_node node.new) + left.new ≡ count_of (shown_node node.old) + left.old }
    ensures live { EndsLive result (shown_node node.new) }
{
    let allowance = *left;
    let outputs = match fire(alloc, node, tag, inputs, left) {
        Within::Done(outputs) => outputs,
        Within::Fault(place) => return Answer::Fault(place),
        Within::Spent => return Answer::Spent(allowance),
        Within::Full(blocked) => return Answer::Full(blocked),
        Within::Memory => return Answer::Memory,
    };
    if *left == 0 {
        return Answer::Spent(allowance);
    }
    if node.past.made == u64::MAX {
        return Answer::Memory;
    }
    if node.note(alloc, tag, &outputs).is_err() {
        return Answer::Memory;
    }
    node.record(tag);
    *left -= 1;
    Answer::Done(outputs)
}

/// One firing of the node, which isn't recorded. What is left of the allowance is lowered by each firing within.
#[cycle(fire)]
#[inline(always)]
fn fire(alloc: Global, node: &mut Node, tag: Tag, inputs: &Inputs<'_>, left: &mut u64) -> Within
    requires fit { IsFit (shown_node node.old) }
    requires inputs { Takes tag (shown_node node.old) inputs.now }
    ensures goes { WithinTo (shown_node node.old) tag inputs.now result (shown_node node.new) }
    ensures spends { SpendsAll result left.new }
    ensures lowered { left.new ≤ left.old }
    ensures fit { StaysFit result (shown_node node.new) }
    ensures outline { outline_of (shown_node node.new) ≡ outline_of (shown_node node.old) }
    ensures counted { count_of (shown_node node.new) + left.new ≡ count_of (shown_node node.old) + left.old }
    ensures past { (out-Node node.new).past ≡ (out-Node node.old).past }
    ensures live { is_live (shown_node node.new) ≡ false }
{
    node.live = false;
    match &mut node.body {
        Body::Actor(held) => fire_actor(alloc, held, &node.path, node.past.made, tag, inputs),
        Body::Composite(director) => fire_composite(
            alloc,
            director.get_mut(),
            &mut node.children,
            &node.path,
            &node.labels,
            node.past.made,
            &mut node.meetings,
            tag,
            inputs,
            left,
        ),
    }
}

/// One firing of a composite: its director says what comes next. Often it is finished after one row of firings, and then nothing more is looked at. `path`, `labels` and `made` are its own, to tell where it is stuck itself, or full, and `meetings` has those that it made.
#[cycle(fire)]
#[inline(always)]
fn fire_composite(
    alloc: Global,
    director: &mut Director,
    children: &mut Vec<Node>,
    path: &Text,
    labels: &Labels,
    made: u64,
    meetings: &mut MeetingRecord,
    tag: Tag,
    inputs: &Inputs<'_>,
    left: &mut u64,
) -> Within
    requires ready { IsReady director.old (all_of (map shown children.old.items)) }
    requires fit { AllFit (all_of (map shown children.old.items)) }
    requires inputs { TakenBy director.old inputs.now }
    requires serves { Serves (director_calls.met director.old) made meetings.old }
    ensures goes { CompositeTo acts path.now labels.now (own_of made meetings.old meetings.new) director.old (all_of (map shown children.old.items)) tag inputs.now result director.new (all_of (map shown children.new.items)) }
    ensures spends { SpendsAll result left.new }
    ensures lowered { left.new ≤ left.old }
    ensures fit { KeepsFit acts (own_of made meetings.old meetings.new) result director.new (all_of (map shown children.new.items)) }
    ensures outlines { outlines_of (all_of (map shown children.new.items)) ≡ outlines_of (all_of (map shown children.old.items)) }
    ensures maximum { director_calls.maximum director.new ≡ director_calls.maximum director.old }
    ensures counted { counts_of (all_of (map shown children.new.items)) + left.new ≡ counts_of (all_of (map shown children.old.items)) + left.old }
{
    let mut buffers = Buffers::new(alloc);
    let rest = first_row(
        alloc,
        director,
        children,
        made,
        meetings,
        tag,
        inputs,
        left,
        &mut buffers.row,
    );
    if rest.is_finished() {
        return finish(alloc, director);
    }
    go_on(
        alloc,
        director,
        children,
        path,
        labels,
        made,
        meetings,
        rest,
        left,
        &mut buffers,
    )
}

/// Carries on the firing of a composite from where its first row of firings has come to.
#[cycle(fire)]
#[inline(never)]
pub fn go_on(
    alloc: Global,
    director: &mut Director,
    children: &mut Vec<Node>,
    path: &Text,
    labels: &Labels,
    made: u64,
    meetings: &mut MeetingRecord,
    first: Rest,
    left: &mut u64,
    buffers: &mut Buffers,
) -> Within
    requires { (tag : basics.Tag) × IsRestedUnderWay tag made meetings.old first director.old (map shown children.old.items) left.old }
    ensures { (before : directors.Director) (olds : List Shown) (tag : basics.Tag) (X : basics.Streams Token) (allowance : ℕ) (start : Option Made) → Rested before olds tag X allowance (own_of made start meetings.old) first director.old (map shown children.old.items) left.old → EndsAs acts path.now labels.now (own_of made start meetings.new) before (all_of olds) tag X allowance result director.new (all_of (map shown children.new.items)) left.new }
{
    let mut rest = first;
    loop {
        match settle(alloc, director, children, made, meetings, rest, *left) {
            Pause::Turn(number, when, given) => {
                let child = &mut children[number as usize];
                match fire_child(alloc, director, child, number, when, given, left, buffers) {
                    Turn::Done => {}
                    Turn::Fault(place) => return Within::Fault(place),
                    Turn::Spent => return Within::Spent,
                    Turn::Full(blocked) => return Within::Full(blocked),
                    Turn::Memory => return Within::Memory,
                }
            }
            Pause::Finished => return finish(alloc, director),
            Pause::Faulted(kind) => return fault_at(alloc, path, made, kind),
            Pause::Spent => return Within::Spent,
            Pause::Full => return full_at(alloc, director, path, labels),
            Pause::Memory => return Within::Memory,
        }
        rest = fire_row(
            alloc,
            director,
            children,
            made,
            meetings,
            left,
            &mut buffers.row,
        );
    }
}

/// The turn of a child at a tag, whose firing gave one number already, or of one that fires now: it may give numbers alone, which go by a buffer.
#[cycle(fire)]
#[inline(never)]
fn fire_child(
    alloc: Global,
    director: &mut Director,
    child: &mut Node,
    number: u32,
    tag: Tag,
    given: Option<i64>,
    left: &mut u64,
    buffers: &mut Buffers,
) -> Turn
    requires asked { director_calls.asked_of director.old ≡ Some number }
    requires left { 0 < left.old }
    requires fit { MayFire given tag (shown_node child.old) (director_calls.lent_of director.old) }
    ensures goes { TurnFrom director_calls given director.old (shown_node child.old) number tag result director.new (shown_node child.new) }
    ensures maximum { director_calls.maximum director.new ≡ director_calls.maximum director.old }
    ensures spends { TurnSpends result left.old left.new }
    ensures lowered { left.new ≤ left.old }
    ensures outline { outline_of (shown_node child.new) ≡ outline_of (shown_node child.old) }
    ensures counted { count_of (shown_node child.new) + left.new ≡ count_of (shown_node child.old) + left.old }
{
    if let Some(given) = given {
        return tell_numbers(
            alloc,
            director,
            child,
            number,
            tag,
            left,
            slice::from_ref(&given),
        );
    }
    if several(director, child, buffers) {
        return tell_numbers(alloc, director, child, number, tag, left, &buffers.given);
    }
    fire_any(alloc, director, child, number, tag, left)
}

/// A turn of a child of any kind.
#[cycle(fire)]
#[inline(never)]
fn fire_any(
    alloc: Global,
    director: &mut Director,
    child: &mut Node,
    number: u32,
    tag: Tag,
    left: &mut u64,
) -> Turn
    requires asked { director_calls.asked_of director.old ≡ Some number }
    requires fit { IsFit (shown_node child.old) }
    requires inputs { Takes tag (shown_node child.old) (director_calls.lent_of director.old) }
    ensures goes { TurnTo director_calls director.old (shown_node child.old) number tag result director.new (shown_node child.new) }
    ensures maximum { director_calls.maximum director.new ≡ director_calls.maximum director.old }
    ensures spends { TurnSpends result left.old left.new }
    ensures lowered { left.new ≤ left.old }
    ensures outline { outline_of (shown_node child.new) ≡ outline_of (shown_node child.old) }
    ensures counted { count_of (shown_node child.new) + left.new ≡ count_of (shown_node child.old) + left.old }
{
    director.hand();
    let outputs = match fire(alloc, child, tag, &director.lent(), left) {
        Within::Done(outputs) => outputs,
        Within::Fault(place) => return Turn::Fault(place),
        Within::Spent => return Turn::Spent,
        Within::Full(blocked) => return Turn::Full(blocked),
        Within::Memory => return Turn::Memory,
    };
    if *left == 0 {
        return Turn::Spent;
    }
    tell(alloc, director, child, number, tag, left, outputs)
}

/// The own outputs of a composite whose director is finished.
#[inline(always)]
fn finish(alloc: Global, director: &mut Director) -> Within
    requires { director_calls.MayFinish director.old }
    ensures { FinishTo director_calls director.old result director.new }
{
    match director.finish(alloc) {
        Ok(outputs) => Within::Done(outputs),
        Err(_) => Within::Memory,
    }
}
