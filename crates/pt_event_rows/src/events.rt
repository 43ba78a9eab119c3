// Firings under DE of which each gives one integer at most, or none.
ghost use Rattle.std.specs.Prelude.{◌≡◌, ◌+◌, ◌<◌, ◌≤◌, ◌^◌, ◌∷◌, [], List, ℕ, Option, true, false, Some, IsSome, OnOk, OnErr, map};
ghost use Rattle.pt_meaning.specs.Basics as basics;
ghost use Rattle.pt_meaning.specs.NodeFacts.{early_of};
ghost use Rattle.pt_value.specs.declared.token.Token.{Token};
ghost use Rattle.pt_library.specs.LibraryActor.{rows, signal_of};
ghost use Rattle.pt_directors.specs.Directors as directors;
ghost use Rattle.pt_directors.specs.Directors.{director_calls, of_de};
ghost use Rattle.pt_node.specs.Acts.{acts};
ghost use Rattle.pt_node.specs.declared.node.Node.{out-Node};
ghost use Rattle.pt_node.specs.Firing.{noted, bare, recorded};
ghost use Rattle.pt_node.specs.Shown.{Shown, all_of, shown, shown_node};
ghost use Rattle.pt_node.specs.View.{node_of, outline_of, count_of};
ghost use Rattle.pt_node.specs.Live.{AllFit, IsFit, IsReady, TakenBy, Takes};
ghost use Rattle.pt_past.specs.Meetings.{Serves};
ghost use Rattle.pt_records.specs.Kept.{Made};
ghost use Rattle.pt_event_rows.specs.Signals.{AtOnceTo, SignalTo, TellsAt, SignalledTo, SignalSpends};
ghost use Rattle.pt_turns.specs.Between.{At, Between, IsUnderWay, Rested};
ghost use Rattle.pt_turns.specs.OwnMeetings.{OwnMeetings, own_of};

use pt_core::{Core, Either};
use pt_de::DeCore;
use pt_directors::Director;
use pt_firing::{Ask, Inputs};
use pt_node::{Body, Node};
use pt_time::Tag;
use pt_turns::Rest;
use std::alloc::{AllocError, Global};

/// How the turn of a child went that may give one integer at most.
#[derive(Clone, Copy, Debug)]
enum Signalled {
    Done,
    /// Nothing was done.
    Open,
    /// Memory was wanting for what is recorded.
    Memory,
}

/// Begins a reaction at a tag on the own inputs, and makes its first row of firings.
#[inline(always)]
pub fn first_reaction(
    alloc: Global,
    core: &mut DeCore,
    children: &mut Vec<Node>,
    tag: Tag,
    inputs: &Inputs<'_>,
    left: &mut u64,
    row: &mut Vec<i64>,
) -> Rest
    requires ready { IsReady (of_de core.old) (all_of (map shown children.old.items)) }
    requires fit { AllFit (all_of (map shown children.old.items)) }
    requires inputs { TakenBy (of_de core.old) inputs.now }
    ensures { (number : ℕ) (made : Option Made) → Serves (director_calls.met (of_de core.old)) number made → Rested (of_de core.old) (map shown children.old.items) tag inputs.now left.old (own_of number made made) result (of_de core.new) (map shown children.new.items) left.new }
{
    if core.begin(alloc, tag, inputs).is_err() {
        return Rest::Memory;
    }
    fire_events(core, children, left, row)
}

/// Makes one firing of a child after another, as the core asks for them, as long as each gives one integer at most and there is room for it. Early answers of that kind are told too.
/// This is the inner loop of a run of discrete events: nothing is staged, and no memory is taken but for what is recorded.
#[inline(never)]
pub fn fire_events(
    core: &mut DeCore,
    children: &mut Vec<Node>,
    left: &mut u64,
    row: &mut Vec<i64>,
) -> Rest
    requires { (tag : basics.Tag) × IsUnderWay acts tag (of_de core.old) (map shown children.old.items) left.old }
    ensures lowered { left.new ≤ left.old }
    ensures goes { (before : directors.Director) (olds : List Shown) (tag : basics.Tag) (X : basics.Streams Token) (allowance : ℕ) (own : OwnMeetings) → At acts before olds tag X allowance own (of_de core.old) (map shown children.old.items) left.old → Rested before olds tag X allowance own result (of_de core.new) (map shown children.new.items) left.new }
{
    loop {
        match ask_on(core, children) {
            Ask::Fire(number, when) => {
                if *left == 0 {
                    return Rest::Asked(Ask::Fire(number, when));
                }
                let child = &mut children[number as usize];
                match turn_of_signal(core, child, number, when, left, row) {
                    Signalled::Done => {}
                    Signalled::Open => return Rest::Turn(number, when, None),
                    Signalled::Memory => return Rest::Memory,
                }
            }
            next => return Rest::Asked(next),
        }
    }
}

/// Asks the core what comes next, until it asks for anything but an early answer that is one integer at most.
#[inline(always)]
fn ask_on(core: &mut DeCore, children: &Vec<Node>) -> Ask
    requires { (left : ℕ) × ((tag : basics.Tag) × IsUnderWay acts tag (of_de core.old) (map shown children.now.items) left) }
    ensures { (before : directors.Director) (olds : List Shown) (tag : basics.Tag) (X : basics.Streams Token) (allowance : ℕ) (own : OwnMeetings) (left : ℕ) → At acts before olds tag X allowance own (of_de core.old) (map shown children.now.items) left → Between acts before olds tag X allowance own result (of_de core.new) (map shown children.now.items) left }
{
    loop {
        match core.ask() {
            Ask::Early(number, when) => {
                let child = &children[number as usize];
                if !hear_signal(core, child, number, when) {
                    return Ask::Early(number, when);
                }
            }
            next => return next,
        }
    }
}

/// Tells the core what a child gives early at a tag, where that is one integer at most, whatever is known of its inputs, and there is room for it.
#[inline(always)]
fn hear_signal(core: &mut DeCore, child: &Node, number: u32, when: Tag) -> bool
    requires { director_calls.listened_of (of_de core.old) ≡ Some number }
    ensures heard { result ≡ true → of_de core.new ≡ director_calls.heard number (early_of rows when (node_of (shown_node child.now)) (director_calls.partial_of (of_de core.old))) (of_de core.old) }
    ensures kept { result ≡ false → core.new ≡ core.old }
{
    if !core.has_room(number) {
        return false;
    }
    match early_signal(child, when) {
        Some(early) => {
            core.hears_signal(number, early);
            true
        }
        None => false,
    }
}

/// What a library actor gives early at a tag, where that is one integer at most, whatever is known of its inputs.
#[inline(always)]
fn early_signal(child: &Node, when: Tag) -> Option<Option<i64>>
    ensures { TellsAt when (shown_node child.now) result }
{
    match &child.body {
        Body::Actor(held) => held.actor.early_signal(when),
        Body::Composite(_) => None,
    }
}

/// The turn of a child that may give one integer at most.
#[inline(always)]
fn turn_of_signal(
    core: &mut DeCore,
    child: &mut Node,
    number: u32,
    tag: Tag,
    left: &mut u64,
    row: &mut Vec<i64>,
) -> Signalled
    requires asked { director_calls.asked_of (of_de core.old) ≡ Some number }
    requires fit { IsFit (shown_node child.old) }
    requires takes { Takes tag (shown_node child.old) (director_calls.lent_of (of_de core.old)) }
    requires left { 0 < left.old }
    ensures goes { SignalledTo director_calls (of_de core.old) (shown_node child.old) number tag result (of_de core.new) (shown_node child.new) }
    ensures spends { SignalSpends result left.old left.new }
    ensures outline { outline_of (shown_node child.new) ≡ outline_of (shown_node child.old) }
    ensures counted { count_of (shown_node child.new) + left.new ≡ count_of (shown_node child.old) + left.old }
{
    if child.past.made == u64::MAX {
        return Signalled::Open;
    }
    if !core.has_room(number) {
        return Signalled::Open;
    }
    let Some(given) = fire_signal(core, child, tag, row) else {
        return Signalled::Open;
    };
    let wake = child.wake();
    if record_signal(child, tag, given).is_err() {
        return Signalled::Memory;
    }
    core.told_signal(number, given, wake);
    *left -= 1;
    Signalled::Done
}

/// One firing of a child at a tag, where it gives one integer at most: of a library actor, or of a composite whose director makes it at once. The firing isn't recorded. Where nothing is told, nothing was done.
#[inline(always)]
fn fire_signal(core: &DeCore, node: &mut Node, tag: Tag, row: &mut Vec<i64>) -> Option<Option<i64>>
    requires asked { IsSome (director_calls.asked_of (of_de core.now)) }
    requires fit { IsFit (shown_node node.old) }
    requires takes { Takes tag (shown_node node.old) (director_calls.lent_of (of_de core.now)) }
    ensures goes { SignalTo tag (shown_node node.old) (director_calls.lent_of (of_de core.now)) result (shown_node node.new) }
    ensures past { (out-Node node.new).past ≡ (out-Node node.old).past }
{
    match &mut node.body {
        Body::Actor(held) => {
            let given = held.actor.signal(tag, &core.lent(), row)?;
            node.live = false;
            Some(given)
        }
        Body::Composite(director) => {
            let given = fire_at_once(director.get_mut(), &core.lent())?;
            node.live = false;
            Some(given)
        }
    }
}

/// The whole firing of a composite on its own inputs, where its director makes it at once and gives one integer at most, as that of Modal does where no refinement has to fire. It says nothing of the tag. Where nothing is told, nothing was done.
#[inline(always)]
fn fire_at_once(director: &mut Director, inputs: &Inputs<'_>) -> Option<Option<i64>>
    requires { director_calls.IsIdle director.old }
    ensures { AtOnceTo director_calls director.old inputs.now result director.new }
{
    match director {
        Either::Other(Either::Other(Either::Other(others))) => match others {
            Either::Other(Either::First(core)) => core.signal(inputs),
            _ => None,
        },
        _ => None,
    }
}

/// Records a firing at a tag that gave one integer at most. After an `Err` the node is as before but for what was noted.
#[inline(always)]
fn record_signal(node: &mut Node, tag: Tag, given: Option<i64>) -> Result<(), AllocError>
    requires { (out-Node node.old).past.made + 1 < 2 ^ 64 }
    ensures recorded { OnOk result (shown_node node.new ≡ recorded tag (noted tag (signal_of given ∷ []) (shown_node node.old))) }
    ensures kept { OnErr result (bare (shown_node node.new) ≡ bare (shown_node node.old)) }
{
    if node.records.as_slice().is_empty() {
        node.record_alone(tag);
        return Ok(());
    }
    node.note_numbers(tag, given.as_slice())?;
    node.record(tag);
    Ok(())
}
