ghost use Rattle.std.specs.Prelude.{◌≡◌, List, ℕ, Option, Some, OnOk, OnErr, map};
ghost use Rattle.pt_meaning.specs.Basics as basics;
ghost use Rattle.pt_meaning.specs.NodeFacts.{early_of};
ghost use Rattle.pt_value.specs.declared.token.Token.{Token};
ghost use Rattle.pt_library.specs.LibraryActor.{rows};
ghost use Rattle.pt_directors.specs.Directors as directors;
ghost use Rattle.pt_directors.specs.Directors.{director_calls};
ghost use Rattle.pt_node.specs.Acts.{acts};
ghost use Rattle.pt_node.specs.Shown.{Shown, shown, shown_node};
ghost use Rattle.pt_node.specs.View.{node_of};
ghost use Rattle.pt_records.specs.Kept.{Made};
ghost use Rattle.pt_turns.specs.Between.{At, IsUnderWayWith, IsAskedUnderWay, Rested, IsRestedUnderWay};
ghost use Rattle.pt_turns.specs.OwnMeetings.{own_of};
ghost use Rattle.pt_pause.specs.Paused.{Paused, Heeded};

use pt_core::Core;
use pt_directors::Director;
use pt_firing::{Ask, RunFault};
use pt_node::Node;
use pt_past::MeetingRecord;
use pt_time::Tag;
use pt_turns::Rest;
use std::alloc::{AllocError, Global};

/// What a composite comes to next.
#[derive(Clone, Copy, Debug)]
pub enum Pause {
    /// It is the turn of this child at the tag, whose firing gave this number already, of which the director isn't told yet, or isn't made.
    Turn(u32, Tag, Option<i64>),
    /// The children have fired enough.
    Finished,
    /// The composite itself is stuck.
    Faulted(RunFault),
    Spent,
    /// The composite's own network is full.
    Full,
    Memory,
}

/// Goes on from a row of firings to the next turn of a child that isn't a matter of numbers alone, or to the end. Meetings are recorded on the way, as those of the firing of the composite of that number.
#[inline(always)]
pub fn settle(
    alloc: Global,
    director: &mut Director,
    children: &mut Vec<Node>,
    made: u64,
    meetings: &mut MeetingRecord,
    rest: Rest,
    left: u64,
) -> Pause
    requires { (tag : basics.Tag) × IsRestedUnderWay tag made meetings.old rest director.old (map shown children.old.items) left }
    ensures { (before : directors.Director) (olds : List Shown) (tag : basics.Tag) (X : basics.Streams Token) (allowance : ℕ) (start : Option Made) → Rested before olds tag X allowance (own_of made start meetings.old) rest director.old (map shown children.old.items) left → Paused before olds tag X allowance (own_of made start meetings.new) result director.new (map shown children.new.items) left }
{
    match rest {
        Rest::Turn(number, when, given) => Pause::Turn(number, when, given),
        Rest::Asked(asked) => match heed(alloc, director, children, made, meetings, asked, left) {
            Some(pause) => pause,
            None => wait(alloc, director, children, made, meetings, left),
        },
        Rest::Memory => Pause::Memory,
        Rest::Spent => Pause::Spent,
    }
}

/// Asks the director until it asks for a firing or is at an end, and does what it asks for before.
#[inline(never)]
fn wait(
    alloc: Global,
    director: &mut Director,
    children: &mut Vec<Node>,
    made: u64,
    meetings: &mut MeetingRecord,
    left: u64,
) -> Pause
    requires { (tag : basics.Tag) × IsUnderWayWith acts tag made meetings.old director.old (map shown children.old.items) left }
    ensures { (before : directors.Director) (olds : List Shown) (tag : basics.Tag) (X : basics.Streams Token) (allowance : ℕ) (start : Option Made) → At acts before olds tag X allowance (own_of made start meetings.old) director.old (map shown children.old.items) left → Paused before olds tag X allowance (own_of made start meetings.new) result director.new (map shown children.new.items) left }
{
    loop {
        let asked = director.ask();
        if let Some(pause) = heed(alloc, director, children, made, meetings, asked, left) {
            return pause;
        }
    }
}

/// Does what the director asked for, where that is an early answer of a child or that it is brought back to its start, and tells what it comes to otherwise. A move is made already, and a meeting is recorded.
#[inline(always)]
fn heed(
    alloc: Global,
    director: &mut Director,
    children: &mut Vec<Node>,
    made: u64,
    meetings: &mut MeetingRecord,
    next: Ask,
    left: u64,
) -> Option<Pause>
    requires { (tag : basics.Tag) × IsAskedUnderWay acts tag made meetings.old next director.old (map shown children.old.items) left }
    ensures { (before : directors.Director) (olds : List Shown) (tag : basics.Tag) (X : basics.Streams Token) (allowance : ℕ) (start : Option Made) (state : directors.Director) → At acts before olds tag X allowance (own_of made start meetings.old) state (map shown children.old.items) left → director_calls.Gives state next → director.old ≡ director_calls.asking next state → Heeded before olds tag X allowance (own_of made start meetings.new) state result director.new (map shown children.new.items) left }
{
    match next {
        Ask::Fire(number, when) => {
            if left == 0 {
                return Some(Pause::Spent);
            }
            Some(Pause::Turn(number, when, None))
        }
        Ask::Early(number, when) => {
            let child = &children[number as usize];
            if listen(alloc, director, child, number, when).is_err() {
                return Some(Pause::Memory);
            }
            None
        }
        Ask::Reset(number) => {
            let child = &mut children[number as usize];
            if child.reset(alloc).is_err() {
                return Some(Pause::Memory);
            }
            None
        }
        Ask::Get(_) | Ask::Put(_) | Ask::Grow => None,
        Ask::Meet(meeting) => {
            if meetings.note(made, meeting).is_err() {
                return Some(Pause::Memory);
            }
            None
        }
        Ask::Finished => Some(Pause::Finished),
        Ask::Faulted(kind, _) => Some(Pause::Faulted(kind)),
        Ask::Full => Some(Pause::Full),
        Ask::Await => unreachable!(),
    }
}

/// Tells the director what the child gives early at the tag, by what is known of its inputs.
fn listen(
    alloc: Global,
    director: &mut Director,
    child: &Node,
    number: u32,
    when: Tag,
) -> Result<(), AllocError>
    requires { director_calls.listened_of director.old ≡ Some number }
    ensures heard { OnOk result (director.new ≡ director_calls.heard number (early_of rows when (node_of (shown_node child.now)) (director_calls.partial_of director.old)) director.old) }
    ensures kept { OnErr result (director.new ≡ director.old) }
{
    let partial = director.partial(alloc)?;
    let early = child.early(alloc, when, &partial)?;
    director.hears(alloc, number, &early)
}
