ghost use Rattle.std.specs.Prelude.{◌≤◌, List, ℕ, Option, map};
ghost use Rattle.pt_meaning.specs.Basics as basics;
ghost use Rattle.pt_value.specs.declared.token.Token.{Token};
ghost use Rattle.pt_directors.specs.Directors as directors;
ghost use Rattle.pt_directors.specs.Directors.{director_calls};
ghost use Rattle.pt_node.specs.Acts.{acts};
ghost use Rattle.pt_node.specs.Live.{AllFit, IsReady, TakenBy};
ghost use Rattle.pt_past.specs.Meetings.{Serves};
ghost use Rattle.pt_node.specs.Shown.{Shown, all_of, shown};
ghost use Rattle.pt_records.specs.Kept.{Made};
ghost use Rattle.pt_turns.specs.Between.{At, IsUnderWay, IsUnderWayWith, Rested};
ghost use Rattle.pt_turns.specs.OwnMeetings.{OwnMeetings, own_of};

use crate::stretches::fire_stretches;
use pt_core::{Core, Either};
use pt_directors::Director;
use pt_event_rows::{fire_events, first_reaction};
use pt_firing::Inputs;
use pt_node::Node;
use pt_number_rows::{fire_meetings, fire_numbers};
use pt_past::MeetingRecord;
use pt_time::Tag;
use pt_turns::Rest;
use std::alloc::Global;

/// Begins the firing of a composite at a tag on its own inputs, and makes its first row of firings.
#[inline(always)]
pub fn first_row(
    alloc: Global,
    director: &mut Director,
    children: &mut Vec<Node>,
    made: u64,
    meetings: &mut MeetingRecord,
    tag: Tag,
    inputs: &Inputs<'_>,
    left: &mut u64,
    row: &mut Vec<i64>,
) -> Rest
    requires ready { IsReady director.old (all_of (map shown children.old.items)) }
    requires fit { AllFit (all_of (map shown children.old.items)) }
    requires inputs { TakenBy director.old inputs.now }
    requires serves { Serves (director_calls.met director.old) made meetings.old }
    ensures { Rested director.old (map shown children.old.items) tag inputs.now left.old (own_of made meetings.old meetings.new) result director.new (map shown children.new.items) left.new }
{
    match director {
        // A reaction is often a row of one or two firings, so that what it takes to begin one counts.
        Either::Other(Either::Other(Either::First(core))) => {
            first_reaction(alloc, core, children, tag, inputs, left, row)
        }
        _ => begin_row(
            alloc, director, children, made, meetings, tag, inputs, left, row,
        ),
    }
}

/// The same, whichever the director.
#[inline(always)]
fn begin_row(
    alloc: Global,
    director: &mut Director,
    children: &mut Vec<Node>,
    made: u64,
    meetings: &mut MeetingRecord,
    tag: Tag,
    inputs: &Inputs<'_>,
    left: &mut u64,
    row: &mut Vec<i64>,
) -> Rest
    requires ready { IsReady director.old (all_of (map shown children.old.items)) }
    requires fit { AllFit (all_of (map shown children.old.items)) }
    requires inputs { TakenBy director.old inputs.now }
    requires serves { Serves (director_calls.met director.old) made meetings.old }
    ensures { Rested director.old (map shown children.old.items) tag inputs.now left.old (own_of made meetings.old meetings.new) result director.new (map shown children.new.items) left.new }
{
    if director.begin(alloc, tag, inputs).is_err() {
        return Rest::Memory;
    }
    fire_row(alloc, director, children, made, meetings, left, row)
}

/// Makes firings of numbers alone, by the core of the director, or of one integer at most under DE. Under Rendezvous the meetings between them are recorded, as those of the firing of the composite of that number. A director of Modal is only asked what comes next.
#[inline(always)]
pub fn fire_row(
    alloc: Global,
    director: &mut Director,
    children: &mut Vec<Node>,
    made: u64,
    meetings: &mut MeetingRecord,
    left: &mut u64,
    row: &mut Vec<i64>,
) -> Rest
    requires { (tag : basics.Tag) × IsUnderWayWith acts tag made meetings.old director.old (map shown children.old.items) left.old }
    ensures lowered { left.new ≤ left.old }
    ensures goes { (before : directors.Director) (olds : List Shown) (tag : basics.Tag) (X : basics.Streams Token) (allowance : ℕ) (start : Option Made) → At acts before olds tag X allowance (own_of made start meetings.old) director.old (map shown children.old.items) left.old → Rested before olds tag X allowance (own_of made start meetings.new) result director.new (map shown children.new.items) left.new }
{
    match director {
        Either::First(core) => fire_stretches(alloc, core, children, left, row),
        Either::Other(Either::First(core)) => fire_numbers(alloc, core, children, left, row),
        Either::Other(Either::Other(Either::First(core))) => {
            fire_events(core, children, left, row)
        }
        Either::Other(Either::Other(Either::Other(Either::First(core)))) => {
            fire_numbers(alloc, core, children, left, row)
        }
        // It fires one child at most in a reaction.
        Either::Other(Either::Other(Either::Other(Either::Other(Either::First(_))))) => {
            ask_next(director, children, *left)
        }
        Either::Other(Either::Other(Either::Other(Either::Other(Either::Other(core))))) => {
            fire_meetings(alloc, core, children, made, meetings, left, row)
        }
    }
}

/// Asks the director what comes next, and makes no firing. Where nothing is left of the allowance it isn't asked, so that it makes no more moves.
#[inline(never)]
fn ask_next(director: &mut Director, children: &Vec<Node>, left: u64) -> Rest
    requires { (tag : basics.Tag) × IsUnderWay acts tag director.old (map shown children.now.items) left }
    ensures { (before : directors.Director) (olds : List Shown) (tag : basics.Tag) (X : basics.Streams Token) (allowance : ℕ) (own : OwnMeetings) → At acts before olds tag X allowance own director.old (map shown children.now.items) left → Rested before olds tag X allowance own result director.new (map shown children.now.items) left }
{
    if left == 0 {
        return Rest::Spent;
    }
    let asked = director.ask();
    Rest::Asked(asked)
}
