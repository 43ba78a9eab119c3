// Firings under Rendezvous of which each gives one integer, and the meetings between them.
ghost use Rattle.std.specs.Prelude.{◌≤◌, List, ℕ, Option, MatchOption, map};
ghost use Rattle.pt_meaning.specs.Basics as basics;
ghost use Rattle.pt_value.specs.declared.token.Token.{Token};
ghost use Rattle.pt_records.specs.Kept.{Made};
ghost use Rattle.pt_directors.specs.Directors as directors;
ghost use Rattle.pt_directors.specs.Directors.{of_rendezvous};
ghost use Rattle.pt_node.specs.Acts.{acts};
ghost use Rattle.pt_node.specs.Shown.{Shown, shown};
ghost use Rattle.pt_turns.specs.Between.{At, Between, Halts, IsUnderWayWith, Rested};
ghost use Rattle.pt_turns.specs.OwnMeetings.{own_of};

use crate::numbers::{Quick, turn_with_records};
use pt_firing::Ask;
use pt_node::Node;
use pt_number_cores::NumberCore;
use pt_past::MeetingRecord;
use pt_rv::Core;
use pt_turns::Rest;
use std::alloc::Global;

/// Makes one firing of a child after another, as the core asks for them, as long as each takes integers and gives one. The meetings between them are recorded as those of the firing of the composite of that number.
/// Where nothing is left of the allowance the core isn't asked, since it would make a meeting.
#[inline(never)]
pub fn fire_meetings(
    alloc: Global,
    core: &mut Core,
    children: &mut Vec<Node>,
    made: u64,
    meetings: &mut MeetingRecord,
    left: &mut u64,
    row: &mut Vec<i64>,
) -> Rest
    requires { (tag : basics.Tag) × IsUnderWayWith acts tag made meetings.old (of_rendezvous core.old) (map shown children.old.items) left.old }
    ensures lowered { left.new ≤ left.old }
    ensures goes { (before : directors.Director) (olds : List Shown) (tag : basics.Tag) (X : basics.Streams Token) (allowance : ℕ) (start : Option Made) → At acts before olds tag X allowance (own_of made start meetings.old) (of_rendezvous core.old) (map shown children.old.items) left.old → Rested before olds tag X allowance (own_of made start meetings.new) result (of_rendezvous core.new) (map shown children.new.items) left.new }
{
    loop {
        if *left == 0 {
            return Rest::Spent;
        }
        let next = match after_meetings(core, made, meetings) {
            Some(next) => next,
            None => return Rest::Memory,
        };
        match next {
            Ask::Fire(number, when) => {
                let child = &mut children[number as usize];
                if let Quick::Open(given) = turn_with_records(
                    alloc, core, child, number, when, left, row,
                ) {
                    return Rest::Turn(number, when, given);
                }
            }
            next => return Rest::Asked(next),
        }
    }
}

/// What the core asks for that isn't a meeting. A meeting is made already: it is recorded, and the core is asked again. `None` says that memory was wanting for that.
#[inline(always)]
fn after_meetings(core: &mut Core, made: u64, meetings: &mut MeetingRecord) -> Option<Ask>
    requires { (now : List Shown) × ((left : ℕ) × ((tag : basics.Tag) × IsUnderWayWith acts tag made meetings.old (of_rendezvous core.old) now left)) }
    ensures { (before : directors.Director) (olds : List Shown) (tag : basics.Tag) (X : basics.Streams Token) (allowance : ℕ) (start : Option Made) (now : List Shown) (left : ℕ) → At acts before olds tag X allowance (own_of made start meetings.old) (of_rendezvous core.old) now left → MatchOption result (Halts acts before olds tag X allowance (own_of made start meetings.new) (of_rendezvous core.new) now left) (λ next. Between acts before olds tag X allowance (own_of made start meetings.new) next (of_rendezvous core.new) now left) }
{
    loop {
        match NumberCore::ask(core) {
            Ask::Meet(meeting) => {
                if meetings.note(made, meeting).is_err() {
                    return None;
                }
            }
            next => return Some(next),
        }
    }
}
