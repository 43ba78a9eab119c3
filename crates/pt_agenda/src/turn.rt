// What a DE top is asked next.
ghost use Rattle.std.specs.Prelude.{◌≡◌, List};
ghost use Rattle.pt_meaning.specs.Schedule as schedule;
ghost use Rattle.pt_agenda.specs.Events.{Event};
ghost use Rattle.pt_agenda.specs.Turn.{turn_of, due_of};

use crate::due::{Due, due_after, lesser};
use pt_time::Tag;

/// What a DE top is asked next.
#[derive(Clone, Copy, Debug, PartialEq, Eq)]
pub enum Turn {
    /// A firing at a tag.
    Fire(Tag),
    /// The end, since the next tag is past the stop time.
    Stop,
    /// The end, since nothing is due any more.
    Idle,
    /// Nothing, since the next tag is past the last one.
    Limit,
}

/// What a DE top is asked next: by the stop time, if there is one, the tag of the next event on any input, the top's wake,
/// and the tag of its last firing. Events at the stop time itself are handled.
#[inline(always)]
pub fn next_turn(
    stop: Option<u64>,
    event: Option<Tag>,
    wake: Option<Tag>,
    last: Option<Tag>,
) -> Turn
    ensures { (inputs : List (List Event)) → turn_of inputs result ≡ schedule.de_turn_at stop inputs (schedule.lesser event (schedule.due_after wake last)) }
{
    match lesser(event, due_after(wake, last)) {
        Due::Never => Turn::Idle,
        Due::Past => Turn::Limit,
        Due::At(tag) => until(stop, tag),
    }
}

/// A firing at a tag, or the end where the tag is past the stop time.
#[inline(always)]
fn until(stop: Option<u64>, tag: Tag) -> Turn
    ensures { (inputs : List (List Event)) → turn_of inputs result ≡ schedule.fire_until (schedule.in_time stop tag) tag (schedule.events_at tag inputs) }
{
    match stop {
        Some(stop) if tag.time > stop => Turn::Stop,
        _ => Turn::Fire(tag),
    }
}
