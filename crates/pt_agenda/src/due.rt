// When a top is due, by its wake and the next event.
ghost use Rattle.std.specs.Prelude.{◌≡◌, not};
ghost use Rattle.pt_meaning.specs.Schedule as schedule;
ghost use Rattle.pt_meaning.specs.Tag as tags;
ghost use Rattle.pt_agenda.specs.Turn.{due_of};

use pt_time::{Tag, after};

/// When a top is due.
#[derive(Clone, Copy, Debug, PartialEq, Eq)]
pub(crate) enum Due {
    Never,
    At(Tag),
    /// At a tag that is past the last one.
    Past,
}

/// When its wake is due: at its tag, but not before the microstep after the last firing.
#[inline(always)]
pub(crate) fn due_after(wake: Option<Tag>, last: Option<Tag>) -> Due
    ensures { due_of result ≡ schedule.due_after wake last }
{
    match (wake, last) {
        (None, _) => Due::Never,
        (Some(wake), None) => Due::At(wake),
        (Some(wake), Some(last)) => {
            if is_after(wake, last) {
                Due::At(wake)
            } else {
                one_later(last)
            }
        }
    }
}

/// The lesser of the tag of an event, where there is one, and of that at which a wake is due. Past the last tag there is none.
#[inline(always)]
pub(crate) fn lesser(event: Option<Tag>, due: Due) -> Due
    ensures { due_of result ≡ schedule.lesser event (due_of due) }
{
    match (event, due) {
        (None, due) => due,
        (Some(event), Due::Never) => Due::At(event),
        (Some(_), Due::Past) => Due::Past,
        (Some(event), Due::At(wake)) => {
            if is_after(event, wake) {
                Due::At(wake)
            } else {
                Due::At(event)
            }
        }
    }
}

/// The microstep after a tag.
#[inline(always)]
fn one_later(tag: Tag) -> Due
    ensures { due_of result ≡ schedule.due_or_past (tags.one_later tag) }
{
    match after(tag, 0) {
        Some(later) => Due::At(later),
        None => Due::Past,
    }
}

/// Whether a tag is after another.
#[inline(always)]
pub(crate) fn is_after(a: Tag, b: Tag) -> bool
    ensures { result ≡ not (tags.tag_le a b) }
{
    a > b
}
