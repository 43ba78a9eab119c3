ghost use Rattle.std.specs.Prelude.{◌≡◌, ◌↔◌, ◌≤◌, ◌^◌, IsTrue, IsSome, IsNone, IfSome, if◌then◌else◌};
ghost use Rattle.pt_time.specs.Within.{IsWithin, tag_after, tag_outside};
ghost use Rattle.pt_meaning.specs.Tag.{one_later};
ghost use Rattle.pt_meaning.specs.Schedule.{due_or_past, due_after};
ghost use Rattle.pt_meaning.specs.Tick.{tag_le};
ghost use Rattle.pt_meaning.specs.Modal as modal;

use std::marker::Model;

/// The last tick that a tag may have.
const LAST_TIME: u64 = 1 << 62;

/// The last microstep that a tag may have.
const LAST_STEP: u32 = 1 << 31;

/// A moment of superdense time: whole ticks, and the microstep at that tick. Tags are ordered by ticks, then microsteps.
#[derive(Clone, Copy, PartialEq, Eq, PartialOrd, Ord, Hash, Debug)]
pub struct Tag {
    pub time: u64,
    pub step: u32,
}

impl Model for Tag {
    ghost use Rattle.pt_meaning.specs.Basics as basics;

    ghost Value = { basics.Tag };

    ghost view = { λ t. record { time = t.time; step = t.step } };

    ghost inverse = { λ t. record { time = t.time; step = t.step } };
}

/// The tag `delay` ticks later at microstep 0, or the next microstep where there is no delay. `None` is past the last tick or microstep.
pub fn after(tag: Tag, delay: u64) -> Option<Tag>
    ensures fits { IsSome result ↔ IsWithin (tag_after tag delay) }
    ensures value { IfSome result (λ later. later ≡ tag_after tag delay) }
    ensures meaning { tag.time ≤ 2 ^ 62 → delay ≡ 0 → result ≡ one_later tag }
{
    let later = if delay == 0 {
        Tag {
            time: tag.time,
            step: tag.step.checked_add(1)?,
        }
    } else {
        Tag {
            time: tag.time.checked_add(delay)?,
            step: 0,
        }
    };
    within(later)
}

/// The tag within a refinement that lags by so many ticks.
pub fn local(tag: Tag, lag: u64) -> Tag
    requires { lag ≤ tag.time }
    ensures { result ≡ modal.local tag lag }
{
    Tag {
        time: tag.time - lag,
        step: tag.step,
    }
}

/// The tag outside a refinement that lags by so many ticks. `None` is past the last tick or microstep.
pub fn outer(tag: Tag, lag: u64) -> Option<Tag>
    ensures fits { IsSome result ↔ IsWithin (tag_outside tag lag) }
    ensures value { IfSome result (λ outside. outside ≡ tag_outside tag lag) }
    ensures meaning { tag.step ≤ 2 ^ 31 → result ≡ modal.outer tag lag }
{
    within(Tag {
        time: tag.time.checked_add(lag)?,
        step: tag.step,
    })
}

/// The greater of `next` and the tag one microstep after `last`. `None` is where `next` isn't after `last`, and nothing is.
pub fn clamp(next: Tag, last: Tag) -> Option<Tag>
    ensures fits { IsNone result ↔ (IsTrue (tag_le next last) × ¬ IsWithin (tag_after last 0)) }
    ensures value { IfSome result (λ tag. tag ≡ (if tag_le next last then tag_after last 0 else next)) }
    ensures greatest { IfSome result (λ tag. IsTrue (tag_le next tag) × IsTrue (tag_le (tag_after last 0) tag)) }
    ensures meaning { last.time ≤ 2 ^ 62 → due_or_past result ≡ due_after (Some next) (Some last) }
{
    if next > last {
        Some(next)
    } else {
        after(last, 0)
    }
}

fn within(tag: Tag) -> Option<Tag>
    ensures fits { IsSome result ↔ IsWithin tag }
    ensures value { IfSome result (λ same. same ≡ tag) }
{
    (tag.time <= LAST_TIME && tag.step <= LAST_STEP).then_some(tag)
}
