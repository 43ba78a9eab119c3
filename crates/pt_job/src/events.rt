// The events that come to an input of a timed net.
ghost use Rattle.std.specs.Prelude.{◌≡◌, ◌<◌, ◌^◌, None, length, map, IfOk, true};
ghost use Rattle.std.specs.List.{Contains};
ghost use Rattle.pt_meaning.specs.Schedule as schedule;
ghost use Rattle.pt_agenda.specs.Events.{Ascend, tags_in, tokens_in};
ghost use Rattle.pt_job.specs.Inputs as inputs;

use pt_document::Event;
use pt_time::Tag;
use pt_value::Token;
use std::alloc::{AllocError, Global};

/// The last time that an event may have, and the last microstep.
const LAST_TIME: u64 = 1 << 62;

const LAST_STEP: u64 = 1 << 31;

/// The tag of an event.
fn tag_of(event: &Event) -> Tag
    requires { event.now.step < 2 ^ 32 }
    ensures { result ≡ inputs.tag_of event.now }
{
    Tag {
        time: event.time,
        step: event.step as u32,
    }
}

/// Whether a tag is after the last one.
fn is_after(last: &Option<Tag>, tag: Tag) -> bool
    ensures { result ≡ schedule.is_after last.now tag }
{
    match last {
        Some(last) => tag > *last,
        None => true,
    }
}

/// Whether an event is within the limits and after the last tag.
fn comes_after(last: &Option<Tag>, event: &Event) -> bool
    ensures { result ≡ inputs.comes_after last.now event.now }
{
    event.time <= LAST_TIME && (event.step <= LAST_STEP && is_after(last, tag_of(event)))
}

/// Whether no event is past the limits of time and microsteps, and each is after the one before it.
pub fn are_in_order(events: &[Event]) -> bool
    ensures { result ≡ inputs.are_in_order events.now }
{
    let mut last = None;
    for event in events {
        if !comes_after(&last, event) {
            return false;
        }
        last = Some(tag_of(event));
    }
    true
}

/// The tokens of events, each at its tag.
pub fn at_tags(
    alloc: Global,
    events: &[Event],
    tokens: &[Option<Token>],
) -> Result<Vec<(Tag, Token)>, AllocError>
    requires order { inputs.are_in_order events.now ≡ true }
    requires each { length tokens.now ≡ length events.now }
    requires present { Contains tokens.now None → ⊥ }
    ensures tags { IfOk result (λ list. tags_in list.items ≡ map inputs.tag_of events.now) }
    ensures tokens { IfOk result (λ list. tokens_in list.items ≡ tokens.now) }
    ensures ascend { IfOk result (λ list. Ascend list.items) }
{
    let mut list = Vec::with_capacity(alloc, tokens.len())?;
    for (number, token) in tokens.iter().enumerate() {
        if let Some(token) = token {
            list.push((tag_of(&events[number]), token.copy(alloc)?))?;
        }
    }
    Ok(list)
}
