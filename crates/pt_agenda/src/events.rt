ghost use Rattle.std.specs.Prelude.{◌≡◌, ◌↔◌, Some, IsTrue, IfOk};
ghost use Rattle.pt_meaning.specs.Schedule as schedule;
ghost use Rattle.pt_meaning.specs.Tag as tags;
ghost use Rattle.pt_agenda.specs.Events.{Ascend, AllAscend, ArePast, events_of};

use crate::due::is_after;
use pt_firing::Tokens;
use pt_time::Tag;
use pt_value::Token;
use std::alloc::{AllocError, Global};

/// Whether each event is after the one before it.
pub fn are_ascending(events: &[(Tag, Token)]) -> bool
    ensures { IsTrue result ↔ Ascend events.now }
{
    for next in 1..events.len() {
        if !is_after(events[next].0, events[next - 1].0) {
            return false;
        }
    }
    true
}

/// The tag of the first event after the last firing, on any input, where the events of each ascend.
pub fn first_event(last: Option<Tag>, inputs: &[Vec<(Tag, Token)>]) -> Option<Tag>
    requires { AllAscend inputs.now }
    ensures { result ≡ schedule.first_event last (events_of inputs.now) }
{
    let mut first = None;
    let mut left = inputs.len();
    while left > 0 {
        left -= 1;
        first = earlier(next_event(&last, &inputs[left]), first);
    }
    first
}

/// The tokens that come to the inputs at a tag, at most one to each, where the events of each ascend.
pub fn tokens_at(
    alloc: Global,
    tag: Tag,
    inputs: &[Vec<(Tag, Token)>],
) -> Result<Vec<Tokens>, AllocError>
    requires { AllAscend inputs.now }
    ensures { IfOk result (λ lists. lists.items ≡ schedule.events_at tag (events_of inputs.now)) }
{
    let mut lists = Vec::with_capacity(alloc, inputs.len())?;
    for events in inputs {
        lists.push(token_at(alloc, tag, events)?)?;
    }
    Ok(lists)
}

/// The tag of the first event of an input after the last firing.
fn next_event(last: &Option<Tag>, events: &[(Tag, Token)]) -> Option<Tag>
    requires { Ascend events.now }
    ensures { result ≡ schedule.next_event last.now events.now }
{
    let past = past_at(last, events);
    if past < events.len() {
        Some(events[past].0)
    } else {
        None
    }
}

/// How many events of an input aren't after the last firing.
fn past_at(last: &Option<Tag>, events: &[(Tag, Token)]) -> usize
    requires { Ascend events.now }
    ensures { ArePast (schedule.is_after last.now) events.now result }
{
    match last {
        Some(last) => past(*last, events),
        None => 0,
    }
}

/// How many events of an input are at or before a tag.
fn past(tag: Tag, events: &[(Tag, Token)]) -> usize
    requires { Ascend events.now }
    ensures { ArePast (schedule.is_after (Some tag)) events.now result }
{
    events.partition_point(|event| event.0 <= tag)
}

/// The token of an input at a tag, if there is one.
fn token_at(alloc: Global, tag: Tag, events: &[(Tag, Token)]) -> Result<Tokens, AllocError>
    requires { Ascend events.now }
    ensures { IfOk result (λ tokens. tokens ≡ schedule.event_at tag events.now) }
{
    let past = past(tag, events);
    if past > 0 && is_same(events[past - 1].0, tag) {
        Ok(Tokens::one(events[past - 1].1.copy(alloc)?))
    } else {
        Ok(Tokens::new())
    }
}

/// Whether two tags are the same.
fn is_same(a: Tag, b: Tag) -> bool
    ensures { result ≡ schedule.is_tag a b }
{
    a == b
}

/// The lesser of two tags, of which each may be none.
fn earlier(a: Option<Tag>, b: Option<Tag>) -> Option<Tag>
    ensures { result ≡ tags.earlier a b }
{
    match (a, b) {
        (None, b) => b,
        (a, None) => a,
        (Some(a), Some(b)) => Some(if is_after(a, b) { b } else { a }),
    }
}
