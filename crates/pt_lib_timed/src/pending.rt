ghost use Rattle.std.specs.Prelude.{◌≡◌, ◌≤◌, [], ◌∷◌, ◌++◌, length, take, drop, is_ok, is_some, IfOk, IfNone, IfSome, OnOk, OnErr, Some, option_to_list, vec_capacity, if◌then◌else◌};
ghost use Rattle.std.specs.VecDeque.{deque_len, deque_capacity};
ghost use Rattle.pt_meaning.specs.Basics as basics;
ghost use Rattle.pt_meaning.specs.Tag.{tag_le, earlier};
ghost use Rattle.pt_value.specs.declared.token.Token.TheVariants.{Int};
ghost use Rattle.pt_lib_timed.specs.Pending.{due, left, wake, last_tag};
ghost use Rattle.pt_lib_timed.specs.PendingStore.{IsMarked, IsAscending, is_behind, is_front_due};
ghost use Rattle.pt_lib_timed.specs.Signal.{signal_of};

use crate::signal::number_of;
use pt_firing::Tokens;
use pt_time::Tag;
use pt_value::Token;
use std::alloc::{AllocError, Global};
use std::collections::VecDeque;
use std::marker::Model;

/// A token with the tag at which it is due.
type Event = (Tag, Token);

/// The tokens that an actor holds back, in the order in which they came, each with the tag at which it is due. Contracts see
/// this list.
///
/// Mostly their tags ascend, and then what is due stands in front: it is found and taken in constant time for each token. Where
/// they don't, as after a return to an earlier microstep, the whole list is gone through until they do again.
#[derive(Drop)]
pub struct Pending {
    events: VecDeque<Event>,
    // Whether the tags are known to ascend.
    ascending: bool,
}

impl Model for Pending {
    ghost use Rattle.std.specs.Prelude.{List};
    ghost use Rattle.std.specs.Coded.{coded_list};
    ghost use Rattle.pt_lib_timed.specs.Pending.{Event};
    ghost use Rattle.pt_lib_timed.specs.PendingStore.{coded_event, IsMarked};

    ghost Value = { List Event };

    ghost coded = { coded_list coded_event };

    ghost view = { λ p. p.events.items };

    ghost invariant = { λ p. IsMarked p.ascending p.events.items };
}

impl Pending {
    /// Nothing is pending. It takes no memory.
    pub fn new(alloc: Global) -> Pending
        ensures { result ≡ [] }
    {
        Pending {
            events: VecDeque::new(alloc),
            ascending: true,
        }
    }

    pub fn len(&self) -> usize
        ensures { result ≡ length self.now }
    {
        self.events.len()
    }

    /// Puts a token behind the others. After an `Err` the list is as before.
    #[inline(always)]
    pub fn put(&mut self, tag: Tag, token: Token) -> Result<(), AllocError>
        ensures { self.new ≡ (if is_ok result then self.old ++ (tag, token) ∷ [] else self.old) }
    {
        let ascending = self.ascending && follows(&self.events, tag);
        self.events.reserve(1)?;
        self.events.push_back_reserved((tag, token));
        self.ascending = ascending;
        Ok(())
    }

    /// Lets go of all but the first `n`.
    pub fn cut(&mut self, n: usize)
        ensures { self.new ≡ take n self.old }
    {
        self.events.truncate(n);
    }

    /// The tag of the last one.
    pub fn last(&self) -> Option<Tag>
        ensures { result ≡ last_tag self.now }
    {
        last_of(&self.events)
    }

    /// The least tag that is pending.
    pub fn wake(&self) -> Option<Tag>
        ensures { result ≡ wake self.now }
    {
        if self.ascending {
            first_of(&self.events)
        } else {
            least_of(&self.events)
        }
    }

    /// A copy of the tokens that are due at a tag, in order.
    pub fn due(&self, alloc: Global, tag: Tag) -> Result<Tokens, AllocError>
        ensures { IfOk result (λ tokens. tokens ≡ due tag self.now) }
    {
        copies_due(alloc, &self.events, self.ascending, tag)
    }

    /// Takes the tokens that are due at a tag, in order. After an `Err` the list is as before.
    pub fn take_due(&mut self, alloc: Global, tag: Tag) -> Result<Tokens, AllocError>
        ensures left { OnOk result (self.new ≡ left tag self.old) }
        ensures tokens { IfOk result (λ tokens. tokens ≡ due tag self.old) }
        ensures kept { OnErr result (self.new ≡ self.old) }
    {
        let count = due_count(&self.events, self.ascending, tag);
        if count == 0 {
            return Ok(Tokens::new());
        }
        if !self.ascending {
            let mut kept = VecDeque::with_capacity(alloc, self.events.len())?;
            let mut given = Vec::with_capacity(alloc, self.events.len())?;
            sift(&mut self.events, tag, &mut kept, &mut given);
            self.ascending = kept.is_empty();
            self.events = kept;
            return Ok(Tokens::of(given));
        }
        if count == 1 {
            return Ok(take_one(&mut self.events, tag));
        }
        let mut given = Vec::with_capacity(alloc, count)?;
        take_front(&mut self.events, tag, &mut given);
        Ok(Tokens::of(given))
    }

    /// The integer that is due at a tag, none where nothing is. It is the first then. Nothing is told of several tokens, or of others.
    #[inline(always)]
    pub fn due_number(&self, tag: Tag) -> Option<Option<i64>>
        ensures due { IfSome result (λ number. due tag self.now ≡ signal_of number) }
        ensures left { IfSome result (λ number. left tag self.now ≡ (if is_some number then drop 1 self.now else self.now)) }
    {
        if !self.ascending {
            return None;
        }
        number_due(&self.events, tag)
    }

    /// Lets go of the first, if there is one.
    #[inline(always)]
    pub fn drop_first(&mut self)
        ensures { self.new ≡ drop 1 self.old }
    {
        self.events.pop_front();
    }

    /// The same list.
    pub fn copy(&self, alloc: Global) -> Result<Pending, AllocError>
        ensures { IfOk result (λ copy. copy ≡ self.now) }
    {
        let mut events = VecDeque::with_capacity(alloc, self.events.capacity())?;
        for k in 0..self.events.len() {
            let event = &self.events[k];
            let copy = (event.0, event.1.copy(alloc)?);
            events.push_back_reserved(copy);
        }
        Ok(Pending {
            events,
            ascending: self.ascending,
        })
    }
}

/// The tag of the last one.
fn last_of(events: &VecDeque<Event>) -> Option<Tag>
    ensures { result ≡ last_tag events.now.items }
{
    match events.back() {
        Some(event) => Some(event.0),
        None => None,
    }
}

/// Whether the last one is at or before a tag.
fn follows(events: &VecDeque<Event>, tag: Tag) -> bool
    ensures { result ≡ is_behind tag (last_tag events.now.items) }
{
    match last_of(events) {
        Some(last) => last <= tag,
        None => true,
    }
}

/// The least tag where the tags ascend: that of the first.
fn first_of(events: &VecDeque<Event>) -> Option<Tag>
    requires { IsAscending events.now.items }
    ensures { result ≡ wake events.now.items }
{
    match events.front() {
        Some(event) => Some(event.0),
        None => None,
    }
}

/// The least tag.
fn least_of(events: &VecDeque<Event>) -> Option<Tag>
    ensures { result ≡ wake events.now.items }
{
    let mut least = None;
    let mut k = events.len();
    while k > 0 {
        k -= 1;
        least = Some(lesser(events[k].0, least));
    }
    least
}

/// The lesser of a tag and another, if there is one.
fn lesser(tag: Tag, other: Option<Tag>) -> Tag
    ensures { Some result ≡ earlier (Some tag) other }
{
    match other {
        Some(other) if !is_up_to(tag, other) => other,
        _ => tag,
    }
}

/// Whether a tag is at or before another.
fn is_up_to(a: Tag, b: Tag) -> bool
    ensures { result ≡ tag_le a b }
{
    a <= b
}

/// How many are due at a tag. Where the tags ascend, what is behind one that isn't due isn't looked at.
fn due_count(events: &VecDeque<Event>, ascending: bool, tag: Tag) -> usize
    requires { IsMarked ascending events.now.items }
    ensures { result ≡ length (due tag events.now.items) }
{
    let mut count = 0usize;
    for k in 0..events.len() {
        if is_up_to(events[k].0, tag) {
            count += 1;
        } else if ascending {
            return count;
        }
    }
    count
}

/// Copies of the tokens that are due at a tag.
fn copies_due(
    alloc: Global,
    events: &VecDeque<Event>,
    ascending: bool,
    tag: Tag,
) -> Result<Tokens, AllocError>
    requires { IsMarked ascending events.now.items }
    ensures { IfOk result (λ tokens. tokens ≡ due tag events.now.items) }
{
    let mut copies = Tokens::new();
    for k in 0..events.len() {
        let event = &events[k];
        if is_up_to(event.0, tag) {
            let copy = event.1.copy(alloc)?;
            copies.push(alloc, copy)?;
        } else if ascending {
            return Ok(copies);
        }
    }
    Ok(copies)
}

/// Whether there is a first one, and it is due at a tag.
fn is_front_due(events: &VecDeque<Event>, tag: Tag) -> bool
    ensures { result ≡ is_front_due tag events.now.items }
{
    match events.front() {
        Some(event) => is_up_to(event.0, tag),
        None => false,
    }
}

/// Whether there is a second one, and it is due at a tag.
fn is_second_due(events: &VecDeque<Event>, tag: Tag) -> bool
    ensures { result ≡ is_front_due tag (drop 1 events.now.items) }
{
    match events.get(1) {
        Some(second) => is_up_to(second.0, tag),
        None => false,
    }
}

/// The token of the first one, where it is an integer.
fn first_number(events: &VecDeque<Event>) -> Option<i64>
    ensures { IfSome result (λ number. (due : basics.Tag) × (events.now.items ≡ (due, Int number) ∷ drop 1 events.now.items)) }
{
    match events.front() {
        Some(event) => number_of(&event.1),
        None => None,
    }
}

/// The integer that is due at a tag, where the tags ascend: the first, where the second isn't due.
fn number_due(events: &VecDeque<Event>, tag: Tag) -> Option<Option<i64>>
    requires { IsAscending events.now.items }
    ensures due { IfSome result (λ number. due tag events.now.items ≡ signal_of number) }
    ensures left { IfSome result (λ number. left tag events.now.items ≡ (if is_some number then drop 1 events.now.items else events.now.items)) }
{
    if !is_front_due(events, tag) {
        return Some(None);
    }
    if is_second_due(events, tag) {
        return None;
    }
    let number = first_number(events)?;
    Some(Some(number))
}

/// Takes the first where it is due at a tag, out of some whose tags ascend.
fn pop_due(events: &mut VecDeque<Event>, tag: Tag) -> Option<Token>
    requires { IsAscending events.old.items }
    ensures ascending { IsAscending events.new.items }
    ensures due { due tag events.old.items ≡ option_to_list result ++ due tag events.new.items }
    ensures left { left tag events.new.items ≡ left tag events.old.items }
    ensures none { IfNone result ((due tag events.new.items ≡ []) × (left tag events.new.items ≡ events.new.items)) }
{
    if !is_front_due(events, tag) {
        return None;
    }
    match events.pop_front() {
        Some(event) => Some(event.1),
        None => None,
    }
}

/// Takes the only one that is due.
fn take_one(events: &mut VecDeque<Event>, tag: Tag) -> Tokens
    requires ascending { IsAscending events.old.items }
    requires one { length (due tag events.old.items) ≡ 1 }
    ensures tokens { result ≡ due tag events.old.items }
    ensures left { events.new.items ≡ left tag events.old.items }
    ensures ascending { IsAscending events.new.items }
{
    match pop_due(events, tag) {
        Some(token) => Tokens::one(token),
        None => Tokens::new(),
    }
}

/// Takes all that are due, which stand in front, into room that was made.
fn take_front(events: &mut VecDeque<Event>, tag: Tag, given: &mut Vec<Token>)
    requires ascending { IsAscending events.old.items }
    requires empty { given.old.items ≡ [] }
    requires room { length (due tag events.old.items) ≤ vec_capacity given.old }
    ensures tokens { given.new.items ≡ due tag events.old.items }
    ensures left { events.new.items ≡ left tag events.old.items }
    ensures ascending { IsAscending events.new.items }
{
    while let Some(token) = pop_due(events, tag) {
        given.push_reserved(token);
    }
}

/// Takes all, those that are due into the one room that was made, and the others into the other.
fn sift(events: &mut VecDeque<Event>, tag: Tag, kept: &mut VecDeque<Event>, given: &mut Vec<Token>)
    requires empty { (kept.old.items ≡ []) × (given.old.items ≡ []) }
    requires room { deque_len events.old ≤ deque_capacity kept.old }
    requires given { deque_len events.old ≤ vec_capacity given.old }
    ensures tokens { given.new.items ≡ due tag events.old.items }
    ensures left { kept.new.items ≡ left tag events.old.items }
{
    while let Some(event) = events.pop_front() {
        if is_up_to(event.0, tag) {
            given.push_reserved(event.1);
        } else {
            kept.push_back_reserved(event);
        }
    }
}
