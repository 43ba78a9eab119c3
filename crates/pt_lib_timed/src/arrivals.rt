// Tokens that arrive at an actor that holds them back.
ghost use Rattle.std.specs.Prelude.{◌≡◌, ◌++◌, [], ◌∷◌, IfOk, IfErr, OnOk, OnErr, Some, true, false, IsTrue, List};
ghost use Rattle.pt_meaning.specs.Tag.{tag_le, tag_after, within_limits};
ghost use Rattle.pt_meaning.specs.Basics.{at};
ghost use Rattle.pt_firing.specs.Step.{Makes, step_of};
ghost use Rattle.pt_lib_timed.specs.Pending.{Event, arriving, given_then};
ghost use Rattle.pt_lib_timed.specs.PendingStore.{behind, IsLate};
ghost use Rattle.pt_lib_timed.specs.Signal.{Signals};

use crate::pending::Pending;
use pt_firing::{Inputs, Outputs, RunFault, StepFault};
use pt_time::{Tag, after};
use pt_value::Token;
use std::alloc::{AllocError, Global};

/// When tokens that arrive are due: so many ticks after a moment, or, in turn, after the one before them is due.
#[derive(Clone, Copy, Debug)]
pub(crate) struct Wait {
    pub(crate) from: Tag,
    pub(crate) delay: u64,
    pub(crate) in_turn: bool,
}

/// The tokens of a place, none where there is no such place.
pub(crate) fn list_at<'a>(inputs: &'a Inputs<'_>, place: usize) -> &'a [Token]
    ensures { result.now ≡ at inputs.now place }
{
    if place < inputs.places() {
        inputs.list(place)
    } else {
        &[]
    }
}

/// The tag after a delay, none past the limits.
fn end_of(from: Tag, delay: u64) -> Option<Tag>
    ensures { result ≡ within_limits (tag_after from delay) }
{
    after(from, delay)
}

/// Puts copies of the tokens behind what is pending. After a fault some of them may be there.
fn put_all(
    pending: &mut Pending,
    alloc: Global,
    tokens: &[Token],
    wait: Wait,
) -> Result<(), StepFault>
    ensures all { OnOk result (Some pending.new ≡ behind pending.old (arriving wait.in_turn wait.from wait.delay tokens.now)) }
    ensures late { IfErr result (λ fault. IsLate fault (arriving wait.in_turn wait.from wait.delay tokens.now)) }
    ensures kept { (more : List Event) × (pending.new ≡ pending.old ++ more) }
{
    let mut from = wait.from;
    for token in tokens {
        let Some(end) = end_of(from, wait.delay) else {
            return Err(StepFault::Run(RunFault::TimeLimit));
        };
        let copy = token.copy(alloc)?;
        pending.put(end, copy)?;
        if wait.in_turn {
            from = end;
        }
    }
    Ok(())
}

/// Puts copies of the tokens behind what is pending. After a fault it is as before.
fn arrive(
    pending: &mut Pending,
    alloc: Global,
    tokens: &[Token],
    wait: Wait,
) -> Result<(), StepFault>
    ensures all { OnOk result (Some pending.new ≡ behind pending.old (arriving wait.in_turn wait.from wait.delay tokens.now)) }
    ensures late { IfErr result (λ fault. IsLate fault (arriving wait.in_turn wait.from wait.delay tokens.now)) }
    ensures kept { OnErr result (pending.new ≡ pending.old) }
{
    let count = pending.len();
    match put_all(pending, alloc, tokens, wait) {
        Ok(()) => Ok(()),
        Err(fault) => {
            pending.cut(count);
            Err(fault)
        }
    }
}

/// Gives what is due at a tag, and holds back what arrives. After a fault all is as before.
pub(crate) fn fire(
    pending: &mut Pending,
    alloc: Global,
    tag: Tag,
    tokens: &[Token],
    wait: Wait,
) -> Result<Outputs, StepFault>
    requires { tag_le tag wait.from ≡ true }
    ensures { Makes (given_then tag pending.old (arriving wait.in_turn wait.from wait.delay tokens.now)) pending.old (step_of result) pending.new }
{
    let count = pending.len();
    arrive(pending, alloc, tokens, wait)?;
    match pending.take_due(alloc, tag) {
        Ok(given) => Ok(Outputs::first(1, given)),
        Err(_) => {
            pending.cut(count);
            Err(StepFault::Memory)
        }
    }
}

/// Puts the integer that arrives behind what is pending, if any does. Where several tokens arrive, or another one, where it would be due past the limits, or for want of memory, nothing is done.
#[inline(always)]
fn arrive_alone(pending: &mut Pending, tokens: &[Token], wait: Wait) -> bool
    ensures all { IsTrue result → Some pending.new ≡ behind pending.old (arriving wait.in_turn wait.from wait.delay tokens.now) }
    ensures kept { result ≡ false → pending.new ≡ pending.old }
{
    match tokens {
        [] => true,
        [Token::Int(number)] => match end_of(wait.from, wait.delay) {
            Some(end) => pending.put(end, Token::Int(*number)).is_ok(),
            None => false,
        },
        _ => false,
    }
}

/// Gives what is due at a tag and holds back what arrives, where each is one integer at most. Else nothing is done.
#[inline(always)]
pub(crate) fn pass(
    pending: &mut Pending,
    tag: Tag,
    tokens: &[Token],
    wait: Wait,
) -> Option<Option<i64>>
    ensures { Signals (given_then tag pending.old (arriving wait.in_turn wait.from wait.delay tokens.now)) pending.old result pending.new }
{
    let given = pending.due_number(tag)?;
    if !arrive_alone(pending, tokens, wait) {
        return None;
    }
    if given.is_some() {
        pending.drop_first();
    }
    Some(given)
}
