// What comes next at an SR top: a tick, which takes the token of its number of each input.
ghost use Rattle.std.specs.Prelude.{◌≡◌, drop, IfOk};
ghost use Rattle.pt_meaning.specs.Schedule.{token_or_none, tokens_at, lists_last, sr_top};
ghost use Rattle.pt_trees.specs.Top.{ticks_of};
ghost use Rattle.pt_next.specs.Turn.{IsAlwaysNext};

use crate::turn::{End, Firing, Turn};
use pt_firing::Tokens;
use pt_time::Tag;
use pt_trees::SrJob;
use pt_value::Token;
use std::alloc::{AllocError, Global};

/// What comes after so many ticks: the next one, whose time is its number, or the end where all are made or no input lasts until it.
pub(crate) fn next_turn(alloc: Global, job: &SrJob, made: u64) -> Result<Turn, AllocError>
    ensures { IfOk result (IsAlwaysNext (sr_top job.now.iterations (ticks_of job.now.inputs.items)) made) }
{
    if made >= job.iterations {
        return Ok(Turn::Ends(End::Iterations));
    }
    if !is_lasting(&job.inputs, made) {
        return Ok(Turn::Ends(End::Inputs));
    }
    let inputs = tokens_at(alloc, &job.inputs, made)?;
    Ok(Turn::Fire(Firing {
        tag: Tag {
            time: made,
            step: 0,
        },
        inputs,
    }))
}

/// Whether there is no input, or one of them lasts until the tick of that number.
fn is_lasting(inputs: &[Vec<Option<Token>>], tick: u64) -> bool
    ensures { result ≡ lists_last tick (ticks_of inputs.now) }
{
    if inputs.is_empty() {
        return true;
    }
    for input in inputs {
        if tick < input.len() as u64 {
            return true;
        }
    }
    false
}

/// The tokens that come to the inputs at the tick of that number, at most one to each.
fn tokens_at(
    alloc: Global,
    inputs: &[Vec<Option<Token>>],
    tick: u64,
) -> Result<Vec<Tokens>, AllocError>
    ensures { IfOk result (λ lists. lists.items ≡ tokens_at tick (ticks_of inputs.now)) }
{
    let mut lists = Vec::with_capacity(alloc, inputs.len())?;
    for input in inputs {
        lists.push(token_at(alloc, input, tick)?)?;
    }
    Ok(lists)
}

/// The token of the tick of that number, if it is there.
fn token_at(alloc: Global, input: &[Option<Token>], tick: u64) -> Result<Tokens, AllocError>
    ensures { IfOk result (λ tokens. tokens ≡ token_or_none (drop tick input.now)) }
{
    if tick >= input.len() as u64 {
        return Ok(Tokens::new());
    }
    match &input[tick as usize] {
        Some(token) => Ok(Tokens::one(token.copy(alloc)?)),
        None => Ok(Tokens::new()),
    }
}
