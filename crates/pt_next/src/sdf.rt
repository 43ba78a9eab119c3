// What comes next at an SDF top: an iteration, which takes its tokens of each input.
ghost use Rattle.std.specs.Prelude.{◌≡◌, ◌<◌, ◌≤◌, take, drop, ◌+◌, ◌*◌, ◌^◌, suc, length, nat_le, IfOk, true};
ghost use Rattle.pt_meaning.specs.Schedule.{portions, suffice, sdf_top};
ghost use Rattle.pt_next.specs.Turn.{IsAlwaysNext};

use crate::turn::{End, Firing, ORIGIN, Turn};
use pt_firing::Tokens;
use pt_trees::SdfJob;
use pt_value::Token;
use std::alloc::{AllocError, Global};

/// What comes after so many iterations: the next one, or the end where all are made or an input has fewer tokens left than it takes.
pub(crate) fn next_turn(alloc: Global, job: &SdfJob, made: u64) -> Result<Turn, AllocError>
    requires lists { length job.now.inputs.items ≡ length job.now.takes }
    requires number { made + 1 < 2 ^ 64 }
    ensures { IfOk result (IsAlwaysNext (sdf_top job.now.iterations job.now.takes job.now.inputs.items) made) }
{
    if made >= job.iterations {
        return Ok(Turn::Ends(End::Iterations));
    }
    if !has_enough(job, made) {
        return Ok(Turn::Ends(End::Inputs));
    }
    let inputs = portions(alloc, job, made)?;
    Ok(Turn::Fire(Firing {
        tag: ORIGIN,
        inputs,
    }))
}

/// Whether each input has enough tokens left for the iteration of that number.
fn has_enough(job: &SdfJob, iteration: u64) -> bool
    requires lists { length job.now.inputs.items ≡ length job.now.takes }
    requires number { iteration + 1 < 2 ^ 64 }
    ensures { result ≡ suffice iteration job.now.takes job.now.inputs.items }
{
    for place in 0..job.inputs.len() {
        if !is_enough(
            iteration,
            job.takes.as_slice()[place],
            job.inputs[place].len(),
        ) {
            return false;
        }
    }
    true
}

/// The tokens that the iteration takes from each input.
fn portions(alloc: Global, job: &SdfJob, iteration: u64) -> Result<Vec<Tokens>, AllocError>
    requires lists { length job.now.inputs.items ≡ length job.now.takes }
    requires enough { suffice iteration job.now.takes job.now.inputs.items ≡ true }
    ensures { IfOk result (λ lists. lists.items ≡ portions iteration job.now.takes job.now.inputs.items) }
{
    let mut lists = Vec::with_capacity(alloc, job.inputs.len())?;
    for place in 0..job.inputs.len() {
        let tokens = job.inputs[place].as_slice();
        lists.push(portion(alloc, iteration, job.takes.as_slice()[place], tokens)?)?;
    }
    Ok(lists)
}

/// Whether a list is long enough for so many tokens in each iteration up to this one.
fn is_enough(iteration: u64, take: usize, length: usize) -> bool
    requires { iteration + 1 < 2 ^ 64 }
    ensures { result ≡ nat_le (suc iteration * take) length }
{
    match (iteration + 1).checked_mul(take as u64) {
        Some(end) => end <= length as u64,
        None => false,
    }
}

/// The tokens of a list that an iteration takes.
fn portion(
    alloc: Global,
    iteration: u64,
    count: usize,
    tokens: &[Token],
) -> Result<Tokens, AllocError>
    requires { suc iteration * count ≤ length tokens.now }
    ensures { IfOk result (λ portion. portion ≡ take count (drop (iteration * count) tokens.now)) }
{
    let start = iteration as usize * count;
    let mut portion = Tokens::new();
    for token in &tokens[start..start + count] {
        portion.push(alloc, token.copy(alloc)?)?;
    }
    Ok(portion)
}
