// What comes next at a PN or a Rendezvous top: its one firing, which takes all tokens of each input, then the end.
ghost use Rattle.std.specs.Prelude.{◌≡◌, IfOk};
ghost use Rattle.pt_meaning.specs.Schedule.{once_top};
ghost use Rattle.pt_next.specs.Turn.{IsAlwaysNext};

use crate::turn::{End, Firing, ORIGIN, Turn};
use pt_firing::Tokens;
use pt_trees::OnceJob;
use std::alloc::{AllocError, Global};

/// What comes after so many firings: the one firing, or the end where it is made. It is done where each process waits or is over, which is
/// a deadlock.
pub(crate) fn next_turn(alloc: Global, job: &OnceJob, fired: u64) -> Result<Turn, AllocError>
    ensures { IfOk result (IsAlwaysNext (once_top job.now.inputs.items) fired) }
{
    if fired > 0 {
        return Ok(Turn::Ends(End::Deadlock));
    }
    let inputs = all_tokens(alloc, &job.inputs)?;
    Ok(Turn::Fire(Firing {
        tag: ORIGIN,
        inputs,
    }))
}

/// All tokens of each input.
fn all_tokens(alloc: Global, inputs: &[Tokens]) -> Result<Vec<Tokens>, AllocError>
    ensures { IfOk result (λ lists. lists.items ≡ inputs.now) }
{
    let mut lists = Vec::with_capacity(alloc, inputs.len())?;
    for input in inputs {
        lists.push(input.copy(alloc)?)?;
    }
    Ok(lists)
}
