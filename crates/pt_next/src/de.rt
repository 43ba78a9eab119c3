// What comes next at a DE top: a firing at the tag of the next event or of its wake, which takes the tokens of the inputs at it.
ghost use Rattle.std.specs.Prelude.{◌≡◌, IfOk};
ghost use Rattle.pt_meaning.specs.Schedule as schedule;
ghost use Rattle.pt_agenda.specs.Events.{AllAscend, events_of};
ghost use Rattle.pt_next.specs.Turn.{IsDue, turn_of};

use crate::turn::{End, Firing, Turn};
use pt_agenda::{first_event, tokens_at};
use pt_time::Tag;
use pt_trees::DeJob;
use std::alloc::{AllocError, Global};

/// What comes after a firing at the last tag, at a top with this wake: the next firing, or the end where its tag is past the stop
/// time or there is none, or nothing where it is past the limit.
pub(crate) fn next_turn(
    alloc: Global,
    job: &DeJob,
    last: &Option<Tag>,
    wake: Option<Tag>,
) -> Result<Turn, AllocError>
    requires { AllAscend job.now.inputs.items }
    ensures { IfOk result (IsDue job.now last.now wake) }
{
    let event = first_event(*last, &job.inputs);
    match pt_agenda::next_turn(job.stop, event, wake, *last) {
        pt_agenda::Turn::Fire(tag) => Ok(Turn::Fire(firing(alloc, job, tag)?)),
        pt_agenda::Turn::Stop => Ok(Turn::Ends(End::Stop)),
        pt_agenda::Turn::Idle => Ok(Turn::Ends(End::Idle)),
        pt_agenda::Turn::Limit => Ok(Turn::Limit),
    }
}

/// The firing at a tag, which takes the token of each input at it.
fn firing(alloc: Global, job: &DeJob, tag: Tag) -> Result<Firing, AllocError>
    requires { AllAscend job.now.inputs.items }
    ensures tag { IfOk result (λ firing. firing.tag ≡ tag) }
    ensures inputs { IfOk result (λ firing. firing.inputs.items ≡ schedule.events_at tag (events_of job.now.inputs.items)) }
{
    let inputs = tokens_at(alloc, tag, &job.inputs)?;
    Ok(Firing { tag, inputs })
}
