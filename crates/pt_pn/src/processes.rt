ghost use Rattle.std.specs.Prelude.{◌≡◌, ◌<◌, [], length, get_or, slice_get, false, true, IfOk, OnOk, OnErr, Some};
ghost use Rattle.pt_meaning.specs.Streams.{change_at};
ghost use Rattle.pt_meaning.specs.Process.{to_each};
ghost use Rattle.pt_value.specs.declared.token.Token.TheVariants.{Int};
ghost use Rattle.pt_firing.specs.Need.{need_of};
ghost use Rattle.pt_pn_laws.specs.State.{lacking_place};
ghost use Rattle.pt_pn_laws.specs.Lawful.{HasPlaces};
ghost use Rattle.pt_process.specs.Process.{DoesNext, with_token, with_put_made, with_handed, once_fired};
ghost use Rattle.pt_puts.specs.Puts.{put_of, puts_in};
ghost use Rattle.pt_pn_work.specs.Core.{nobody, puts_of_all};
ghost use Rattle.pt_recv.specs.Lines.{list_at};
ghost use Rattle.pt_pn.specs.Gets.{GetsFirst};

use crate::outlets::next_token;
use pt_firing::Need;
use pt_process::{Event, Process};
use pt_puts::StagedPut;
use pt_recv::Channels;
use pt_value::Token;
use std::alloc::{AllocError, Global};
use std::collections::VecDeque;

/// What a process does next.
pub(crate) fn next_of(processes: &mut Vec<Process>, process: usize) -> Event
    requires there { process < length processes.old.items }
    requires gathers { (get_or processes.old.items process nobody).handed ≡ false }
    ensures same { processes.new.items ≡ processes.old.items }
    ensures next { DoesNext (get_or processes.old.items process nobody) result }
{
    processes[process].next()
}

/// A process takes a token at the place that lacks one.
fn get_at(processes: &mut Vec<Process>, process: usize, place: usize, token: Token)
    requires there { process < length processes.old.items }
    requires gathers { (get_or processes.old.items process nobody).handed ≡ false }
    requires lacks { lacking_place (get_or processes.old.items process nobody).need (get_or processes.old.items process nobody).got ≡ Some place }
    ensures { processes.new.items ≡ change_at process (with_token place token) processes.old.items }
{
    processes[process].get(place, token);
}

/// A process takes an integer at the place that lacks a token.
#[inline(always)]
fn get_number_at(processes: &mut Vec<Process>, process: usize, place: usize, number: i64)
    requires there { process < length processes.old.items }
    requires gathers { (get_or processes.old.items process nobody).handed ≡ false }
    requires lacks { lacking_place (get_or processes.old.items process nobody).need (get_or processes.old.items process nobody).got ≡ Some place }
    ensures { processes.new.items ≡ change_at process (with_token place (Int number)) processes.old.items }
{
    processes[process].get_number(place, number);
}

/// A process takes the first token of a channel at the place that lacks one. An integer goes from the one to the other as it is.
#[inline(always)]
pub(crate) fn get_from(
    queues: &mut Channels,
    channel: u32,
    processes: &mut Vec<Process>,
    process: usize,
    place: usize,
)
    requires channel { channel < length queues.old.lists }
    requires some { 0 < length (list_at queues.old.lists channel) }
    requires there { process < length processes.old.items }
    requires gathers { (get_or processes.old.items process nobody).handed ≡ false }
    requires lacks { lacking_place (get_or processes.old.items process nobody).need (get_or processes.old.items process nobody).got ≡ Some place }
    ensures { GetsFirst channel process place queues.old queues.new processes.old.items processes.new.items }
{
    match queues.take_number(channel) {
        Some(number) => get_number_at(processes, process, place, number),
        None => {
            let token = next_token(queues, channel);
            get_at(processes, process, place, token);
        }
    }
}

/// Takes out the next put of a process.
pub(crate) fn take_put(processes: &mut Vec<Process>, process: usize) -> StagedPut
    requires there { process < length processes.old.items }
    requires some { 0 < length (get_or (puts_of_all processes.old.items) process []) }
    ensures put { slice_get (get_or (puts_of_all processes.old.items) process []) 0 ≡ Some (put_of result) }
    ensures left { processes.new.items ≡ change_at process with_put_made processes.old.items }
{
    processes[process].put()
}

/// A process hands over what it has gathered.
#[inline(always)]
pub(crate) fn hand_at(processes: &mut Vec<Process>, process: usize)
    requires there { process < length processes.old.items }
    requires gathers { (get_or processes.old.items process nobody).handed ≡ false }
    ensures { processes.new.items ≡ change_at process with_handed processes.old.items }
{
    processes[process].hand();
}

/// A process has fired, and has these puts to make, and this need. After an `Err` all are as before.
pub(crate) fn tell_at(
    alloc: Global,
    processes: &mut Vec<Process>,
    process: usize,
    need: Need<'_>,
    puts: &mut VecDeque<StagedPut>,
) -> Result<(), AllocError>
    requires there { process < length processes.old.items }
    requires handed { (get_or processes.old.items process nobody).handed ≡ true }
    requires places { HasPlaces (length (get_or processes.old.items process nobody).got) (need_of need) }
    ensures told { OnOk result (processes.new.items ≡ change_at process (once_fired (need_of need.entry) (puts_in puts.old.items)) processes.old.items) }
    ensures kept { OnErr result (processes.new.items ≡ processes.old.items) }
{
    processes[process].told(alloc, need, puts)
}

/// A process has fired, and has this integer to put on each of these channels, and this need. After an `Err` all are as before.
#[inline(always)]
pub(crate) fn tell_number_at(
    alloc: Global,
    processes: &mut Vec<Process>,
    process: usize,
    need: Need<'_>,
    number: i64,
    fan: &[u32],
) -> Result<(), AllocError>
    requires there { process < length processes.old.items }
    requires handed { (get_or processes.old.items process nobody).handed ≡ true }
    requires none { (get_or processes.old.items process nobody).puts ≡ [] }
    requires places { HasPlaces (length (get_or processes.old.items process nobody).got) (need_of need) }
    ensures told { OnOk result (processes.new.items ≡ change_at process (once_fired (need_of need.entry) (to_each (Int number) fan.now)) processes.old.items) }
    ensures kept { OnErr result (processes.new.items ≡ processes.old.items) }
{
    processes[process].told_number(alloc, need, number, fan)
}

/// Whether a need is a count for each of so many places, or none.
pub(crate) fn fits(need: Need<'_>, places: usize) -> bool
    ensures { result ≡ true → HasPlaces places (need_of need.entry) }
{
    match need {
        Need::Over => true,
        Need::All(counts) => counts.len() == places,
        Need::Any => false,
    }
}

/// The same processes again.
pub(crate) fn copies(alloc: Global, processes: &[Process]) -> Result<Vec<Process>, AllocError>
    ensures { IfOk result (λ copies. copies.items ≡ processes.now) }
{
    let mut copies = Vec::with_capacity(alloc, processes.len())?;
    for process in processes {
        let copy = process.copy(alloc)?;
        copies.push(copy)?;
    }
    Ok(copies)
}
