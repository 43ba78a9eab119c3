ghost use Rattle.std.specs.Prelude.{◌≡◌, ℕ, List, ◌^◌, ◌<◌, [], ◌++◌, length, get_or, true, false, IfOk, OnOk};
ghost use Rattle.pt_meaning.specs.Process.{Put};
ghost use Rattle.pt_meaning.specs.Places.{taken_if};
ghost use Rattle.pt_meaning.specs.Jam.{waited_from};
ghost use Rattle.pt_recv.specs.Lines.{list_at};
ghost use Rattle.pt_value.specs.declared.token.Token.{Token};
ghost use Rattle.pt_pn_work.specs.Core.{puts_of_all};
ghost use Rattle.pt_pn.specs.Waiting.{MarksWaited, marked_with, SomePuts, NonePut};

use pt_process::Process;
use pt_recv::Channels;
use std::alloc::{AllocError, Global};

/// Whether some process waits to put.
pub(crate) fn is_any_putting(processes: &[Process]) -> bool
    ensures some { result ≡ true → SomePuts (puts_of_all processes.now) }
    ensures none { result ≡ false → NonePut (puts_of_all processes.now) }
{
    for process in 0..processes.len() {
        let channel = processes[process].next_put();
        if channel.is_some() {
            return true;
        }
    }
    false
}

/// Whether some process waits to put on each of so many channels.
pub(crate) fn waited_on(
    alloc: Global,
    processes: &[Process],
    channels: usize,
) -> Result<Vec<bool>, AllocError>
    ensures counted { IfOk result (λ marks. length marks.items ≡ channels) }
    ensures marks { IfOk result (λ marks. MarksWaited marks.items (puts_of_all processes.now)) }
{
    let mut marks = vec![in alloc; false; channels]?;
    for process in 0..processes.len() {
        mark(&mut marks, processes[process].next_put());
    }
    Ok(marks)
}

/// Marks a channel, if there is one.
fn mark(marks: &mut Vec<bool>, channel: Option<u32>)
    ensures counted { length marks.new.items ≡ length marks.old.items }
    ensures marked { (c : ℕ) → c < length marks.old.items → get_or marks.new.items c false ≡ marked_with channel c (get_or marks.old.items c false) }
{
    if let Some(channel) = channel
        && let Some(is_marked) = marks.get_mut(channel as usize)
    {
        *is_marked = true;
    }
}

/// The channels that are marked, by number, each with its length.
pub(crate) fn lengths_of(
    alloc: Global,
    queues: &Channels,
    marks: &[bool],
) -> Result<Vec<(u32, usize)>, AllocError>
    requires few { length marks.now < 2 ^ 32 }
    requires counted { length marks.now ≡ length queues.now.lists }
    ensures { IfOk result (λ full. (puts : List (List (Put Token))) → MarksWaited marks.now puts → full.items ≡ waited_from 0 queues.now.lists puts) }
{
    let mut full = Vec::new(alloc);
    for channel in 0..marks.len() {
        add_length(&mut full, queues, channel as u32, marks[channel])?;
    }
    Ok(full)
}

/// A channel with its length behind others, if it is marked.
fn add_length(
    full: &mut Vec<(u32, usize)>,
    queues: &Channels,
    channel: u32,
    is_marked: bool,
) -> Result<(), AllocError>
    requires { channel < length queues.now.lists }
    ensures { OnOk result (full.new.items ≡ full.old.items ++ taken_if is_marked (channel, length (list_at queues.now.lists channel)) []) }
{
    if !is_marked {
        return Ok(());
    }
    full.push((channel, queues.len(channel)))?;
    Ok(())
}
