ghost use Rattle.std.specs.Prelude.{◌≡◌, ℕ, ◌+◌, ◌<◌, ◌≤◌, length, IfOk};
ghost use Rattle.pt_meaning.specs.Streams.{at};
ghost use Rattle.pt_reaction.specs.Channels.{lists_of};
ghost use Rattle.pt_puts.specs.Lines.{room_at};
ghost use Rattle.pt_rv_parts.specs.Process.{taken_at};

use crate::process::Process;
use crate::renew::{counts_of, least_room, room_of};
use pt_firing::Tokens;
use pt_puts::puts_again;
use pt_reaction::Line;
use std::alloc::{AllocError, Global};

impl Process {
    ghost use Rattle.std.specs.Prelude.{◌≡◌, IfOk};

    /// Another process in the same state.
    pub fn copy(&self, alloc: Global) -> Result<Process, AllocError>
        ensures { IfOk result (λ process. process ≡ self.now) }
    {
        let puts = puts_again(alloc, &self.puts)?;
        let lines = lines_again(alloc, &self.lines, self.is_barrier, counts_of(&self.need))?;
        let row = row_again(alloc, &self.row)?;
        let need = self.need.copy(alloc)?;
        Ok(Process {
            is_barrier: self.is_barrier,
            need,
            lines,
            row,
            is_handed: self.is_handed,
            full: self.full,
            filled: self.filled,
            puts,
        })
    }
}

/// The same lists again.
fn row_again(alloc: Global, lists: &[Tokens]) -> Result<Vec<Tokens>, AllocError>
    ensures { IfOk result (λ copies. copies.items ≡ lists.now) }
{
    let mut copies = Vec::with_capacity(alloc, lists.len())?;
    for tokens in lists {
        let tokens = tokens.copy(alloc)?;
        copies.push(tokens)?;
    }
    Ok(copies)
}

/// The same lines again, each with room for as many tokens as its place takes.
fn lines_again(
    alloc: Global,
    lines: &[Line],
    is_barrier: bool,
    counts: &[usize],
) -> Result<Vec<Line>, AllocError>
    ensures lists { IfOk result (λ copies. lists_of copies.items ≡ lists_of lines.now) }
    ensures rooms { IfOk result (λ copies. (q : ℕ) → q < length lines.now → taken_at is_barrier counts.now q ≤ length (at (lists_of copies.items) q) + room_at copies.items q) }
{
    let least = least_room(is_barrier, counts);
    let mut copies = Vec::with_capacity(alloc, lines.len())?;
    for line in lines {
        let place = copies.len();
        let room = room_of(counts, least, place);
        let copy = line_again(alloc, line, room)?;
        copies.push(copy)?;
    }
    Ok(copies)
}

/// The same line again, with room for so many tokens.
fn line_again(alloc: Global, line: &Line, count: usize) -> Result<Line, AllocError>
    ensures list { IfOk result (λ copy. copy.list ≡ line.now.list) }
    ensures room { IfOk result (λ copy. count ≤ length copy.list + copy.spare) }
{
    let mut copy = line.copy(alloc)?;
    copy.reserve(alloc, count.saturating_sub(line.len()))?;
    Ok(copy)
}
