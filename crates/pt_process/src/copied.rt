ghost use Rattle.std.specs.Prelude.{◌≡◌, ℕ, ◌+◌, ◌<◌, ◌≤◌, length, get_or, IfOk};
ghost use Rattle.pt_meaning.specs.Streams.{at};
ghost use Rattle.pt_reaction.specs.Channels.{lists_of};
ghost use Rattle.pt_puts.specs.Lines.{room_at};

use crate::plan::copies;
use crate::process::Process;
use crate::renew::count_at;
use pt_puts::puts_again;
use pt_reaction::Line;
use std::alloc::{AllocError, Global};

impl Process {
    ghost use Rattle.std.specs.Prelude.{◌≡◌, IfOk};

    /// Another process in the same state.
    pub fn copy(&self, alloc: Global) -> Result<Process, AllocError>
        ensures { IfOk result (λ process. process ≡ self.now) }
    {
        let puts = puts_again(alloc, &self.puts)?;
        let lines = lines_again(alloc, &self.lines, self.need.lined())?;
        let row = copies(alloc, &self.row)?;
        let need = self.need.copy(alloc)?;
        Ok(Process {
            need,
            lines,
            row,
            is_handed: self.is_handed,
            full: self.full,
            puts,
        })
    }
}

/// The same lines again, each with room for as many tokens as are gathered there.
fn lines_again(alloc: Global, lines: &[Line], counts: &[usize]) -> Result<Vec<Line>, AllocError>
    ensures lists { IfOk result (λ copies. lists_of copies.items ≡ lists_of lines.now) }
    ensures rooms { IfOk result (λ copies. (q : ℕ) → q < length lines.now → get_or counts.now q 0 ≤ length (at (lists_of copies.items) q) + room_at copies.items q) }
{
    let mut copies = Vec::with_capacity(alloc, lines.len())?;
    for place in 0..lines.len() {
        let copy = line_again(alloc, &lines[place], count_at(counts, place))?;
        copies.push(copy)?;
    }
    Ok(copies)
}

/// The same of one line, of which so many tokens are needed.
fn line_again(alloc: Global, line: &Line, count: usize) -> Result<Line, AllocError>
    ensures list { IfOk result (λ copy. copy.list ≡ line.now.list) }
    ensures room { IfOk result (λ copy. count ≤ length copy.list + copy.spare) }
{
    let mut copy = line.copy(alloc)?;
    copy.reserve(alloc, count.saturating_sub(line.len()))?;
    Ok(copy)
}
