ghost use Rattle.std.specs.Prelude.{◌≡◌, ℕ, ◌<◌, ◌≤◌, [], length, replicate, get_or, nat_eq, false, true, IfOk, OnOk};
ghost use Rattle.pt_meaning.specs.Streams.{at};
ghost use Rattle.pt_firing.specs.Need.{need_of};
ghost use Rattle.pt_reaction.specs.Channels.{lists_of};
ghost use Rattle.pt_meaning.specs.Machine as machine;
ghost use Rattle.pt_process.specs.Process.{need_kept, HasRooms, IsKept};
ghost use Rattle.pt_puts.specs.Lines.{room_at};

use crate::need::{KeptNeed, is_one};
use crate::process::Process;
use pt_firing::{Counts, Need, Tokens};
use pt_puts::StagedPut;
use pt_reaction::Line;
use std::alloc::{AllocError, Global};
use std::collections::VecDeque;
use std::mem;

impl Process {
    ghost use Rattle.std.specs.Prelude.{◌≡◌, length, true, IfOk, OnOk, OnErr};
    ghost use Rattle.pt_firing.specs.Need.{need_of};
    ghost use Rattle.pt_pn_laws.specs.Lawful.{HasPlaces};
    ghost use Rattle.pt_process.specs.Process.{need_in, at_start, once_fired, renewed, with_puts};
    ghost use Rattle.pt_puts.specs.Puts.{puts_in};

    /// A process at its start.
    pub fn new(alloc: Global, need: Option<Counts>, places: usize) -> Result<Process, AllocError>
        requires { HasPlaces places (need_in need) }
        ensures { IfOk result (λ process. process ≡ at_start (need_in need) places) }
    {
        let need = KeptNeed::new(need);
        let row = empty_row(alloc, places)?;
        let mut lines = empty_lines(alloc, places)?;
        make_rooms(alloc, &mut lines, need.lined())?;
        Ok(Process {
            need,
            lines,
            row,
            is_handed: false,
            full: 0,
            puts: VecDeque::new(alloc),
        })
    }

    /// Once it has fired it has these puts to make, and this need. After an `Err` it is as before.
    #[inline(always)]
    pub fn told(
        &mut self,
        alloc: Global,
        need: Need<'_>,
        puts: &mut VecDeque<StagedPut>,
    ) -> Result<(), AllocError>
        requires handed { self.old.handed ≡ true }
        requires places { HasPlaces (length self.old.got) (need_of need) }
        ensures told { OnOk result (self.new ≡ once_fired (need_of need.entry) (puts_in puts.old.items) self.old) }
        ensures kept { OnErr result (self.new ≡ self.old) }
    {
        self.renew(alloc, need)?;
        self.stage(puts);
        Ok(())
    }

    /// It has used what it gathered, and has this need. After an `Err` it is as before.
    #[inline(always)]
    pub(crate) fn renew(&mut self, alloc: Global, need: Need<'_>) -> Result<(), AllocError>
        requires handed { self.old.handed ≡ true }
        requires places { HasPlaces (length self.old.got) (need_of need) }
        ensures renewed { OnOk result (self.new ≡ renewed (need_of need.entry) self.old) }
        ensures kept { OnErr result (self.new ≡ self.old) }
    {
        if self.needs(need) {
            return self.need_again(alloc);
        }
        self.need_now(alloc, need)
    }

    /// Whether it has this need already.
    #[inline(always)]
    fn needs(&self, need: Need<'_>) -> bool
        ensures { result ≡ true → self.now.need ≡ need_of need.entry }
    {
        match need {
            Need::Over => is_over(&self.need),
            Need::All(counts) => is_kept(&self.need, counts),
            Need::Any => false,
        }
    }

    /// It has used what it gathered, and needs the same again. After an `Err` it is as before.
    #[inline(always)]
    fn need_again(&mut self, alloc: Global) -> Result<(), AllocError>
        requires handed { self.old.handed ≡ true }
        requires places { HasPlaces (length self.old.got) self.old.need }
        ensures renewed { OnOk result (self.new ≡ renewed self.old.need self.old) }
        ensures kept { OnErr result (self.new ≡ self.old) }
    {
        match self.need {
            // The used token stays where it lies until the next one is put over it.
            KeptNeed::One => {
                self.full = 0;
                self.is_handed = false;
                Ok(())
            }
            KeptNeed::Over | KeptNeed::Counts(_) => {
                make_rooms(alloc, &mut self.lines, self.need.lined())?;
                self.full = 0;
                self.is_handed = false;
                Ok(())
            }
        }
    }

    /// It has used what it gathered, and has another need. After an `Err` it is as before.
    fn need_now(&mut self, alloc: Global, need: Need<'_>) -> Result<(), AllocError>
        requires handed { self.old.handed ≡ true }
        requires places { HasPlaces (length self.old.got) (need_of need) }
        ensures renewed { OnOk result (self.new ≡ renewed (need_of need.entry) self.old) }
        ensures kept { OnErr result (self.new ≡ self.old) }
    {
        let need = kept_need(alloc, need)?;
        make_rooms(alloc, &mut self.lines, need.lined())?;
        empty_row_again(&mut self.row);
        self.need = need;
        self.full = 0;
        self.is_handed = false;
        Ok(())
    }

    /// It has these puts to make.
    fn stage(&mut self, puts: &mut VecDeque<StagedPut>)
        ensures { self.new ≡ with_puts (puts_in puts.old.items) self.old }
    {
        mem::swap(&mut self.puts, puts);
    }
}

/// Whether a process with this need is over.
#[inline(always)]
fn is_over(kept: &KeptNeed) -> bool
    ensures { result ≡ true → need_kept kept.now ≡ machine.Over }
{
    match kept {
        KeptNeed::Over => true,
        KeptNeed::Counts(_) | KeptNeed::One => false,
    }
}

/// Whether these counts are kept.
#[inline(always)]
fn is_kept(kept: &KeptNeed, counts: &Counts) -> bool
    ensures { result ≡ true → need_kept kept.now ≡ machine.Counts counts.now }
{
    match kept {
        KeptNeed::Over => false,
        KeptNeed::Counts(kept) => are_same(kept.as_slice(), counts.as_slice()),
        KeptNeed::One => is_one(counts.as_slice()),
    }
}

/// Whether these counts are the same. Where there is one or none, nothing is called for that.
#[inline(always)]
fn are_same(kept: &[usize], counts: &[usize]) -> bool
    ensures { result ≡ true → kept.now ≡ counts.now }
{
    match counts {
        [] => kept.is_empty(),
        [count] => match kept {
            [kept] => *kept == *count,
            _ => false,
        },
        _ => kept == counts,
    }
}

/// A need that is kept.
fn kept_need(alloc: Global, need: Need<'_>) -> Result<KeptNeed, AllocError>
    requires { IsKept (need_of need) }
    ensures { IfOk result (λ kept. need_kept kept ≡ need_of need.entry) }
{
    match need {
        Need::Over => Ok(KeptNeed::Over),
        Need::All(counts) => kept_counts(alloc, counts),
        Need::Any => unreachable!(),
    }
}

/// The same of so many tokens at each place.
fn kept_counts(alloc: Global, counts: &Counts) -> Result<KeptNeed, AllocError>
    ensures { IfOk result (λ kept. need_kept kept ≡ machine.Counts counts.now) }
{
    if is_one(counts.as_slice()) {
        return Ok(KeptNeed::One);
    }
    match counts.copy(alloc) {
        Ok(counts) => Ok(KeptNeed::Counts(counts)),
        Err(fault) => Err(fault),
    }
}

/// Empties each line, and makes room there for so many tokens.
#[inline(always)]
fn make_rooms(alloc: Global, lines: &mut Vec<Line>, counts: &[usize]) -> Result<(), AllocError>
    ensures counted { length lines.new.items ≡ length lines.old.items }
    ensures rooms { OnOk result (HasRooms counts.now lines.new.items) }
{
    for place in 0..lines.len() {
        make_room(alloc, lines, place, count_at(counts, place))?;
    }
    Ok(())
}

/// The count of a place.
pub(crate) fn count_at(counts: &[usize], place: usize) -> usize
    ensures { result ≡ get_or counts.now place 0 }
{
    match counts.get(place) {
        Some(count) => *count,
        None => 0,
    }
}

/// The same of one place.
#[inline(always)]
fn make_room(
    alloc: Global,
    lines: &mut Vec<Line>,
    place: usize,
    count: usize,
) -> Result<(), AllocError>
    requires { place < length lines.old.items }
    ensures counted { length lines.new.items ≡ length lines.old.items }
    ensures empty { OnOk result (at (lists_of lines.new.items) place ≡ []) }
    ensures room { OnOk result (count ≤ room_at lines.new.items place) }
    ensures others { OnOk result ((q : ℕ) → nat_eq place q ≡ false → (at (lists_of lines.new.items) q ≡ at (lists_of lines.old.items) q) × (room_at lines.new.items q ≡ room_at lines.old.items q)) }
{
    let line = &mut lines[place];
    empty(line);
    line.reserve(alloc, count)?;
    Ok(())
}

/// Empties a line. Most often it is empty, since its tokens were handed over.
#[inline(always)]
fn empty(line: &mut Line)
    ensures { line.new.list ≡ [] }
{
    if !line.is_empty() {
        line.clear();
    }
}

/// Empties each list of a row.
fn empty_row_again(row: &mut Vec<Tokens>)
    ensures empty { (q : ℕ) → q < length row.new.items → at row.new.items q ≡ [] }
    ensures counted { length row.new.items ≡ length row.old.items }
{
    for place in 0..row.len() {
        row[place] = Tokens::new();
    }
}

fn empty_row(alloc: Global, places: usize) -> Result<Vec<Tokens>, AllocError>
    ensures { IfOk result (λ row. row.items ≡ replicate places []) }
{
    let mut row = Vec::with_capacity(alloc, places)?;
    for _ in 0..places {
        row.push(Tokens::new())?;
    }
    Ok(row)
}

fn empty_lines(alloc: Global, places: usize) -> Result<Vec<Line>, AllocError>
    ensures { IfOk result (λ lines. length lines.items ≡ places) }
{
    let mut lines = Vec::with_capacity(alloc, places)?;
    for _ in 0..places {
        lines.push(Line::new())?;
    }
    Ok(lines)
}
