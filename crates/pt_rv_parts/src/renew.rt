ghost use Rattle.std.specs.Prelude.{◌≡◌, ℕ, ◌<◌, ◌≤◌, [], ◌∷◌, length, get_or, nat_eq, max, false, true, IfOk, OnOk, Some, None};
ghost use Rattle.pt_meaning.specs.Streams.{at};
ghost use Rattle.pt_reaction.specs.Channels.{lists_of};
ghost use Rattle.pt_puts.specs.Lines.{room_at};
ghost use Rattle.pt_meaning.specs.Machine as machine;
ghost use Rattle.pt_rv_parts.specs.Process.{HaveRoom, FilledAt, IsLeast, counts_in};
ghost use Rattle.pt_puts.specs.Need.{need_in};

use crate::process::Process;
use pt_firing::{Counts, Need, Tokens};
use pt_puts::{KeptNeed, StagedPut};
use pt_reaction::Line;
use std::alloc::{AllocError, Global};
use std::collections::VecDeque;
use std::mem;

impl Process {
    ghost use Rattle.std.specs.Prelude.{◌≡◌, [], ◌∷◌, length, true, IfOk, OnOk, OnErr};
    ghost use Rattle.pt_meaning.specs.Machine as machine;
    ghost use Rattle.pt_firing.specs.Need.{need_of};
    ghost use Rattle.pt_rv_laws.specs.Lawful.{HasPlaces};
    ghost use Rattle.pt_puts.specs.Puts.{puts_in};
    ghost use Rattle.pt_rv_work.specs.Core.{once_fired};
    ghost use Rattle.pt_puts.specs.Need.{need_in};
    ghost use Rattle.pt_rv_parts.specs.Process.{at_start, renewed, with_puts};

    /// A process at its start.
    pub fn new(
        alloc: Global,
        is_barrier: bool,
        need: KeptNeed,
        places: usize,
    ) -> Result<Process, AllocError>
        requires { HasPlaces places (need_in need) }
        ensures { IfOk result (λ process. process ≡ at_start is_barrier (need_in need) places) }
    {
        let row = empty_row(alloc, places)?;
        let mut lines = empty_lines(alloc, places)?;
        make_rooms(alloc, &mut lines, is_barrier, counts_of(&need))?;
        let need = narrowed(need);
        Ok(Process {
            is_barrier,
            need,
            lines,
            row,
            is_handed: false,
            full: 0,
            filled: None,
            puts: VecDeque::new(alloc),
        })
    }

    /// Once it has fired it has these puts to make, and this need. After an `Err` it is as before.
    #[inline(always)]
    pub fn told(
        &mut self,
        alloc: Global,
        need: Need<'_>,
        puts: &mut VecDeque<StagedPut>,
    ) -> Result<(), AllocError>
        requires handed { self.old.handed ≡ true }
        requires places { HasPlaces (length self.old.got) (need_of need) }
        ensures told { OnOk result (self.new ≡ once_fired (need_of need.entry) (puts_in puts.old.items) self.old) }
        ensures kept { OnErr result (self.new ≡ self.old) }
    {
        self.renew(alloc, need)?;
        self.stage(puts);
        Ok(())
    }

    /// It has used what it gathered, and has this need. After an `Err` it is as before.
    #[inline(always)]
    pub(crate) fn renew(&mut self, alloc: Global, need: Need<'_>) -> Result<(), AllocError>
        requires handed { self.old.handed ≡ true }
        requires places { HasPlaces (length self.old.got) (need_of need) }
        ensures renewed { OnOk result (self.new ≡ renewed (need_of need.entry) self.old) }
        ensures kept { OnErr result (self.new ≡ self.old) }
    {
        match need {
            Need::Over => {
                self.need_nothing();
                Ok(())
            }
            Need::All(counts) => self.need_counts(alloc, counts),
            Need::Any => {
                self.need_any();
                Ok(())
            }
        }
    }

    /// It has used what it gathered, and is over.
    fn need_nothing(&mut self)
        requires { self.old.handed ≡ true }
        ensures { self.new ≡ renewed machine.Over self.old }
    {
        empty_lines_again(&mut self.lines);
        self.need = KeptNeed::Over;
        self.is_handed = false;
    }

    /// It has used what it gathered, and needs one token from any place.
    fn need_any(&mut self)
        requires { self.old.handed ≡ true }
        ensures { self.new ≡ renewed machine.Any self.old }
    {
        match self.need {
            KeptNeed::Any => self.any_again(),
            KeptNeed::Over | KeptNeed::Counts(_) | KeptNeed::One => self.any_now(),
        }
    }

    /// The same where that was its need before, so that only the place that is filled is emptied.
    fn any_again(&mut self)
        requires handed { self.old.handed ≡ true }
        requires same { self.old.need ≡ machine.Any }
        ensures { self.new ≡ renewed machine.Any self.old }
    {
        take_alone(&mut self.row, &mut self.filled);
        self.is_handed = false;
    }

    /// The same where it had another need.
    fn any_now(&mut self)
        requires { self.old.handed ≡ true }
        ensures { self.new ≡ renewed machine.Any self.old }
    {
        empty_row_again(&mut self.row);
        self.need = KeptNeed::Any;
        self.filled = None;
        self.is_handed = false;
    }

    /// It has used what it gathered, and needs so many tokens at each place. After an `Err` it is as before.
    #[inline(always)]
    fn need_counts(&mut self, alloc: Global, counts: &Counts) -> Result<(), AllocError>
        requires handed { self.old.handed ≡ true }
        requires places { length counts.now ≡ length self.old.got }
        ensures renewed { OnOk result (self.new ≡ renewed (machine.Counts counts.now) self.old) }
        ensures kept { OnErr result (self.new ≡ self.old) }
    {
        if self.needs(counts) {
            return self.need_again(alloc, counts);
        }
        self.need_now(alloc, counts)
    }

    /// Whether it needs so many tokens already.
    #[inline(always)]
    fn needs(&self, counts: &Counts) -> bool
        ensures { result ≡ true → self.now.need ≡ machine.Counts counts.now }
    {
        is_kept(&self.need, counts)
    }

    /// It has used what it gathered, and needs the same again. After an `Err` it is as before.
    #[inline(always)]
    fn need_again(&mut self, alloc: Global, counts: &Counts) -> Result<(), AllocError>
        requires handed { self.old.handed ≡ true }
        requires places { length counts.now ≡ length self.old.got }
        requires same { self.old.need ≡ machine.Counts counts.now }
        ensures renewed { OnOk result (self.new ≡ renewed (machine.Counts counts.now) self.old) }
        ensures kept { OnErr result (self.new ≡ self.old) }
    {
        match self.need {
            KeptNeed::One => {
                take_alone(&mut self.row, &mut self.filled);
                self.is_handed = false;
                Ok(())
            }
            KeptNeed::Over | KeptNeed::Counts(_) | KeptNeed::Any => {
                make_rooms(alloc, &mut self.lines, self.is_barrier, counts.as_slice())?;
                self.full = 0;
                self.is_handed = false;
                Ok(())
            }
        }
    }

    /// It has used what it gathered, and has another need. After an `Err` it is as before.
    fn need_now(&mut self, alloc: Global, counts: &Counts) -> Result<(), AllocError>
        requires handed { self.old.handed ≡ true }
        requires places { length counts.now ≡ length self.old.got }
        ensures renewed { OnOk result (self.new ≡ renewed (machine.Counts counts.now) self.old) }
        ensures kept { OnErr result (self.new ≡ self.old) }
    {
        if is_one(counts.as_slice()) {
            self.one_now();
            return Ok(());
        }
        let copy = counts.copy(alloc)?;
        make_rooms(alloc, &mut self.lines, self.is_barrier, counts.as_slice())?;
        self.need = KeptNeed::Counts(copy);
        self.full = 0;
        self.is_handed = false;
        Ok(())
    }

    /// It has used what it gathered, and needs one token at its only place.
    fn one_now(&mut self)
        requires handed { self.old.handed ≡ true }
        requires place { length self.old.got ≡ 1 }
        ensures { self.new ≡ renewed (machine.Counts (1 ∷ [])) self.old }
    {
        empty_row_again(&mut self.row);
        self.need = KeptNeed::One;
        self.filled = None;
        self.is_handed = false;
    }

    /// It has these puts to make.
    fn stage(&mut self, puts: &mut VecDeque<StagedPut>)
        ensures { self.new ≡ with_puts (puts_in puts.old.items) self.old }
    {
        mem::swap(&mut self.puts, puts);
    }
}

/// Whether these counts are kept.
#[inline(always)]
fn is_kept(kept: &KeptNeed, counts: &Counts) -> bool
    ensures { result ≡ true → need_in kept.now ≡ machine.Counts counts.now }
{
    match kept {
        KeptNeed::Counts(kept) => are_same(kept.as_slice(), counts.as_slice()),
        KeptNeed::One => is_one(counts.as_slice()),
        KeptNeed::Over | KeptNeed::Any => false,
    }
}

/// Whether these counts are one token at one place.
#[inline(always)]
fn is_one(counts: &[usize]) -> bool
    ensures { result ≡ true → counts.now ≡ 1 ∷ [] }
{
    match counts {
        [count] => *count == 1,
        _ => false,
    }
}

/// The same need, without counts where it is one token at the only place.
fn narrowed(need: KeptNeed) -> KeptNeed
    ensures { need_in result ≡ need_in need }
{
    if is_one(counts_of(&need)) {
        return KeptNeed::One;
    }
    need
}

/// Whether these counts are the same. Where there is one or none, nothing is called for that.
#[inline(always)]
fn are_same(kept: &[usize], counts: &[usize]) -> bool
    ensures { result ≡ true → kept.now ≡ counts.now }
{
    match counts {
        [] => kept.is_empty(),
        [count] => match kept {
            [kept] => *kept == *count,
            _ => false,
        },
        _ => kept == counts,
    }
}

/// The counts of a need, or none.
pub(crate) fn counts_of(need: &KeptNeed) -> &[usize]
    ensures { result.now ≡ counts_in (need_in need.now) }
{
    match need {
        KeptNeed::Counts(counts) => counts.as_slice(),
        KeptNeed::One => &[1],
        KeptNeed::Over | KeptNeed::Any => &[],
    }
}

/// For so many tokens each place has room at least: of a Barrier, which takes a token at all places until none lacks one, for as many as any count says.
#[inline(always)]
pub(crate) fn least_room(is_barrier: bool, counts: &[usize]) -> usize
    ensures { IsLeast is_barrier counts.now result }
{
    if is_barrier { most_of(counts) } else { 0 }
}

/// The greatest of these counts.
pub(crate) fn most_of(counts: &[usize]) -> usize
    ensures { (r : ℕ) → get_or counts.now r 0 ≤ result }
{
    let mut most = 0usize;
    for count in counts {
        most = most.max(*count);
    }
    most
}

/// For so many tokens a place has room: its own count, and no less than all have.
#[inline(always)]
pub(crate) fn room_of(counts: &[usize], least: usize, place: usize) -> usize
    ensures { result ≡ max (get_or counts.now place 0) least }
{
    let places = counts.len();
    if place >= places {
        return least;
    }
    let count = counts[place];
    count.max(least)
}

/// Empties each place, and makes room there for as many tokens as it takes.
#[inline(always)]
fn make_rooms(
    alloc: Global,
    lines: &mut Vec<Line>,
    is_barrier: bool,
    counts: &[usize],
) -> Result<(), AllocError>
    ensures counted { length lines.new.items ≡ length lines.old.items }
    ensures rooms { OnOk result (HaveRoom is_barrier counts.now lines.new.items) }
{
    let least = least_room(is_barrier, counts);
    for place in 0..lines.len() {
        let room = room_of(counts, least, place);
        make_room(alloc, lines, place, room)?;
    }
    Ok(())
}

/// Empties one place, and makes room there for so many tokens.
#[inline(always)]
fn make_room(
    alloc: Global,
    lines: &mut Vec<Line>,
    place: usize,
    count: usize,
) -> Result<(), AllocError>
    requires { place < length lines.old.items }
    ensures counted { length lines.new.items ≡ length lines.old.items }
    ensures empty { OnOk result (at (lists_of lines.new.items) place ≡ []) }
    ensures room { OnOk result (count ≤ room_at lines.new.items place) }
    ensures others { OnOk result ((q : ℕ) → nat_eq place q ≡ false → (at (lists_of lines.new.items) q ≡ at (lists_of lines.old.items) q) × (room_at lines.new.items q ≡ room_at lines.old.items q)) }
{
    let line = &mut lines[place];
    empty(line);
    line.reserve(alloc, count)?;
    Ok(())
}

/// Empties a line. Most often it is empty, since its tokens were handed over.
#[inline(always)]
fn empty(line: &mut Line)
    ensures { line.new.list ≡ [] }
{
    if !line.is_empty() {
        line.clear();
    }
}

/// Empties each place.
fn empty_lines_again(lines: &mut Vec<Line>)
    ensures empty { (q : ℕ) → at (lists_of lines.new.items) q ≡ [] }
    ensures counted { length lines.new.items ≡ length lines.old.items }
{
    for place in 0..lines.len() {
        empty_line(lines, place);
    }
}

/// Empties one place.
fn empty_line(lines: &mut Vec<Line>, place: usize)
    requires { place < length lines.old.items }
    ensures empty { at (lists_of lines.new.items) place ≡ [] }
    ensures others { (q : ℕ) → nat_eq place q ≡ false → at (lists_of lines.new.items) q ≡ at (lists_of lines.old.items) q }
    ensures counted { length lines.new.items ≡ length lines.old.items }
{
    let line = &mut lines[place];
    line.clear();
}

/// Empties each list of a row.
fn empty_row_again(row: &mut Vec<Tokens>)
    ensures empty { (q : ℕ) → at row.new.items q ≡ [] }
    ensures counted { length row.new.items ≡ length row.old.items }
{
    for place in 0..row.len() {
        row[place] = Tokens::new();
    }
}

/// Takes away the token that is alone in a row.
#[inline(always)]
fn take_alone(row: &mut Vec<Tokens>, filled: &mut Option<usize>)
    requires { FilledAt filled.old row.old.items }
    ensures empty { (q : ℕ) → at row.new.items q ≡ [] }
    ensures counted { length row.new.items ≡ length row.old.items }
    ensures filled { filled.new ≡ None }
{
    empty_filled(row, *filled);
    *filled = None;
}

/// Empties the one list that is filled.
#[inline(always)]
fn empty_filled(row: &mut Vec<Tokens>, filled: Option<usize>)
    requires { FilledAt filled row.old.items }
    ensures empty { (q : ℕ) → at row.new.items q ≡ [] }
    ensures counted { length row.new.items ≡ length row.old.items }
{
    match filled {
        Some(place) => empty_at(row, place),
        None => {}
    }
}

/// Empties the list at a place, where all others are empty.
#[inline(always)]
fn empty_at(row: &mut Vec<Tokens>, place: usize)
    requires { FilledAt (Some place) row.old.items }
    ensures empty { (q : ℕ) → at row.new.items q ≡ [] }
    ensures counted { length row.new.items ≡ length row.old.items }
{
    row[place] = Tokens::new();
}

fn empty_row(alloc: Global, places: usize) -> Result<Vec<Tokens>, AllocError>
    ensures counted { IfOk result (λ row. length row.items ≡ places) }
    ensures empty { IfOk result (λ row. (q : ℕ) → at row.items q ≡ []) }
{
    let mut row = Vec::with_capacity(alloc, places)?;
    for _ in 0..places {
        row.push(Tokens::new())?;
    }
    Ok(row)
}

fn empty_lines(alloc: Global, places: usize) -> Result<Vec<Line>, AllocError>
    ensures { IfOk result (λ lines. length lines.items ≡ places) }
{
    let mut lines = Vec::with_capacity(alloc, places)?;
    for _ in 0..places {
        lines.push(Line::new())?;
    }
    Ok(lines)
}
