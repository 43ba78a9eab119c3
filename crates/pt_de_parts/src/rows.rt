ghost use Rattle.std.specs.Prelude.{◌≡◌, ℕ, ◌+◌, ◌-◌, ◌<◌, ◌≤◌, [], ◌∷◌, length, take, drop, true, false, IfOk, IsTrue, ◌↔◌};
ghost use Rattle.pt_meaning.specs.De as de;
ghost use Rattle.pt_meaning.specs.Streams.{at};
ghost use Rattle.pt_de_laws.specs.State.{rows_for, emptied_from};
ghost use Rattle.pt_reaction.specs.Channels.{lists_of};
ghost use Rattle.pt_de_parts.specs.Rows.{behind};

use pt_firing::{Inputs, Tokens};
use pt_reaction::{Channels, Line};
use std::alloc::{AllocError, Global};
use std::marker::Model;

/// The rows on which a child fires, one after another.
#[derive(Drop)]
pub struct Rows {
    // The row that is lent, and room for those of other children.
    row: Vec<Tokens>,
    // What came to each place of the child. The rows before the next were picked.
    lines: Vec<Line>,
    // How many places the child has.
    places: usize,
    // The number of the next row.
    number: usize,
    // How many rows are left.
    left: usize,
}

impl Model for Rows {
    ghost use Rattle.pt_value.specs.declared.token.Token.{Token};
    ghost use Rattle.pt_value.specs.Token.{coded_token};
    ghost use Rattle.pt_de_parts.specs.Rows.{Rowing, rowing_code, rows_in, AreRows};

    ghost Value = { Rowing Token };

    ghost coded = { rowing_code coded_token };

    ghost view = { rows_in };

    ghost invariant = { AreRows };
}

impl Rows {
    /// No rows, with room for children with so many places.
    pub fn new(alloc: Global, width: usize) -> Result<Rows, AllocError>
        ensures width { IfOk result (λ rows. rows.width ≡ width) }
        ensures rest { IfOk result (λ rows. rows.rest ≡ []) }
    {
        let row = no_tokens(alloc, width)?;
        let lines = no_lines(alloc, width)?;
        Ok(Rows {
            row,
            lines,
            places: 0,
            number: 0,
            left: 0,
        })
    }

    /// Takes what came to the places of a child, whose channels are those from one on to another, and goes to the first of its rows.
    #[inline(always)]
    pub fn take(&mut self, channels: &mut Channels, first: usize, end: usize, whole: bool)
        requires within { first ≤ end }
        requires room { end - first ≤ self.old.width }
        requires there { end ≤ length channels.old.lists }
        ensures rows { self.new.row ∷ self.new.rest ≡ rows_for whole (take (end - first) (drop first channels.old.lists)) }
        ensures width { self.new.width ≡ self.old.width }
        ensures left { channels.new.lists ≡ emptied_from first (end - first) channels.old.lists }
    {
        let places = end.saturating_sub(first);
        self.places = places;
        self.number = 0;
        if are_one_row(channels, first, end, whole) {
            self.left = 0;
            fill_row(&mut self.row, channels, first, end);
            return;
        }
        fill(&mut self.lines, channels, first, end);
        self.left = 1usize.max(longest(&self.lines, places));
        self.go_on();
    }

    /// Goes to the next row.
    pub fn go_on(&mut self)
        requires { 0 < length self.old.rest }
        ensures rows { self.new.row ∷ self.new.rest ≡ self.old.rest }
        ensures width { self.new.width ≡ self.old.width }
    {
        pick_all(&mut self.row, &mut self.lines, self.places, self.number);
        self.number += 1;
        self.left -= 1;
    }

    /// Whether there are more rows.
    pub fn has_more(&self) -> bool
        ensures { IsTrue result ↔ (0 < length self.now.rest) }
    {
        self.left > 0
    }

    /// The row.
    pub fn lent(&self) -> Inputs<'_>
        ensures { result ≡ self.now.row }
    {
        Inputs::of(&self.row[..self.places])
    }

    pub fn copy(&self, alloc: Global) -> Result<Rows, AllocError>
        ensures { IfOk result (λ rows. rows ≡ self.now) }
    {
        let row = copies_of_tokens(alloc, &self.row)?;
        let lines = copies_of_lines(alloc, &self.lines)?;
        Ok(Rows {
            row,
            lines,
            places: self.places,
            number: self.number,
            left: self.left,
        })
    }
}

/// Takes the tokens of the channels from one on to another.
fn fill(lines: &mut Vec<Line>, channels: &mut Channels, first: usize, end: usize)
    requires within { first ≤ end }
    requires room { end - first ≤ length lines.old.items }
    requires there { end ≤ length channels.old.lists }
    ensures lines { lists_of (take (end - first) lines.new.items) ≡ take (end - first) (drop first channels.old.lists) }
    ensures same { length lines.new.items ≡ length lines.old.items }
    ensures left { channels.new.lists ≡ emptied_from first (end - first) channels.old.lists }
{
    for channel in first..end {
        let line = channels.take(channel);
        lines[channel - first] = line;
    }
}

/// Whether what came to the channels from one on to another is one row.
#[inline(always)]
fn are_one_row(channels: &Channels, first: usize, end: usize, whole: bool) -> bool
    requires { end ≤ length channels.now.lists }
    ensures one { let came = take (end - first) (drop first channels.now.lists) in result ≡ true → rows_for whole came ≡ came ∷ [] }
    ensures apart { result ≡ false → whole ≡ false }
{
    whole || are_single(channels, first, end)
}

/// Whether each channel from one on to another has one token at most.
#[inline(always)]
fn are_single(channels: &Channels, first: usize, end: usize) -> bool
    requires { end ≤ length channels.now.lists }
    ensures { IsTrue result ↔ ((channel : ℕ) → first ≤ channel → channel < end → length (at channels.now.lists channel) ≤ 1) }
{
    for channel in first..end {
        if !channels.is_single(channel) {
            return false;
        }
    }
    true
}

/// Takes all tokens of the channels from one on to another as the row.
#[inline(always)]
fn fill_row(row: &mut Vec<Tokens>, channels: &mut Channels, first: usize, end: usize)
    requires within { first ≤ end }
    requires room { end - first ≤ length row.old.items }
    requires there { end ≤ length channels.old.lists }
    ensures row { take (end - first) row.new.items ≡ take (end - first) (drop first channels.old.lists) }
    ensures rows { length row.new.items ≡ length row.old.items }
    ensures left { channels.new.lists ≡ emptied_from first (end - first) channels.old.lists }
{
    for channel in first..end {
        let tokens = channels.take_list(channel);
        row[channel - first] = tokens;
    }
}

/// Picks the token at a number of each of so many lines as the row, where those before it were picked.
fn pick_all(row: &mut Vec<Tokens>, lines: &mut Vec<Line>, places: usize, number: usize)
    requires same { length row.old.items ≡ length lines.old.items }
    requires room { places ≤ length lines.old.items }
    ensures row { take places row.new.items ≡ de.heads (behind number (lists_of (take places lines.old.items))) }
    ensures left { behind (number + 1) (lists_of (take places lines.new.items)) ≡ de.tails (behind number (lists_of (take places lines.old.items))) }
    ensures rows { length row.new.items ≡ length row.old.items }
    ensures lines { length lines.new.items ≡ length lines.old.items }
{
    for place in 0..places {
        let tokens = lines[place].pick(number);
        row[place] = tokens;
    }
}

/// The length of the longest of so many lines.
fn longest(lines: &[Line], places: usize) -> usize
    requires { places ≤ length lines.now }
    ensures { result ≡ de.longest (lists_of (take places lines.now)) }
{
    let mut most = 0usize;
    for place in (0..places).rev() {
        let count = lines[place].len();
        most = count.max(most);
    }
    most
}

fn no_tokens(alloc: Global, count: usize) -> Result<Vec<Tokens>, AllocError>
    ensures { IfOk result (λ row. length row.items ≡ count) }
{
    let mut row = Vec::with_capacity(alloc, count)?;
    for _ in 0..count {
        row.push(Tokens::new())?;
    }
    Ok(row)
}

fn no_lines(alloc: Global, count: usize) -> Result<Vec<Line>, AllocError>
    ensures { IfOk result (λ lines. length lines.items ≡ count) }
{
    let mut lines = Vec::with_capacity(alloc, count)?;
    for _ in 0..count {
        lines.push(Line::new())?;
    }
    Ok(lines)
}

fn copies_of_tokens(alloc: Global, row: &[Tokens]) -> Result<Vec<Tokens>, AllocError>
    ensures { IfOk result (λ copies. copies.items ≡ row.now) }
{
    let mut copies = Vec::with_capacity(alloc, row.len())?;
    for tokens in row {
        let copy = tokens.copy(alloc)?;
        copies.push(copy)?;
    }
    Ok(copies)
}

fn copies_of_lines(alloc: Global, lines: &[Line]) -> Result<Vec<Line>, AllocError>
    ensures { IfOk result (λ copies. lists_of copies.items ≡ lists_of lines.now) }
{
    let mut copies = Vec::with_capacity(alloc, lines.len())?;
    for line in lines {
        let copy = line.copy(alloc)?;
        copies.push(copy)?;
    }
    Ok(copies)
}
