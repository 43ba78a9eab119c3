ghost use Rattle.std.specs.Prelude.{◌≡◌, ℕ, ◌<◌, ◌≤◌, ◌+◌, [], ◌∷◌, length, map, set, take, drop, get_or, slice_get, option_map, true, false, IfOk, IfSome, OnOk, OnErr, Some};
ghost use Rattle.pt_meaning.specs.Streams.{at};
ghost use Rattle.pt_meaning.specs.Process.{lacking};
ghost use Rattle.pt_reaction.specs.Channels.{lists_of};
ghost use Rattle.pt_value.specs.declared.token.Token.TheVariants.{Int};
ghost use Rattle.pt_puts.specs.Puts.{PutsFirst, puts_in};
ghost use Rattle.pt_process.specs.Process.{event_by, lacks_one, alone_in};

use crate::need::KeptNeed;
use pt_firing::{Counts, Inputs, Tokens};
use pt_puts::{StagedPut, first_put};
use pt_reaction::Line;
use pt_value::Token;
use std::alloc::{AllocError, Global};
use std::collections::VecDeque;
use std::marker::Model;

/// What a process does next.
#[derive(Clone, Copy, Debug)]
pub enum Event {
    /// It puts on this channel.
    Put(u32),
    /// It gets at this place.
    Get(usize),
    Fire,
    Over,
}

/// A process of a network: what it needs, what it has gathered, and what it has still to put.
#[derive(Drop)]
pub struct Process {
    pub(crate) need: KeptNeed,
    /// What is gathered at each place, with room for all that is needed.
    pub(crate) lines: Vec<Line>,
    /// The same once it is handed over. One token at the only place is gathered here, so that it isn't moved, and stays
    /// here once it is used, until the next is put over it.
    pub(crate) row: Vec<Tokens>,
    pub(crate) is_handed: bool,
    /// So many places at the front lack nothing.
    pub(crate) full: usize,
    pub(crate) puts: VecDeque<StagedPut>,
}

impl Model for Process {
    ghost use Rattle.pt_process.specs.Process.{Standing, coded_standing, seen_process, IsSound};

    ghost Value = { Standing };

    ghost coded = { coded_standing };

    ghost view = { seen_process };

    ghost invariant = { IsSound };
}

impl Process {
    ghost use Rattle.std.specs.Prelude.{◌≡◌, ◌<◌, [], length, slice_get, true, false, Some};
    ghost use Rattle.pt_pn_laws.specs.State.{lacking_place};
    ghost use Rattle.pt_value.specs.declared.token.Token.TheVariants.{Int};
    ghost use Rattle.pt_process.specs.Process.{DoesNext, with_token, with_put_made, with_handed};
    ghost use Rattle.pt_puts.specs.Puts.{PutsFirst, put_of};

    /// What it does next.
    #[inline(always)]
    pub fn next(&mut self) -> Event
        requires { self.old.handed ≡ false }
        ensures same { self.new ≡ self.old }
        ensures next { DoesNext self.old result }
    {
        match first_put(&self.puts) {
            Some(channel) => Event::Put(channel),
            None => self.next_of_need(),
        }
    }

    /// The same where it has no put to make.
    #[inline(always)]
    fn next_of_need(&mut self) -> Event
        requires gathers { self.old.handed ≡ false }
        requires none { self.old.puts ≡ [] }
        ensures same { self.new ≡ self.old }
        ensures next { DoesNext self.old result }
    {
        match &self.need {
            KeptNeed::Over => Event::Over,
            KeptNeed::Counts(counts) => next_by(counts, &self.lines, &mut self.full),
            KeptNeed::One => one_event(self.full),
        }
    }

    /// The channel of its next put, if it has one.
    pub fn next_put(&self) -> Option<u32>
        ensures { PutsFirst self.now.puts result }
    {
        first_put(&self.puts)
    }

    /// Takes a token at the place that lacks one. It takes no memory.
    #[inline(always)]
    pub fn get(&mut self, place: usize, token: Token)
        requires gathers { self.old.handed ≡ false }
        requires lacks { lacking_place self.old.need self.old.got ≡ Some place }
        ensures { self.new ≡ with_token place token self.old }
    {
        match self.need {
            KeptNeed::Over | KeptNeed::Counts(_) => {
                let line = &mut self.lines[place];
                line.put(token);
            }
            KeptNeed::One => {
                put_alone(&mut self.row, place, token);
                self.full = 1;
            }
        }
    }

    /// Takes an integer at the place that lacks a token. It takes no memory. Where an integer that is used lies there, it is put over that.
    #[inline(always)]
    pub fn get_number(&mut self, place: usize, number: i64)
        requires gathers { self.old.handed ≡ false }
        requires lacks { lacking_place self.old.need self.old.got ≡ Some place }
        ensures { self.new ≡ with_token place (Int number) self.old }
    {
        match self.need {
            KeptNeed::Over | KeptNeed::Counts(_) => {
                let line = &mut self.lines[place];
                line.put(Token::Int(number));
            }
            KeptNeed::One => {
                put_number_alone(&mut self.row, place, number);
                self.full = 1;
            }
        }
    }

    /// Takes out its next put.
    #[inline(always)]
    pub fn put(&mut self) -> StagedPut
        requires { 0 < length self.old.puts }
        ensures put { slice_get self.old.puts 0 ≡ Some (put_of result) }
        ensures left { self.new ≡ with_put_made self.old }
    {
        match self.puts.pop_front() {
            Some(put) => put,
            None => unreachable!(),
        }
    }

    /// Hands over what it has gathered, so that it can be lent. It takes no memory.
    #[inline(always)]
    pub fn hand(&mut self)
        requires { self.old.handed ≡ false }
        ensures { self.new ≡ with_handed self.old }
    {
        match self.need {
            KeptNeed::Over | KeptNeed::Counts(_) => {
                hand_over(&mut self.lines, &mut self.row);
                self.is_handed = true;
            }
            KeptNeed::One => {
                let_go_of_used(&mut self.row, self.full);
                self.is_handed = true;
            }
        }
    }

    /// What it has gathered.
    pub fn lent(&self) -> Inputs<'_>
        requires { self.now.handed ≡ true }
        ensures { result ≡ self.now.got }
    {
        Inputs::of(&self.row)
    }
}

/// What a process does next that needs so many tokens, and has no put to make.
fn next_by(counts: &Counts, lines: &[Line], full: &mut usize) -> Event
    requires counted { length counts.now ≡ length lines.now }
    requires full { (q : ℕ) → q < full.old → get_or counts.now q 0 ≤ length (at (lists_of lines.now) q) }
    ensures next { result ≡ event_by (lacking 0 counts.now (lists_of lines.now)) }
    ensures full { (q : ℕ) → q < full.new → get_or counts.now q 0 ≤ length (at (lists_of lines.now) q) }
{
    let lacks = lacking_of(counts.as_slice(), lines, full);
    event_of(lacks)
}

fn event_of(lacks: Option<usize>) -> Event
    ensures { result ≡ event_by lacks }
{
    match lacks {
        Some(place) => Event::Get(place),
        None => Event::Fire,
    }
}

/// What comes of the only place, which needs one token.
#[inline(always)]
fn one_event(full: usize) -> Event
    ensures { result ≡ event_by (lacks_one full) }
{
    if full == 0 {
        return Event::Get(0);
    }
    Event::Fire
}

/// A token is alone at its place of a row.
#[inline(always)]
fn put_alone(row: &mut Vec<Tokens>, place: usize, token: Token)
    requires { place < length row.old.items }
    ensures { row.new.items ≡ set row.old.items place (token ∷ []) }
{
    row[place] = Tokens::one(token);
}

/// The same of an integer, which is put over the token that lies there.
#[inline(always)]
fn put_number_alone(row: &mut Vec<Tokens>, place: usize, number: i64)
    requires { place < length row.old.items }
    ensures { row.new.items ≡ set row.old.items place (Int number ∷ []) }
{
    row[place].set_number(number);
}

/// Empties the only place, where the token that lies there is used.
#[inline(always)]
fn let_go_of_used(row: &mut Vec<Tokens>, full: usize)
    requires { length row.old.items ≡ 1 }
    ensures { row.new.items ≡ alone_in full row.old.items }
{
    if full > 0 {
        return;
    }
    row[0] = Tokens::new();
}

/// The first place that lacks a token, where so many at the front lack nothing. As many are found to lack nothing then.
#[inline(always)]
fn lacking_of(counts: &[usize], lines: &[Line], full: &mut usize) -> Option<usize>
    requires counted { length counts.now ≡ length lines.now }
    requires full { (q : ℕ) → q < full.old → get_or counts.now q 0 ≤ length (at (lists_of lines.now) q) }
    ensures place { result ≡ lacking 0 counts.now (lists_of lines.now) }
    ensures full { (q : ℕ) → q < full.new → get_or counts.now q 0 ≤ length (at (lists_of lines.now) q) }
{
    for place in *full..counts.len() {
        let have = lines[place].len();
        let count = counts[place];
        if have < count {
            *full = place;
            return Some(place);
        }
    }
    *full = counts.len();
    None
}

/// Moves the tokens of each place into a row.
#[inline(always)]
fn hand_over(lines: &mut Vec<Line>, row: &mut Vec<Tokens>)
    requires { length row.old.items ≡ length lines.old.items }
    ensures row { row.new.items ≡ lists_of lines.old.items }
    ensures lines { length lines.new.items ≡ length lines.old.items }
{
    for place in 0..lines.len() {
        let line = &mut lines[place];
        let tokens = line.take();
        row[place] = tokens;
    }
}
