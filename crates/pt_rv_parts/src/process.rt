ghost use Rattle.std.specs.Prelude.{◌≡◌, ℕ, ◌+◌, ◌<◌, ◌≤◌, [], ◌∷◌, ◌++◌, nat_eq, length, get_or, set, false, Some};
ghost use Rattle.pt_meaning.specs.Streams.{at, change_at};
ghost use Rattle.pt_meaning.specs.Process.{lacking};
ghost use Rattle.pt_reaction.specs.Channels.{lists_of};
ghost use Rattle.pt_puts.specs.Puts.{PutsFirst, puts_in};
ghost use Rattle.pt_puts.specs.Lines.{room_at};
ghost use Rattle.pt_rv_parts.specs.Process.{event_by, any_event_by, lacks_one};

use pt_firing::{Inputs, Tokens};
use pt_puts::{KeptNeed, StagedPut, first_put};
use pt_reaction::Line;
use pt_value::Token;
use std::collections::VecDeque;
use std::marker::Model;

/// What a process does next.
#[derive(Clone, Copy, Debug)]
pub enum Event {
    /// It puts on this channel.
    Put(u32),
    /// It gets at this place.
    Get(usize),
    /// It gets at any place.
    GetAny,
    /// It joins in a Barrier's meeting.
    Join,
    Fire,
    Over,
}

impl Event {
    ghost use Rattle.std.specs.Prelude.{◌≡◌};
    ghost use Rattle.pt_rv_parts.specs.Process.{fires_by, gets_by, joins_by};

    #[inline(always)]
    pub fn is_fire(self) -> bool
        ensures { result ≡ fires_by self }
    {
        match self {
            Event::Fire => true,
            Event::Put(_) | Event::Get(_) | Event::GetAny | Event::Join | Event::Over => false,
        }
    }

    /// Whether it gets at this place.
    #[inline(always)]
    pub fn is_get(self, place: usize) -> bool
        ensures { result ≡ gets_by self place }
    {
        match self {
            Event::Get(at) => at == place,
            Event::GetAny => true,
            Event::Put(_) | Event::Join | Event::Fire | Event::Over => false,
        }
    }

    pub fn is_join(self) -> bool
        ensures { result ≡ joins_by self }
    {
        match self {
            Event::Join => true,
            Event::Put(_) | Event::Get(_) | Event::GetAny | Event::Fire | Event::Over => false,
        }
    }
}

/// A process of a Rendezvous composite: what it needs, what it has gathered, and what it has still to put.
#[derive(Drop)]
pub struct Process {
    pub(crate) is_barrier: bool,
    pub(crate) need: KeptNeed,
    /// What is gathered by counts, with room for all of it.
    pub(crate) lines: Vec<Line>,
    /// The same once it is handed over. Where one token will do, at the only place or at any, it is gathered here, so that it isn't moved.
    pub(crate) row: Vec<Tokens>,
    pub(crate) is_handed: bool,
    /// So many places at the front lack nothing.
    pub(crate) full: usize,
    /// The place that has a token, where one will do.
    pub(crate) filled: Option<usize>,
    pub(crate) puts: VecDeque<StagedPut>,
}

impl Model for Process {
    ghost use Rattle.pt_value.specs.declared.token.Token.{Token};
    ghost use Rattle.pt_rv_work.specs.Core.{Standing};
    ghost use Rattle.pt_rv_parts.specs.Codes.{coded_standing};
    ghost use Rattle.pt_rv_parts.specs.Process.{seen_process, IsSound};

    ghost Value = { Standing Token };

    ghost coded = { coded_standing };

    ghost view = { seen_process };

    ghost invariant = { IsSound };
}

impl Process {
    ghost use Rattle.std.specs.Prelude.{◌≡◌, ◌<◌, [], length, slice_get, true, false, not, Some};
    ghost use Rattle.pt_meaning.specs.Machine.{Any};
    ghost use Rattle.pt_meaning.specs.Process.{at_rest};
    ghost use Rattle.pt_puts.specs.Puts.{PutsFirst, put_of};
    ghost use Rattle.pt_rv_work.specs.Core.{next_of, with_token, with_put_made, with_handed};
    ghost use Rattle.pt_rv_parts.specs.Process.{DoesNext, MayTake};

    /// What it does next.
    #[inline(always)]
    pub fn next(&mut self) -> Event
        requires { self.old.handed ≡ false }
        ensures same { self.new ≡ self.old }
        ensures next { DoesNext self.old result }
    {
        match first_put(&self.puts) {
            Some(channel) => Event::Put(channel),
            None => self.next_of_need(),
        }
    }

    /// The same where it has no put to make.
    #[inline(always)]
    fn next_of_need(&mut self) -> Event
        requires gathers { self.old.handed ≡ false }
        requires none { self.old.puts ≡ [] }
        ensures same { self.new ≡ self.old }
        ensures next { DoesNext self.old result }
    {
        match &self.need {
            KeptNeed::Over => Event::Over,
            KeptNeed::Counts(counts) => event_of(
                self.is_barrier,
                lacking_of(counts.as_slice(), &self.lines, &mut self.full),
            ),
            KeptNeed::One => one_event(self.is_barrier, self.filled),
            KeptNeed::Any => any_event(self.filled),
        }
    }

    /// Whether it may fire.
    #[inline(always)]
    pub fn is_firing(&mut self) -> bool
        requires { self.old.handed ≡ false }
        ensures same { self.new ≡ self.old }
        ensures rests { at_rest (next_of self.old) ≡ not result }
    {
        let event = self.next();
        event.is_fire()
    }

    /// The channel of its next put, if it has one.
    #[inline(always)]
    pub fn next_put(&self) -> Option<u32>
        ensures { PutsFirst self.now.puts result }
    {
        first_put(&self.puts)
    }

    /// Takes a token at a place. It takes no memory.
    #[inline(always)]
    pub fn get(&mut self, place: usize, token: Token)
        requires { MayTake self.old place }
        ensures { self.new ≡ with_token place token self.old }
    {
        match self.need {
            KeptNeed::Over => unreachable!(),
            KeptNeed::Counts(_) => put_in_line(&mut self.lines, place, token),
            KeptNeed::One => put_alone(&mut self.row, &mut self.filled, place, token),
            KeptNeed::Any => self.get_any(place, token),
        }
    }

    /// The same of a process that needs one token from any place.
    fn get_any(&mut self, place: usize, token: Token)
        requires may { MayTake self.old place }
        requires any { self.old.need ≡ Any }
        ensures { self.new ≡ with_token place token self.old }
    {
        put_alone(&mut self.row, &mut self.filled, place, token);
    }

    /// Takes out its next put.
    #[inline(always)]
    pub fn put(&mut self) -> StagedPut
        requires { 0 < length self.old.puts }
        ensures put { slice_get self.old.puts 0 ≡ Some (put_of result) }
        ensures left { self.new ≡ with_put_made self.old }
    {
        match self.puts.pop_front() {
            Some(put) => put,
            None => unreachable!(),
        }
    }

    /// Hands over what it has gathered, so that it can be lent. It takes no memory.
    #[inline(always)]
    pub fn hand(&mut self)
        requires { self.old.handed ≡ false }
        ensures { self.new ≡ with_handed self.old }
    {
        match self.need {
            KeptNeed::Over | KeptNeed::Counts(_) => {
                hand_over(&mut self.lines, &mut self.row);
                self.is_handed = true;
            }
            KeptNeed::One | KeptNeed::Any => self.is_handed = true,
        }
    }

    /// What it has gathered.
    pub fn lent(&self) -> Inputs<'_>
        requires { self.now.handed ≡ true }
        ensures { result ≡ self.now.got }
    {
        Inputs::of(&self.row)
    }
}

/// What comes of the first place that lacks a token.
#[inline(always)]
fn event_of(is_barrier: bool, lacks: Option<usize>) -> Event
    ensures { result ≡ event_by is_barrier lacks }
{
    match lacks {
        Some(place) => {
            if is_barrier {
                Event::Join
            } else {
                Event::Get(place)
            }
        }
        None => Event::Fire,
    }
}

/// What comes of the only place, which needs one token.
#[inline(always)]
fn one_event(is_barrier: bool, filled: Option<usize>) -> Event
    ensures { result ≡ event_by is_barrier (lacks_one filled) }
{
    match filled {
        Some(_) => event_of(is_barrier, None),
        None => event_of(is_barrier, Some(0)),
    }
}

/// What comes where any token will do.
#[inline(always)]
fn any_event(filled: Option<usize>) -> Event
    ensures { result ≡ any_event_by filled }
{
    match filled {
        Some(_) => Event::Fire,
        None => Event::GetAny,
    }
}

/// The first place that lacks a token, where so many at the front lack nothing. As many are found to lack nothing then.
#[inline(always)]
fn lacking_of(counts: &[usize], lines: &[Line], full: &mut usize) -> Option<usize>
    requires counted { length counts.now ≡ length lines.now }
    requires full { (q : ℕ) → q < full.old → get_or counts.now q 0 ≤ length (at (lists_of lines.now) q) }
    ensures place { result ≡ lacking 0 counts.now (lists_of lines.now) }
    ensures full { (q : ℕ) → q < full.new → get_or counts.now q 0 ≤ length (at (lists_of lines.now) q) }
{
    for place in *full..counts.len() {
        let have = lines[place].len();
        let count = counts[place];
        if have < count {
            *full = place;
            return Some(place);
        }
    }
    *full = counts.len();
    None
}

/// A token is alone in a row of places.
#[inline(always)]
fn put_alone(row: &mut Vec<Tokens>, filled: &mut Option<usize>, place: usize, token: Token)
    requires { place < length row.old.items }
    ensures row { row.new.items ≡ set row.old.items place (token ∷ []) }
    ensures filled { filled.new ≡ Some place }
{
    row[place] = Tokens::one(token);
    *filled = Some(place);
}

/// Puts a token behind the others of a place that has room.
#[inline(always)]
fn put_in_line(lines: &mut Vec<Line>, place: usize, token: Token)
    requires there { place < length lines.old.items }
    requires room { 0 < room_at lines.old.items place }
    ensures lists { lists_of lines.new.items ≡ change_at place (λ xs. xs ++ token ∷ []) (lists_of lines.old.items) }
    ensures counted { length lines.new.items ≡ length lines.old.items }
    ensures room { room_at lines.new.items place + 1 ≡ room_at lines.old.items place }
    ensures others { (q : ℕ) → nat_eq place q ≡ false → room_at lines.new.items q ≡ room_at lines.old.items q }
{
    let line = &mut lines[place];
    line.put(token);
}

/// Moves the tokens of each place into a row.
#[inline(always)]
fn hand_over(lines: &mut Vec<Line>, row: &mut Vec<Tokens>)
    requires { length row.old.items ≡ length lines.old.items }
    ensures row { row.new.items ≡ lists_of lines.old.items }
    ensures lines { length lines.new.items ≡ length lines.old.items }
{
    for place in 0..lines.len() {
        let line = &mut lines[place];
        let tokens = line.take();
        row[place] = tokens;
    }
}
