ghost use Rattle.std.specs.Prelude.{◌≡◌, ◌<◌, length, get_or, set, true, false, Some};
ghost use Rattle.pt_pn.specs.Noted.{rank_of};

use crate::marks::Marks;
use crate::worklist::Worklist;
use pt_core::Source;
use pt_process::Network;
use pt_time::Tag;
use pt_wakes::Wakes;
use std::alloc::{AllocError, Global};
use std::marker::Model;

/// The number of no process.
const NOBODY: u32 = u32::MAX;

/// What is noted of processes: which were looked at and are stopped since then, and on which channels they wait. So an event wakes only the process that waits for it, and that all are stopped is known without a walk.
#[derive(Drop)]
pub(crate) struct Notes {
    /// Which processes were looked at, and are stopped since then, and which of them have no put to make.
    marks: Marks,
    /// On which channels a process waits for a token, and on which for room.
    tokens: Vec<bool>,
    rooms: Vec<bool>,
    /// The process that puts on each channel, if one does.
    writers: Vec<u32>,
    /// The process that gets from each channel that ends at one.
    readers: Vec<u32>,
    /// The rank of each channel on which a process waits for room. One that isn't waited for any more, or has grown, may keep its old one.
    ranks: Wakes,
    worklist: Worklist,
}

impl Model for Notes {
    ghost use Rattle.pt_pn.specs.Noted.{Noted, coded_noted, seen_notes};

    ghost Value = { Noted };

    ghost coded = { coded_noted };

    ghost view = { seen_notes };
}

impl Notes {
    ghost use Rattle.std.specs.Prelude.{◌≡◌, ℕ, ◌<◌, length, get_or, true, false, IfOk};
    ghost use Rattle.pt_pn.specs.Noted.{AreNone, awake, token_came, room_came, IsTokenNoted, IsRoomNoted, at_end, ranked};
    ghost use Rattle.pt_meaning.specs.Tag.{least};

    /// The notes on a network of which no process was looked at: each stands in the worklist.
    pub(crate) fn new(alloc: Global, network: &Network) -> Result<Notes, AllocError>
        ensures { IfOk result (λ notes. AreNone (length network.now.plan.net.places) notes) }
    {
        let marks = Marks::new(alloc, network.processes())?;
        Ok(Notes {
            marks,
            tokens: vec![in alloc; false; network.channels()]?,
            rooms: vec![in alloc; false; network.channels()]?,
            writers: writers_of(alloc, network)?,
            readers: readers_of(alloc, network)?,
            ranks: no_ranks(alloc, network.channels())?,
            worklist: Worklist::new(alloc, network.processes())?,
        })
    }

    /// At most so many processes are looked at next.
    pub(crate) fn len(&self) -> usize {
        self.worklist.len()
    }

    /// Takes the process that is looked at next.
    pub(crate) fn take(&mut self) -> Option<u32>
        ensures { self.new ≡ self.old }
    {
        self.worklist.take()
    }

    /// Whether each process was looked at, and is stopped since then.
    pub(crate) fn are_settled(&self) -> bool
        ensures { result ≡ true → (i : ℕ) → i < length self.now.settled → get_or self.now.settled i false ≡ true }
    {
        self.marks.are_settled()
    }

    /// Whether no process has a put to make, as far as is noted.
    pub(crate) fn are_resting(&self) -> bool
        ensures { result ≡ true → (i : ℕ) → i < length self.now.resting → get_or self.now.resting i false ≡ true }
    {
        self.marks.are_resting()
    }

    /// A process has made an event, or has fired: it is looked at next.
    pub(crate) fn note(&mut self, process: u32)
        ensures { self.new ≡ awake process self.old }
    {
        self.marks.wake(process as usize);
        self.worklist.note(process);
    }

    /// A process has made an event: it isn't noted as stopped.
    #[inline(always)]
    fn unsettle(&mut self, process: u32)
        ensures { self.new ≡ awake process self.old }
    {
        self.marks.wake(process as usize);
    }

    /// A process is looked at next.
    pub(crate) fn look_again(&mut self, process: u32)
        ensures { self.new ≡ self.old }
    {
        self.worklist.note(process);
    }

    /// A process that waited may go on.
    fn wake(&mut self, process: u32)
        ensures { self.new ≡ awake process self.old }
    {
        if self.marks.wake(process as usize) {
            self.worklist.wake(process);
        }
    }

    /// A channel has a token more: the process that waits for it may go on.
    pub(crate) fn note_token(&mut self, channel: u32)
        ensures { self.new ≡ token_came channel self.old }
    {
        if !ends_wait(&mut self.tokens, channel) {
            return;
        }
        let reader = process_at(&self.readers, channel);
        self.wake(reader);
    }

    /// A channel has more room: the process that waits for it may go on.
    pub(crate) fn note_room(&mut self, channel: u32)
        ensures { self.new ≡ room_came channel self.old }
    {
        if !ends_wait(&mut self.rooms, channel) {
            return;
        }
        let writer = process_at(&self.writers, channel);
        self.wake(writer);
    }

    /// A process has put on a channel.
    #[inline(always)]
    pub(crate) fn note_put(&mut self, process: u32, channel: u32)
        ensures { self.new ≡ awake process (token_came channel self.old) }
    {
        self.note_token(channel);
        self.unsettle(process);
    }

    /// A process has got from a channel.
    #[inline(always)]
    pub(crate) fn note_get(&mut self, process: u32, channel: u32)
        ensures { self.new ≡ awake process (room_came channel self.old) }
    {
        self.note_room(channel);
        self.unsettle(process);
    }

    /// A process is stopped, since it waits for a token on a channel. Nothing is noted of one that doesn't get from there.
    pub(crate) fn await_token(&mut self, process: u32, channel: u32)
        ensures { IsTokenNoted process channel self.old self.new }
    {
        if channel as usize >= self.tokens.len() || process_at(&self.readers, channel) != process {
            return;
        }
        self.tokens[channel as usize] = true;
        self.marks.rest(process as usize);
    }

    /// A process is stopped, since it waits for room on a channel of this capacity. Nothing is noted of one that doesn't put there.
    pub(crate) fn await_room(&mut self, process: u32, channel: u32, capacity: usize)
        ensures { IsRoomNoted process channel capacity self.old self.new }
    {
        let number = channel as usize;
        if number >= self.rooms.len() || number >= self.ranks.len() {
            return;
        }
        if process_at(&self.writers, channel) != process {
            return;
        }
        self.rooms[number] = true;
        self.marks.wait(process as usize);
        set_rank(&mut self.ranks, channel, capacity);
    }

    /// The least of the ranks that are noted.
    pub(crate) fn least(&self) -> Option<Tag>
        ensures { result ≡ least self.now.ranks }
    {
        self.ranks.least()
    }

    /// In so many turns each rank is looked at, and then the least.
    pub(crate) fn turns(&self) -> usize {
        self.ranks.len().saturating_add(1)
    }

    /// The process that puts on a channel, if one does.
    pub(crate) fn writer(&self, channel: u32) -> u32
        ensures { result ≡ get_or self.now.writers channel 0 }
    {
        process_at(&self.writers, channel)
    }

    /// A channel has the rank of this capacity, or none.
    pub(crate) fn note_rank(&mut self, channel: u32, capacity: Option<usize>)
        ensures { self.new ≡ ranked capacity channel self.old }
    {
        if channel as usize >= self.ranks.len() {
            return;
        }
        self.ranks.set(channel as usize, rank_of(channel, capacity));
    }

    /// A process is stopped, since it is over.
    pub(crate) fn rest(&mut self, process: u32)
        ensures { self.new ≡ at_end process self.old }
    {
        self.marks.rest(process as usize);
    }

    /// The same again.
    pub(crate) fn copy(&self, alloc: Global) -> Result<Notes, AllocError>
        ensures { IfOk result (λ notes. notes ≡ self.now) }
    {
        let marks = self.marks.copy(alloc)?;
        Ok(Notes {
            marks,
            tokens: Vec::from_slice(alloc, &self.tokens)?,
            rooms: Vec::from_slice(alloc, &self.rooms)?,
            writers: Vec::from_slice(alloc, &self.writers)?,
            readers: Vec::from_slice(alloc, &self.readers)?,
            ranks: self.ranks.copy(alloc)?,
            worklist: self.worklist.copy(alloc)?,
        })
    }
}

/// Whether a process waited on a channel, which it does no more.
fn ends_wait(waited: &mut Vec<bool>, channel: u32) -> bool
    ensures was { result ≡ get_or waited.old.items channel false }
    ensures ends { waited.new.items ≡ set waited.old.items channel false }
{
    if channel as usize >= waited.len() {
        return false;
    }
    let was = waited[channel as usize];
    waited[channel as usize] = false;
    was
}

/// The rank of a channel of this capacity, if it has one: that of less capacity is less, and of channels of the same capacity that of less number.
fn rank_of(channel: u32, capacity: Option<usize>) -> Option<Tag>
    ensures { result ≡ rank_of capacity channel }
{
    match capacity {
        Some(capacity) => Some(Tag {
            time: capacity as u64,
            step: channel,
        }),
        None => None,
    }
}

/// A channel has the rank of this capacity. Where it has it already, nothing is written.
fn set_rank(ranks: &mut Wakes, channel: u32, capacity: usize)
    requires { channel < length ranks.old }
    ensures { ranks.new ≡ set ranks.old channel (rank_of (Some capacity) channel) }
{
    if is_of(ranks.get(channel as usize), channel, capacity) {
        return;
    }
    ranks.set(channel as usize, rank_of(channel, Some(capacity)));
}

/// Whether a rank is that of a channel of this capacity.
fn is_of(rank: Option<Tag>, channel: u32, capacity: usize) -> bool
    ensures { result ≡ true → rank ≡ rank_of (Some capacity) channel }
{
    match rank {
        Some(rank) => rank.time == capacity as u64 && rank.step == channel,
        None => false,
    }
}

/// No rank for each of so many channels.
fn no_ranks(alloc: Global, channels: usize) -> Result<Wakes, AllocError> {
    let ranks: Vec<Option<Tag>> = vec![in alloc; None; channels]?;
    Wakes::new(alloc, &ranks)
}

/// The process at an end of a channel, by a table of these.
fn process_at(processes: &[u32], channel: u32) -> u32
    ensures { result ≡ get_or processes.now channel 0 }
{
    if channel as usize >= processes.len() {
        return 0;
    }
    processes[channel as usize]
}

/// The process that puts on each channel.
fn writers_of(alloc: Global, network: &Network) -> Result<Vec<u32>, AllocError> {
    let mut writers = Vec::with_capacity(alloc, network.channels())?;
    for channel in 0..network.channels() {
        let writer = match network.source(channel) {
            Source::Output(process, _) => process,
            Source::Own(_) => NOBODY,
        };
        writers.push(writer)?;
    }
    Ok(writers)
}

/// The process that gets from each channel that ends at one.
fn readers_of(alloc: Global, network: &Network) -> Result<Vec<u32>, AllocError> {
    let mut readers = Vec::with_capacity(alloc, network.inner())?;
    for process in 0..network.processes() {
        for _ in network.offset(process)..network.offset(process + 1) {
            readers.push(process as u32)?;
        }
    }
    Ok(readers)
}
