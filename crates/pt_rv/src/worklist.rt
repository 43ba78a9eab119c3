use crate::waiting::Waiting;
use pt_core::Source;
use pt_rv_plan::{Plan, Target};
use std::alloc::{AllocError, Global};
use std::collections::VecDeque;

/// The parties that have moved, and so may meet next, as far as is noted. Processes come first in their numbers, and own inputs behind them.
///
/// No contract speaks of it. Whoever takes a party from it looks what that may do, and looks at all where it is empty.
#[derive(Drop)]
pub(crate) struct Worklist {
    /// Those that nobody has looked at since they moved.
    noted: VecDeque<u32>,
    /// Whether a party stands there.
    is_noted: Vec<bool>,
    /// The tokens that wait until a process gets from any place.
    waiting: Waiting,
    /// Of each Barrier the first place at which no token was offered.
    missing: Vec<usize>,
    processes: u32,
}

impl Worklist {
    /// The worklist of a plan, with each party in it.
    pub(crate) fn new(alloc: Global, plan: &Plan) -> Result<Worklist, AllocError> {
        let processes = plan.processes();
        let parties = processes.saturating_add(plan.inlets());
        let waiting = Waiting::new(alloc, processes, plan.channels())?;
        let mut worklist = Worklist {
            noted: VecDeque::with_capacity(alloc, parties)?,
            is_noted: vec![in alloc; false; parties]?,
            waiting,
            missing: vec![in alloc; 0usize; processes]?,
            processes: processes as u32,
        };
        worklist.restart();
        Ok(worklist)
    }

    /// Each party stands in it.
    pub(crate) fn restart(&mut self) {
        for party in 0..self.is_noted.len() {
            if party < u32::MAX as usize {
                self.note(party as u32);
            }
        }
    }

    /// So many parties stand in it.
    #[inline(always)]
    pub(crate) fn len(&self) -> usize {
        self.noted.len()
    }

    /// A party has moved.
    #[inline(always)]
    pub(crate) fn note(&mut self, party: u32) {
        let number = party as usize;
        if number >= self.is_noted.len() || self.is_noted[number] {
            return;
        }
        self.is_noted[number] = true;
        if self.noted.len() < self.noted.capacity() {
            self.noted.push_back_reserved(party);
        }
    }

    /// Takes out the party that was noted first.
    #[inline(always)]
    pub(crate) fn take(&mut self) -> Option<u32> {
        let party = self.noted.pop_front()?;
        let number = party as usize;
        if number < self.is_noted.len() {
            self.is_noted[number] = false;
        }
        Some(party)
    }

    /// Who sends at a source has moved.
    #[inline(always)]
    pub(crate) fn note_sender(&mut self, source: Source) {
        match source {
            Source::Own(port) => self.note(self.processes.saturating_add(port)),
            Source::Output(process, _) => self.note(process),
        }
    }

    /// Who receives at the end of a channel has moved.
    #[inline(always)]
    pub(crate) fn note_target(&mut self, target: Target) {
        match target {
            Target::Place(process, _) => self.note(process),
            Target::Outlet(_) => {}
        }
    }

    /// A Barrier and all who send to it have moved.
    pub(crate) fn note_barrier(&mut self, plan: &Plan, barrier: u32) {
        let process = barrier as usize;
        if process >= plan.processes() {
            return;
        }
        for place in 0..plan.places(process) {
            let channel = plan.channel_at(process, place);
            if channel < plan.channels() {
                self.note_sender(plan.source(channel));
            }
        }
        self.note(barrier);
    }

    /// A token waits on a channel until this process gets from any place.
    pub(crate) fn wait(&mut self, process: u32, channel: u32) {
        self.waiting.put(process, channel);
    }

    /// On so many channels a token waits for a process.
    pub(crate) fn waiting_len(&self, process: u32) -> usize {
        self.waiting.len(process)
    }

    /// Takes out the channel on which a token waited first for a process.
    pub(crate) fn take_waiting(&mut self, process: u32) -> Option<u32> {
        self.waiting.take(process)
    }

    /// The first place of a Barrier at which no token was offered.
    pub(crate) fn missing(&self, barrier: u32) -> usize {
        let process = barrier as usize;
        if process >= self.missing.len() {
            return 0;
        }
        self.missing[process]
    }

    /// No token is offered at this place of a Barrier.
    pub(crate) fn misses(&mut self, barrier: u32, place: usize) {
        let process = barrier as usize;
        if process < self.missing.len() {
            self.missing[process] = place;
        }
    }

    /// The same again.
    pub(crate) fn copy(&self, alloc: Global) -> Result<Worklist, AllocError> {
        let waiting = self.waiting.copy(alloc)?;
        Ok(Worklist {
            noted: parties_again(alloc, &self.noted, self.is_noted.len())?,
            is_noted: Vec::from_slice(alloc, &self.is_noted)?,
            waiting,
            missing: Vec::from_slice(alloc, &self.missing)?,
            processes: self.processes,
        })
    }
}

/// The same parties again, with room for so many.
fn parties_again(
    alloc: Global,
    parties: &VecDeque<u32>,
    room: usize,
) -> Result<VecDeque<u32>, AllocError> {
    let mut copies = VecDeque::with_capacity(alloc, room)?;
    for number in 0..parties.len() {
        let party = parties[number];
        match copies.push_back(party) {
            Ok(()) => {}
            Err(_) => return Err(AllocError),
        }
    }
    Ok(copies)
}
