use std::alloc::{AllocError, Global};

/// Of each process the channels on which a token waits until it gets from any place, in the order in which they came.
///
/// No contract speaks of it, as of the worklist that it is part of.
#[derive(Drop)]
pub(crate) struct Waiting {
    /// How many there are of each process, and the first and the last of them.
    counts: Vec<usize>,
    firsts: Vec<Option<u32>>,
    lasts: Vec<Option<u32>>,
    /// The channel behind each that waits.
    nexts: Vec<Option<u32>>,
    is_waiting: Vec<bool>,
}

impl Waiting {
    /// No token waits.
    pub(crate) fn new(
        alloc: Global,
        processes: usize,
        channels: usize,
    ) -> Result<Waiting, AllocError> {
        Ok(Waiting {
            counts: vec![in alloc; 0usize; processes]?,
            firsts: vec![in alloc; None; processes]?,
            lasts: vec![in alloc; None; processes]?,
            nexts: vec![in alloc; None; channels]?,
            is_waiting: vec![in alloc; false; channels]?,
        })
    }

    /// How many channels there are of a process.
    pub(crate) fn len(&self, process: u32) -> usize {
        let at = process as usize;
        if at >= self.counts.len() {
            return 0;
        }
        self.counts[at]
    }

    fn note_len(&mut self, process: u32, count: usize) {
        let at = process as usize;
        if at < self.counts.len() {
            self.counts[at] = count;
        }
    }

    /// A token waits on a channel, behind the others of the process.
    pub(crate) fn put(&mut self, process: u32, channel: u32) {
        let number = channel as usize;
        if number >= self.is_waiting.len() || self.is_waiting[number] {
            return;
        }
        self.is_waiting[number] = true;
        match read(&self.lasts, process) {
            Some(last) => write(&mut self.nexts, last, Some(channel)),
            None => write(&mut self.firsts, process, Some(channel)),
        }
        write(&mut self.lasts, process, Some(channel));
        self.note_len(process, self.len(process).saturating_add(1));
    }

    /// Takes out the first channel of a process.
    pub(crate) fn take(&mut self, process: u32) -> Option<u32> {
        let channel = read(&self.firsts, process)?;
        let next = read(&self.nexts, channel);
        write(&mut self.firsts, process, next);
        write(&mut self.nexts, channel, None);
        if next.is_none() {
            write(&mut self.lasts, process, None);
        }
        self.note_len(process, self.len(process).saturating_sub(1));
        let number = channel as usize;
        if number < self.is_waiting.len() {
            self.is_waiting[number] = false;
        }
        Some(channel)
    }

    /// The same again.
    pub(crate) fn copy(&self, alloc: Global) -> Result<Waiting, AllocError> {
        Ok(Waiting {
            counts: Vec::from_slice(alloc, &self.counts)?,
            firsts: Vec::from_slice(alloc, &self.firsts)?,
            lasts: Vec::from_slice(alloc, &self.lasts)?,
            nexts: Vec::from_slice(alloc, &self.nexts)?,
            is_waiting: Vec::from_slice(alloc, &self.is_waiting)?,
        })
    }
}

/// What stands at a number, or nothing.
fn read(table: &[Option<u32>], number: u32) -> Option<u32> {
    let at = number as usize;
    if at >= table.len() {
        return None;
    }
    table[at]
}

/// This stands at a number, if that is there.
fn write(table: &mut Vec<Option<u32>>, number: u32, entry: Option<u32>) {
    let at = number as usize;
    if at < table.len() {
        table[at] = entry;
    }
}
