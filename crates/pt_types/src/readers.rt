use std::alloc::{AllocError, Global};

/// For each number the indexes of the rules that read it, all in one list. It says where to look next, and no proof rests on it.
#[derive(Drop)]
pub(crate) struct Readers {
    // For each number how many rules read it, until there is room for them; then where they end in the list. They begin where those of
    // the number before end.
    ends: Vec<usize>,
    indexes: Vec<usize>,
}

impl Readers {
    /// None of any of so many numbers.
    pub(crate) fn none(alloc: Global, count: usize) -> Result<Readers, AllocError> {
        Ok(Readers {
            ends: vec![in alloc; 0; count]?,
            indexes: Vec::new(alloc),
        })
    }

    /// Counts a rule that reads these numbers.
    pub(crate) fn count(&mut self, numbers: &[u32]) {
        for number in numbers {
            if let Some(count) = self.ends.get_mut(*number as usize) {
                *count = count.saturating_add(1);
            }
        }
    }

    /// Makes room for all rules that are counted, and ends those of each number where they begin.
    pub(crate) fn make_room(&mut self, alloc: Global) -> Result<(), AllocError> {
        let mut start = 0usize;
        for end in self.ends.iter_mut() {
            let next = start.saturating_add(*end);
            *end = start;
            start = next;
        }
        self.indexes = vec![in alloc; 0; start]?;
        Ok(())
    }

    /// Puts a rule that reads these numbers behind those that do so.
    pub(crate) fn put(&mut self, numbers: &[u32], index: usize) {
        for number in numbers {
            if let Some(end) = self.ends.get_mut(*number as usize)
                && let Some(place) = self.indexes.get_mut(*end)
            {
                *place = index;
                *end = end.saturating_add(1);
            }
        }
    }

    fn end(&self, number: usize) -> usize {
        match self.ends.get(number) {
            Some(end) => *end,
            None => 0,
        }
    }

    /// The rules that read a number.
    pub(crate) fn of_number(&self, number: u32) -> &[usize] {
        let number = number as usize;
        let start = match number.checked_sub(1) {
            Some(before) => self.end(before),
            None => 0,
        };
        let end = self.end(number);
        if start <= end && end <= self.indexes.len() {
            &self.indexes[start..end]
        } else {
            &[]
        }
    }
}
