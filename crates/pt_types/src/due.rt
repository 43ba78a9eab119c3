ghost use Rattle.std.specs.Prelude.{◌≡◌, [], OnOk};

use crate::readers::Readers;
use std::alloc::{AllocError, Global};

/// The indexes of the rules whose turn it is, each once. It says where to look next, and no proof rests on it.
#[derive(Drop)]
pub(crate) struct Due {
    indexes: Vec<usize>,
    // Whether the rule of each index is among them.
    is_due: Vec<bool>,
}

impl Due {
    pub(crate) fn new(alloc: Global, rule_count: usize) -> Result<Due, AllocError> {
        Ok(Due {
            indexes: Vec::new(alloc),
            is_due: vec![in alloc; false; rule_count]?,
        })
    }

    pub(crate) fn indexes(&self) -> &[usize] {
        self.indexes.as_slice()
    }

    /// The readers of all numbers that have changed, in place of those before. No change is left then.
    pub(crate) fn gather(
        &mut self,
        readers: &Readers,
        changed: &mut Vec<u32>,
    ) -> Result<(), AllocError>
        ensures { OnOk result (changed.new.items ≡ []) }
    {
        self.clear();
        for number in changed.as_slice() {
            self.add(readers.of_number(*number))?;
        }
        changed.clear();
        Ok(())
    }

    fn add(&mut self, indexes: &[usize]) -> Result<(), AllocError> {
        for index in indexes {
            if let Some(is_due) = self.is_due.get_mut(*index)
                && !*is_due
            {
                *is_due = true;
                self.indexes.push(*index)?;
            }
        }
        Ok(())
    }

    fn clear(&mut self) {
        for index in self.indexes.as_slice() {
            if let Some(is_due) = self.is_due.get_mut(*index) {
                *is_due = false;
            }
        }
        self.indexes.clear();
    }
}
