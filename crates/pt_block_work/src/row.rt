ghost use Rattle.std.specs.Prelude.{◌≡◌, [], length, nat_eq};

use std::alloc::Global;
use std::marker::Model;

/// What a child gave in the firings of a block: the integers of one firing after another. There are none before it fires.
#[derive(Drop)]
pub struct Row {
    pub(crate) numbers: Vec<i64>,
}

impl Model for Row {
    ghost use Rattle.std.specs.Prelude.{List, ℤ};

    ghost Value = { List ℤ };

    ghost view = { λ r. r.numbers.items };
}

impl Row {
    pub fn new(alloc: Global) -> Row
        ensures { result ≡ [] }
    {
        Row {
            numbers: Vec::new(alloc),
        }
    }

    pub fn as_slice(&self) -> &[i64]
        ensures { result.now ≡ self.now }
    {
        self.numbers.as_slice()
    }

    pub fn is_empty(&self) -> bool
        ensures { result ≡ nat_eq (length self.now) 0 }
    {
        self.numbers.is_empty()
    }

    /// Takes all integers away, and keeps the room.
    pub(crate) fn clear(&mut self)
        ensures { self.new ≡ [] }
    {
        self.numbers.clear();
    }
}
