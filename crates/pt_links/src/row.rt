ghost use Rattle.std.specs.Prelude.{◌≡◌, ◌++◌, [], ◌∷◌, OnOk};

use std::alloc::{AllocError, Global};
use std::marker::Model;
use std::slice;

/// The relations at a port, in the order of the links. Most ports have one at most, for which no list is made.
#[derive(Drop)]
pub struct Row {
    held: Held,
}

#[derive(Drop)]
pub(crate) enum Held {
    Nothing,
    One(usize),
    Many(Vec<usize>),
}

impl Model for Row {
    ghost use Rattle.std.specs.Prelude.{List, ℕ};
    ghost use Rattle.pt_links.specs.Row.{held_relations};

    ghost Value = { List ℕ };

    ghost view = { λ row. held_relations row.held };
}

impl Row {
    /// No relation. It takes no memory.
    pub fn new() -> Row
        ensures { result ≡ [] }
    {
        Row {
            held: Held::Nothing,
        }
    }

    pub fn as_slice(&self) -> &[usize]
        ensures { result.now ≡ self.now }
    {
        match &self.held {
            Held::Nothing => &[],
            Held::One(relation) => slice::from_ref(relation),
            Held::Many(relations) => relations.as_slice(),
        }
    }

    /// Puts a relation behind the others. Where there is none yet, it takes no memory.
    pub fn push(&mut self, alloc: Global, relation: usize) -> Result<(), AllocError>
        ensures { OnOk result (self.new ≡ self.old ++ relation ∷ []) }
    {
        match &mut self.held {
            Held::Nothing => self.held = Held::One(relation),
            Held::One(first) => {
                let both = vec![in alloc; *first, relation]?;
                self.held = Held::Many(both);
            }
            Held::Many(relations) => relations.push(relation)?,
        }
        Ok(())
    }
}
