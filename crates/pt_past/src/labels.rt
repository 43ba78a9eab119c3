ghost use Rattle.std.specs.Prelude.{◌≡◌, [], get_or, IfOk};

use pt_value::Text;
use std::alloc::{AllocError, Global};
use std::marker::Model;

/// How a report tells the places where the channels of a process network end, by the numbers of the channels.
#[derive(Debug, Drop)]
pub struct Labels {
    texts: Vec<Text>,
}

impl Model for Labels {
    ghost use Rattle.std.specs.Prelude.{List, ℕ};

    ghost Value = { List (List ℕ) };

    ghost view = { λ l. l.texts.items };
}

impl Labels {
    pub fn of(texts: Vec<Text>) -> Labels
        ensures { result ≡ texts.items }
    {
        Labels { texts }
    }

    /// Those of a composite that is no process network.
    pub fn none(alloc: Global) -> Labels
        ensures { result ≡ [] }
    {
        Labels {
            texts: Vec::new(alloc),
        }
    }

    /// That of a channel, empty where the channel has none.
    pub fn get(&self, alloc: Global, channel: u32) -> Result<Text, AllocError>
        ensures { IfOk result (λ text. text ≡ get_or self.now channel []) }
    {
        match self.texts.get(channel as usize) {
            Some(text) => text.copy(alloc),
            None => Text::of(alloc, ""),
        }
    }
}
