ghost use Rattle.std.specs.Prelude.{◌≡◌, IfOk};

use pt_time::Tag;
use pt_value::Token;
use std::alloc::{AllocError, Global};
use std::marker::Model;

/// The latest token of a `Register`, with the tag at which it was kept, or none. It is in a box, so that actors of other classes take
/// less room.
#[derive(Drop)]
pub struct Latest {
    kept: Box<Option<(Tag, Token)>>,
}

impl Model for Latest {
    ghost use Rattle.std.specs.Prelude.{Option};
    ghost use Rattle.std.specs.Coded.{coded_option};
    ghost use Rattle.pt_lib_timed.specs.Pending.{Event};
    ghost use Rattle.pt_lib_timed.specs.PendingStore.{coded_event};

    ghost Value = { Option Event };

    ghost coded = { coded_option coded_event };

    ghost view = { λ l. l.kept.value };
}

impl Latest {
    pub fn of(alloc: Global, kept: Option<(Tag, Token)>) -> Result<Latest, AllocError>
        ensures { IfOk result (λ latest. latest ≡ kept) }
    {
        Ok(Latest {
            kept: Box::new(alloc, kept)?,
        })
    }

    pub fn get(&self) -> &Option<(Tag, Token)>
        ensures { result.now ≡ self.now }
    {
        &self.kept
    }

    /// Keeps another, and gives the one that was kept before. It takes no memory.
    pub fn replace(&mut self, kept: Option<(Tag, Token)>) -> Option<(Tag, Token)>
        ensures before { result ≡ self.old }
        ensures after { self.new ≡ kept }
    {
        Box::replace(&mut self.kept, kept)
    }
}
