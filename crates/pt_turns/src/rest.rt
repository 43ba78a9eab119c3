ghost use Rattle.std.specs.Prelude.{◌≡◌, true};
ghost use Rattle.pt_firing.specs.declared.ask.Ask.TheVariants as ask;
ghost use Rattle.pt_turns.specs.declared.rest.Rest.TheVariants as rest;

use pt_firing::Ask;
use pt_time::Tag;

/// What a row of firings of numbers alone comes to.
#[derive(Clone, Copy, Debug)]
pub enum Rest {
    /// It is the turn of this child at the tag, whose firing gave this number already, of which the core isn't told yet, or isn't made.
    Turn(u32, Tag, Option<i64>),
    /// The core has this answer, for which nothing was done.
    Asked(Ask),
    /// Memory was wanting for what is recorded of the last firing.
    Memory,
    /// Nothing is left of the allowance, and the core wasn't asked.
    Spent,
}

impl Rest {
    /// Whether the children have fired enough.
    #[inline(always)]
    pub fn is_finished(&self) -> bool
        ensures { result ≡ true → self.now ≡ rest.Asked ask.Finished }
    {
        match self {
            Rest::Asked(Ask::Finished) => true,
            _ => false,
        }
    }
}
