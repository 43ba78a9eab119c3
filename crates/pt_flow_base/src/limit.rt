ghost use Rattle.std.specs.Prelude.{◌≡◌};
ghost use Rattle.pt_flow_base.specs.Limit.{limit_of, limit_in, is_over, is_endless, after_one, is_called};

use crate::numbered::Numbered;
use pt_firing::Values;

/// How often a source may still fire.
#[derive(Clone, Copy, Debug, PartialEq, Eq)]
pub enum Limit {
    Endless,
    Left(u64),
}

impl Limit {
    /// The limit by a `firingCountLimit`, of which 0 is none.
    pub fn of(count: u64) -> Limit
        ensures { result ≡ limit_of count }
    {
        if count == 0 {
            Limit::Endless
        } else {
            Limit::Left(count)
        }
    }

    /// The limit that `firingCountLimit` says, where it is in its range.
    pub fn within(values: &Values) -> Option<Limit>
        ensures { result ≡ limit_in values.now }
    {
        match values.int_within("firingCountLimit", 0, 0, 1_000_000_000) {
            Some(count) => Some(Limit::of(count.unsigned_abs())),
            None => None,
        }
    }

    pub fn is_over(self) -> bool
        ensures { result ≡ is_over self }
    {
        matches!(self, Limit::Left(0))
    }

    /// It is never over.
    pub fn is_endless(self) -> bool
        ensures { result ≡ is_endless self }
    {
        matches!(self, Limit::Endless)
    }

    /// The limit after one firing.
    pub fn after_one(self) -> Limit
        ensures { result ≡ after_one self }
    {
        match self {
            Limit::Endless => Limit::Endless,
            Limit::Left(count) => Limit::Left(count.saturating_sub(1)),
        }
    }
}

/// Whether a source has no trigger, or a token there.
#[inline(always)]
pub fn is_called<I: Numbered>(inputs: &I) -> bool
    ensures { result ≡ is_called (I.streams inputs.now) }
{
    inputs.places() == 0 || inputs.is_present(0)
}
