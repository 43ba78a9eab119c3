ghost use Rattle.std.specs.Prelude.{◌≡◌, ◌<◌, ◌^◌, true, None, IsTrue, ◌↔◌};
ghost use Rattle.pt_meaning.specs.Tag as tags;
ghost use Rattle.pt_wakes.specs.Pairs.{joined};

use pt_time::Tag;
use std::marker::Model;

/// The step of a wake that is none: past the microsteps of all tags.
const NO_STEP: u64 = u64::MAX;

/// A wake, which may be none. A contract sees the wake.
///
/// It is a pair of numbers in the order of wakes, so that two of them are compared without asking whether they are none.
#[derive(Clone, Copy)]
pub(crate) struct Wake {
    time: u64,
    step: u64,
}

impl Model for Wake {
    ghost use Rattle.std.specs.Prelude.{Option};
    ghost use Rattle.pt_meaning.specs.Tag.{Tag};
    ghost use Rattle.pt_wakes.specs.Codes.{coded_wake};

    ghost Value = { Option Tag };

    ghost coded = { coded_wake };

    ghost use Rattle.pt_wakes.specs.Pairs.{wake_in, pair_of, IsPair, pair-again};

    ghost view = { wake_in };

    ghost invariant = { IsPair };

    ghost inverse = { pair_of };

    ghost inverse_ok = { pair-again };
}

impl Wake {
    pub(crate) fn of(wake: Option<Tag>) -> Wake
        ensures { result ≡ wake }
    {
        match wake {
            Some(tag) => Wake {
                time: tag.time,
                step: u64::from(tag.step),
            },
            None => Wake {
                time: u64::MAX,
                step: NO_STEP,
            },
        }
    }

    pub(crate) fn get(self) -> Option<Tag>
        ensures { result ≡ self }
    {
        if self.step < 1 << 32 {
            Some(Tag {
                time: self.time,
                step: self.step as u32,
            })
        } else {
            None
        }
    }

    pub(crate) fn is_none(self) -> bool
        ensures { IsTrue result ↔ (self ≡ None) }
    {
        self.step == NO_STEP
    }

    /// Whether it is at or before a tag.
    pub(crate) fn is_due(self, tag: Tag) -> bool
        ensures { result ≡ tags.is_due tag self }
    {
        joined(self.time, self.step) <= joined(tag.time, u64::from(tag.step))
    }

    /// The lesser of it and another.
    pub(crate) fn earlier(self, other: Wake) -> Wake
        ensures { result ≡ tags.earlier self other }
    {
        if joined(self.time, self.step) <= joined(other.time, other.step) {
            self
        } else {
            other
        }
    }

    /// Whether both are the same.
    pub(crate) fn is_same(self, other: Wake) -> bool
        ensures { result ≡ true → self ≡ other }
    {
        joined(self.time, self.step) == joined(other.time, other.step)
    }
}

/// Two numbers as one, which are compared by the first, then by the second.
fn joined(time: u64, step: u64) -> u128
    ensures { result ≡ joined time step }
{
    time as u128 * (1 << 64) + step as u128
}
