ghost use Rattle.std.specs.Prelude.{◌≡◌, ◌+ℤ◌, SomeIff, FitsSigned};
ghost use Rattle.std.specs.Int.{w64};

use std::marker::Model;

/// The exact sum of two numbers, which may pass the range of `i64`.
///
/// It is kept as the two: a number of 128 bits begins at a multiple of sixteen bytes, and with it all that holds an actor.
#[derive(Debug, Drop)]
pub struct ExactSum {
    first: i64,
    second: i64,
}

impl Model for ExactSum {
    ghost use Rattle.std.specs.Prelude.{ℤ, ◌+ℤ◌};

    ghost Value = { ℤ };

    ghost view = { λ s. s.first +ℤ s.second };
}

impl ExactSum {
    /// A number alone.
    pub fn alone(number: i64) -> ExactSum
        ensures { result ≡ number }
    {
        ExactSum {
            first: number,
            second: 0,
        }
    }

    #[inline(always)]
    pub fn of(first: i64, second: i64) -> ExactSum
        ensures { result ≡ first +ℤ second }
    {
        ExactSum { first, second }
    }

    /// The sum, where it fits.
    #[inline(always)]
    pub fn number(&self) -> Option<i64>
        ensures { SomeIff result (FitsSigned w64 self.now) self.now }
    {
        self.first.checked_add(self.second)
    }

    pub fn copy(&self) -> ExactSum
        ensures { result ≡ self.now }
    {
        ExactSum {
            first: self.first,
            second: self.second,
        }
    }
}
