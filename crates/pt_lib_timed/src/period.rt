ghost use Rattle.std.specs.Prelude.{◌≡◌, ◌≤◌};

use std::marker::Model;

/// The period of a clock: one tick at least. A contract sees the number of ticks.
#[derive(Clone, Copy, PartialEq, Eq, Debug)]
pub struct Period {
    ticks: u64,
}

impl Model for Period {
    ghost use Rattle.std.specs.Prelude.{ℕ, ◌≤◌};

    ghost Value = { ℕ };

    ghost view = { λ p. p.ticks };

    ghost inverse = { λ n. record { ticks = n } };

    ghost invariant = { λ p. 1 ≤ p.ticks };
}

impl Period {
    pub fn of(ticks: u64) -> Period
        requires { 1 ≤ ticks }
        ensures { result ≡ ticks }
    {
        Period { ticks }
    }

    pub fn ticks(self) -> u64
        ensures ticks { result ≡ self }
        ensures least { 1 ≤ result }
    {
        self.ticks
    }
}
