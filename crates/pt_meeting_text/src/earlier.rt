//! How many lines of each firing there are so far.
ghost use Rattle.std.specs.Prelude.{◌≡◌, ◌≢◌, ◌==◌, ◌<◌, ◌+◌, ◌^◌, ℕ, IfOk, OnOk, if◌then◌else◌};
ghost use Rattle.pt_meeting_text.specs.Earlier.{counted};

use std::alloc::{AllocError, Global};
use std::collections::HashMap;

/// Most lines are of the firing of the line before them, whose count is at hand. Those of the others are in a table.
#[derive(Drop)]
pub(crate) struct Earlier {
    firing: u64,
    count: u64,
    others: HashMap<u64, u64>,
}

impl Earlier {
    pub(crate) fn none(alloc: Global) -> Earlier
        ensures { (q : ℕ) → counted result q ≡ 0 }
    {
        Earlier {
            firing: 0,
            count: 0,
            others: HashMap::new(alloc),
        }
    }

    /// The index of the next line of a firing, which is counted.
    #[inline(always)]
    pub(crate) fn next(&mut self, firing: u64) -> Result<u64, AllocError>
        requires { counted self.old firing < 2 ^ 63 }
        ensures index { IfOk result (λ index. index ≡ counted self.old firing) }
        ensures counted { OnOk result ((q : ℕ) → counted self.new q ≡ (if q == firing then counted self.old q + 1 else counted self.old q)) }
    {
        if firing != self.firing {
            self.turn(firing)?;
        }
        let index = self.count;
        self.count += 1;
        Ok(index)
    }

    /// Has the count of this firing at hand.
    fn turn(&mut self, firing: u64) -> Result<(), AllocError>
        requires { firing ≢ self.old.firing }
        ensures at_hand { OnOk result (self.new.firing ≡ firing) }
        ensures same { OnOk result ((q : ℕ) → counted self.new q ≡ counted self.old q) }
    {
        self.others.insert(self.firing, self.count)?;
        self.count = match self.others.get(&firing) {
            Some(count) => *count,
            None => 0,
        };
        self.firing = firing;
        Ok(())
    }
}
