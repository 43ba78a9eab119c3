ghost use Rattle.std.specs.Prelude.{◌<◌, ◌≤◌, ◌↔◌, IsTrue};

/// The greatest rate.
const MOST_RATE: u64 = 1_000_000;

/// A channel of a dataflow graph: each firing of node `from` puts `produced` tokens on it, and each of node `to` takes `consumed`.
#[derive(Clone, Copy, Debug, PartialEq, Eq)]
pub struct Edge {
    pub from: u32,
    pub produced: u64,
    pub to: u32,
    pub consumed: u64,
}

impl Edge {
    ghost use Rattle.std.specs.Prelude.{◌↔◌, IsTrue};
    ghost use Rattle.pt_rates.specs.Balance.{IsChannel};

    /// Whether the ends are among `n` nodes, and the rates are 1 to 1,000,000.
    pub fn is_channel(&self, n: u32) -> bool
        ensures { IsTrue result ↔ IsChannel n self.now }
    {
        self.from < n && self.to < n && is_rate(self.produced) && is_rate(self.consumed)
    }
}

fn is_rate(rate: u64) -> bool
    ensures { IsTrue result ↔ ((0 < rate) × (rate ≤ 1000000)) }
{
    0 < rate && rate <= MOST_RATE
}
