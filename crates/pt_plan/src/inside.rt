ghost use Rattle.std.specs.Prelude.{◌≡◌, ◌<◌, ◌≤◌, ◌↔◌, All, IsTrue};
ghost use Rattle.pt_meaning.specs.Running.{total};
ghost use Rattle.pt_plan.specs.Inside.{IsRate};

use pt_core::Source;
use pt_firing::Counts;

/// The greatest number of tokens that a firing moves on a channel.
const MOST_TOKENS: usize = 1_000_000;

/// The most tokens that a channel holds at first.
const MOST_FIRST: usize = 1 << 32;

/// The most channels of a composite with its own inputs, and one more.
const CHANNELS: usize = 1 << 32;

/// What is within an SDF composite. Channels are numbered by the places where they end: those of the children in order,
/// then the own outputs.
#[derive(Debug, Drop)]
pub struct Inside {
    /// Where each channel begins.
    pub sources: Vec<Source>,
    /// How many places each child has.
    pub places: Counts,
    /// How many tokens a firing takes, for each place of each child.
    pub needs: Counts,
    /// How many tokens a firing gives, for each port of each child.
    pub rates: Vec<Counts>,
    /// How many tokens each channel holds at first.
    pub first: Counts,
    /// How many own inputs there are.
    pub inputs: u32,
    /// How many own outputs there are.
    pub outputs: u32,
}

impl Inside {
    ghost use Rattle.std.specs.Prelude.{◌≡◌, ◌↔◌, ◌+◌, ◌^◌, ◌<◌, [], IsTrue, length, get_or};
    ghost use Rattle.pt_meaning.specs.Running.{total};
    ghost use Rattle.pt_plan.specs.Inside.{IsInside, IsThere};

    /// Whether the lists fit one another, the numbers name what is there, and the rates are 1 to 1,000,000.
    pub fn is_well_formed(&self) -> bool
        ensures { IsTrue result ↔ IsInside self.now }
    {
        self.fits()
            && self.sources.iter().all(|source| self.has(source))
            && are_rates(self.needs.as_slice())
            && self.rates.iter().all(|rates| are_rates(rates.as_slice()))
            && self.first.as_slice().iter().all(|n| *n <= MOST_FIRST)
    }

    /// Whether the lists fit one another.
    fn fits(&self) -> bool
        ensures { IsTrue result ↔ ((length self.now.needs ≡ total self.now.places) × (length self.now.rates.items ≡ length self.now.places)
            × (length self.now.sources.items ≡ total self.now.places + self.now.outputs) × (length self.now.sources.items + self.now.inputs < 2 ^ 32)
            × (length self.now.first ≡ length self.now.sources.items)) }
    {
        let places = self.needs.len();
        let channels = self.sources.len();
        has_total(self.places.as_slice(), places)
            && self.rates.len() == self.places.len()
            && channels >= places
            && channels - places == self.outputs as usize
            && channels < CHANNELS - self.inputs as usize
            && self.first.len() == channels
    }

    /// Whether a channel can begin there.
    fn has(&self, source: &Source) -> bool
        ensures { IsTrue result ↔ IsThere self.now source.now }
    {
        match *source {
            Source::Own(port) => port < self.inputs,
            Source::Output(child, port) => {
                (child as usize) < self.places.len() && (port as usize) < self.ports(child as usize)
            }
        }
    }

    /// How many ports a child has.
    fn ports(&self, child: usize) -> usize
        ensures { result ≡ length (get_or self.now.rates.items child []) }
    {
        match self.rates.get(child) {
            Some(rates) => rates.len(),
            None => 0,
        }
    }
}

fn are_rates(rates: &[usize]) -> bool
    ensures { IsTrue result ↔ All IsRate rates.now }
{
    rates.iter().all(|n| 0 < *n && *n <= MOST_TOKENS)
}

/// Whether the numbers have this sum.
fn has_total(numbers: &[usize], sum: usize) -> bool
    ensures { IsTrue result ↔ (total numbers.now ≡ sum) }
{
    let mut rest = sum;
    for n in numbers {
        if *n > rest {
            return false;
        }
        rest -= *n;
    }
    rest == 0
}
