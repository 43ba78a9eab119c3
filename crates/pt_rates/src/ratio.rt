ghost use Rattle.std.specs.Prelude.{◌<◌};
ghost use Rattle.pt_rates.specs.Ratio.{IsGreatestDivisor, IsLowest};

/// The ratio of two positive numbers in lowest terms.
pub(crate) fn lowest_terms(x: u64, y: u64) -> (u64, u64)
    requires first { 0 < x }
    requires second { 0 < y }
    ensures { IsLowest x y result.0 result.1 }
{
    let divisor = greatest_divisor(x, y);
    (x / divisor, y / divisor)
}

/// The greatest common divisor, by Euclid's algorithm.
fn greatest_divisor(x: u64, y: u64) -> u64
    ensures { IsGreatestDivisor x y result }
{
    let mut large = x;
    let mut small = y;
    while small > 0 {
        let rest = large % small;
        large = small;
        small = rest;
    }
    large
}
