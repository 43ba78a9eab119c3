ghost use Rattle.std.specs.Prelude.{◌≡◌, ◌++◌, IfOk, OnOk};
ghost use Rattle.pt_meaning.specs.Basics.{at};
ghost use Rattle.pt_flow_base.specs.Rates.{factor_and_phase, times_and_size, repeated_block};

use pt_firing::{Inputs, Values};
use pt_value::Token;
use std::alloc::{AllocError, Global};

/// The greatest number of tokens that an actor takes or gives in a firing.
const MOST: u64 = 1_000_000;

/// A factor and a phase, where they are in their ranges.
pub fn factor_and_phase(values: &Values) -> Option<(usize, usize)>
    ensures { result ≡ factor_and_phase values.now }
{
    match (
        values.int_within("factor", 2, 1, 1_000_000),
        values.int_or("phase", 0),
    ) {
        (Some(factor), Some(phase)) if 0 <= phase && phase < factor => {
            Some((
                factor.unsigned_abs() as usize,
                phase.unsigned_abs() as usize,
            ))
        }
        _ => None,
    }
}

/// How often a block is given, and its size, where they are in their ranges.
pub fn times_and_size(values: &Values) -> Option<(usize, usize)>
    ensures { result ≡ times_and_size values.now }
{
    repeated_block(
        values.int_within("numberOfTimes", 2, 1, 1_000_000),
        values.int_within("blockSize", 1, 1, 1_000_000),
    )
}

fn repeated_block(times: Option<i64>, size: Option<i64>) -> Option<(usize, usize)>
    ensures { result ≡ repeated_block times size }
{
    let times = times?.unsigned_abs();
    let size = size?.unsigned_abs();
    match times.checked_mul(size) {
        Some(total) if total <= MOST => Some((times as usize, size as usize)),
        _ => None,
    }
}

/// The tokens of the first place.
pub fn first_list<'a>(inputs: &'a Inputs<'_>) -> &'a [Token]
    ensures { result.now ≡ at inputs.now 0 }
{
    if inputs.places() == 0 {
        &[]
    } else {
        inputs.list(0)
    }
}

/// Puts copies of some tokens behind others.
pub fn push_copies(
    alloc: Global,
    given: &mut Vec<Token>,
    tokens: &[Token],
) -> Result<(), AllocError>
    ensures { OnOk result (given.new.items ≡ given.old.items ++ tokens.now) }
{
    for token in tokens {
        given.push(token.copy(alloc)?)?;
    }
    Ok(())
}
