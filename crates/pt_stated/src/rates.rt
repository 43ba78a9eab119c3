ghost use Rattle.std.specs.Prelude.{◌≡◌, IfOk, map, slice_get};
ghost use Rattle.pt_document.specs.View.{port_view};
ghost use Rattle.pt_stated.specs.Numbers as spec;

use crate::count::count_of;
use pt_document::{Direction, Port};
use pt_value::Token;
use std::alloc::{AllocError, Global};

fn is_along(own: Direction, direction: Direction) -> bool
    ensures { result ≡ spec.is_along own direction }
{
    match own {
        Direction::Input => match direction {
            Direction::Input => true,
            Direction::Output => false,
        },
        Direction::Output => match direction {
            Direction::Input => false,
            Direction::Output => true,
        },
    }
}

/// The rate that the port of this number states, and 1 where it states none.
fn rate_at(rates: &[Option<Token>], number: usize) -> usize
    ensures { result ≡ spec.rate_in (slice_get rates.now number) }
{
    match rates.get(number) {
        Some(rate) => match rate {
            Some(token) => count_of(token),
            None => 1,
        },
        None => 1,
    }
}

/// The rates of the ports of a direction, in their order.
pub fn rates_along(
    alloc: Global,
    direction: Direction,
    ports: &[Port],
    rates: &[Option<Token>],
) -> Result<Vec<usize>, AllocError>
    ensures { IfOk result (λ counts. counts.items ≡ spec.rates_along direction (map port_view ports.now) rates.now) }
{
    let mut counts = Vec::new(alloc);
    for (number, port) in ports.iter().enumerate() {
        if is_along(port.direction, direction) {
            counts.push(rate_at(rates, number))?;
        }
    }
    Ok(counts)
}
