// `ArrayElement`: the element of its input at an index.
ghost use Rattle.std.specs.Prelude.{◌≡◌, option_map, slice_get};
ghost use Rattle.pt_value.specs.Token.{token_of};
ghost use Rattle.pt_lib_data.specs.Reply.{Tells};
ghost use Rattle.pt_lib_data.specs.ArrayElement as array_element;

use crate::reply::{nothing, one};
use pt_firing::{Inputs, RunFault, Step, Values};
use pt_value::{Items, Token};
use std::alloc::Global;

/// The index that the parameters say.
pub(crate) fn start(values: &Values) -> Option<i64>
    ensures { result ≡ array_element.start values.now }
{
    values.int_or("index", 0)
}

fn nth(items: &Items, place: usize) -> Option<&Token>
    ensures { option_map (λ t. t.now) result ≡ option_map token_of (slice_get items.now place) }
{
    items.get(place)
}

/// The element of an array, if there is one.
fn element(items: &Items, index: i64) -> Option<&Token>
    ensures { option_map (λ t. t.now) result ≡ array_element.element items.now index }
{
    if index < 0 {
        None
    } else {
        nth(items, index as usize)
    }
}

fn of_array(alloc: Global, items: &Items, index: i64) -> Step
    ensures { Tells (array_element.of_array items.now index) result }
{
    let Some(token) = element(items, index) else {
        return Step::Fault(RunFault::Index);
    };
    match token.copy(alloc) {
        Ok(token) => one(token),
        Err(_) => Step::Memory,
    }
}

pub(crate) fn give(alloc: Global, index: i64, inputs: &Inputs<'_>) -> Step
    ensures { Tells (array_element.give index inputs.now) result }
{
    match inputs.token_at(0) {
        Some(Token::Array(items)) => of_array(alloc, items, index),
        _ => nothing(),
    }
}
