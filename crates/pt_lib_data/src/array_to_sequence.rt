// `ArrayToSequence`: the elements of its input, which has a length.
ghost use Rattle.std.specs.Prelude.{◌≡◌, map, IfOk};
ghost use Rattle.pt_value.specs.Token.{token_of};
ghost use Rattle.pt_lib_data.specs.Reply.{Tells};
ghost use Rattle.pt_lib_data.specs.ArrayToSequence as array_to_sequence;

use crate::reply::nothing;
use pt_firing::{Inputs, Outputs, RunFault, Step, Tokens};
use pt_value::{Items, Token};
use std::alloc::Global;

fn of_array(alloc: Global, length: usize, items: &Items) -> Step
    ensures { Tells (array_to_sequence.of_array length items.now) result }
{
    if items.len() != length {
        return Step::Fault(RunFault::Length);
    }
    match items.copy(alloc) {
        Ok(items) => Step::Done(Outputs::first(1, Tokens::of(items.into_vec()))),
        Err(_) => Step::Memory,
    }
}

pub(crate) fn give(alloc: Global, length: usize, inputs: &Inputs<'_>) -> Step
    ensures { Tells (array_to_sequence.give length inputs.now) result }
{
    match inputs.token_at(0) {
        Some(Token::Array(items)) => of_array(alloc, length, items),
        _ => nothing(),
    }
}
