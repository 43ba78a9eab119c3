// `SequenceToArray`: the array of so many tokens.
ghost use Rattle.std.specs.Prelude.{◌≡◌, take, IfOk};
ghost use Rattle.pt_meaning.specs.Basics.{at};
ghost use Rattle.pt_lib_data.specs.Reply.{Tells};
ghost use Rattle.pt_lib_data.specs.SequenceToArray as sequence_to_array;

use crate::reply::{nothing, sized};
use pt_firing::{Inputs, Step, Values};
use pt_value::{Items, Token};
use std::alloc::{AllocError, Global};

/// The length that the parameters say, if they are such as the row has them.
pub(crate) fn start(values: &Values) -> Option<usize>
    ensures { result ≡ sequence_to_array.start values.now }
{
    match values.int_within("arrayLength", 1, 1, 1_000_000) {
        Some(length) => Some(length.unsigned_abs() as usize),
        None => None,
    }
}

/// The tokens of the first place.
fn first_list<'a>(inputs: &'a Inputs<'_>) -> &'a [Token]
    ensures { result.now ≡ at inputs.now 0 }
{
    if inputs.places() == 0 {
        &[]
    } else {
        inputs.list(0)
    }
}

fn copies(alloc: Global, tokens: &[Token]) -> Result<Vec<Token>, AllocError>
    ensures { IfOk result (λ copies. copies.items ≡ tokens.now) }
{
    let mut copies = Vec::with_capacity(alloc, tokens.len())?;
    for token in tokens {
        copies.push(token.copy(alloc)?)?;
    }
    Ok(copies)
}

pub(crate) fn give(alloc: Global, length: usize, inputs: &Inputs<'_>) -> Step
    ensures { Tells (sequence_to_array.give length inputs.now) result }
{
    let tokens = first_list(inputs);
    if tokens.len() < length {
        return nothing();
    }
    match copies(alloc, &tokens[..length]) {
        Ok(tokens) => sized(Token::Array(Items::of(tokens))),
        Err(_) => Step::Memory,
    }
}
