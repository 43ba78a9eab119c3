// `ElementsToArray`: the array of its inputs, in the order of its channels.
ghost use Rattle.std.specs.Prelude.{◌≡◌, ◌++◌, [], IfOk, OnOk};
ghost use Rattle.pt_firing.specs.Row.{token_at};
ghost use Rattle.pt_lib_data.specs.Reply.{Tells};
ghost use Rattle.pt_lib_data.specs.ElementsToArray as elements_to_array;

use crate::reply::{nothing, sized};
use pt_firing::{Inputs, Step};
use pt_value::{Items, Token};
use std::alloc::{AllocError, Global};

/// Puts the first token of a place behind others, if there is one.
fn push_first(
    alloc: Global,
    tokens: &mut Vec<Token>,
    inputs: &Inputs<'_>,
    place: usize,
) -> Result<(), AllocError>
    ensures { OnOk result (tokens.new.items ≡ tokens.old.items ++ elements_to_array.with_token (token_at inputs.now place) []) }
{
    if let Some(token) = inputs.token_at(place) {
        tokens.push(token.copy(alloc)?)?;
    }
    Ok(())
}

/// The first token of each place, as far as there is one.
pub(crate) fn firsts(alloc: Global, inputs: &Inputs<'_>) -> Result<Vec<Token>, AllocError>
    ensures { IfOk result (λ tokens. tokens.items ≡ elements_to_array.firsts inputs.now) }
{
    let mut tokens = Vec::with_capacity(alloc, inputs.places())?;
    for place in 0..inputs.places() {
        push_first(alloc, &mut tokens, inputs, place)?;
    }
    Ok(tokens)
}

pub(crate) fn give(alloc: Global, inputs: &Inputs<'_>) -> Step
    ensures { Tells (elements_to_array.give inputs.now) result }
{
    if !inputs.all_present() {
        return nothing();
    }
    match firsts(alloc, inputs) {
        Ok(tokens) => sized(Token::Array(Items::of(tokens))),
        Err(_) => Step::Memory,
    }
}
