// `Equals`: whether all its present inputs are the same.
ghost use Rattle.std.specs.Prelude.{◌≡◌, option_map};
ghost use Rattle.pt_lib_data.specs.Reply.{Tells};
ghost use Rattle.pt_lib_data.specs.Equals as equals;

use crate::reply::{nothing, one};
use pt_firing::{Inputs, Step};
use pt_value::Token;

/// The first token that is present.
fn first_present<'a>(inputs: &'a Inputs<'_>) -> Option<&'a Token>
    ensures { option_map (λ t. t.now) result ≡ equals.first_present inputs.now }
{
    for place in 0..inputs.places() {
        if let Some(token) = inputs.token_at(place) {
            return Some(token);
        }
    }
    None
}

/// Whether a place has no token, or this one.
fn agrees(token: &Token, inputs: &Inputs<'_>, place: usize) -> bool
    ensures { result ≡ equals.agrees token.now inputs.now place }
{
    match inputs.token_at(place) {
        Some(other) => token.same(other),
        None => true,
    }
}

/// Whether each token that is present is this one.
fn all_agree(token: &Token, inputs: &Inputs<'_>) -> bool
    ensures { result ≡ equals.all_agree token.now inputs.now }
{
    for place in 0..inputs.places() {
        if !agrees(token, inputs, place) {
            return false;
        }
    }
    true
}

pub(crate) fn give(inputs: &Inputs<'_>) -> Step
    ensures { Tells (equals.give inputs.now) result }
{
    match first_present(inputs) {
        Some(token) => one(Token::Bool(all_agree(token, inputs))),
        None => nothing(),
    }
}
