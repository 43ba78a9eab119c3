ghost use Rattle.std.specs.Prelude.{◌≡◌, [], ◌∷◌, IsTrue, IfSome};
ghost use Rattle.pt_value.specs.declared.token.Token.TheVariants.{Int};
ghost use Rattle.pt_firing.specs.IntInputs.{one_at_each};

use pt_firing::{Inputs, IntInputs};
use pt_value::Token;

/// What a firing takes, where each place has one integer, and memory suffices. `row` is a buffer.
#[inline(always)]
pub(crate) fn int_inputs<'a>(inputs: &Inputs<'_>, row: &'a mut Vec<i64>) -> Option<IntInputs<'a>>
    ensures { IfSome result (λ ints. ints ≡ inputs.now) }
{
    if put_integers(inputs, row) {
        Some(IntInputs::one_at_each(row))
    } else {
        None
    }
}

/// Puts the one integer of each place into the buffer, if each has one, and memory suffices.
fn put_integers(inputs: &Inputs<'_>, row: &mut Vec<i64>) -> bool
    ensures { IsTrue result → one_at_each row.new.items ≡ inputs.now }
{
    row.clear();
    for place in 0..inputs.places() {
        let Some(number) = one_integer(inputs.list(place)) else {
            return false;
        };
        if row.push(number).is_err() {
            return false;
        }
    }
    true
}

/// The one integer of a list.
fn one_integer(tokens: &[Token]) -> Option<i64>
    ensures { IfSome result (λ number. tokens.now ≡ Int number ∷ []) }
{
    match tokens {
        [Token::Int(number)] => Some(*number),
        _ => None,
    }
}
