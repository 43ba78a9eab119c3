// `LogicalNot`: the negation of its input.
ghost use Rattle.pt_lib_data.specs.Reply.{Tells};
ghost use Rattle.pt_lib_data.specs.LogicalNot as logical_not;

use crate::reply::{nothing, one};
use pt_firing::{Inputs, Step};
use pt_value::Token;

pub(crate) fn give(inputs: &Inputs<'_>) -> Step
    ensures { Tells (logical_not.give inputs.now) result }
{
    match inputs.truth_at(0) {
        Some(truth) => one(Token::Bool(!truth)),
        None => nothing(),
    }
}
