// `StringLength`: how many characters its input has.
ghost use Rattle.std.specs.Prelude.{◌≡◌, length, chars};
ghost use Rattle.pt_lib_data.specs.Reply.{Tells};
ghost use Rattle.pt_lib_data.specs.StringLength as string_length;

use crate::reply::{nothing, one};
use pt_firing::{Inputs, RunFault, Step};
use pt_value::Token;

fn characters(text: &str) -> usize
    ensures { result ≡ length (chars text.now) }
{
    text.chars().count()
}

fn counted(count: usize) -> Step
    ensures { Tells (string_length.counted count) result }
{
    match i64::try_from(count) {
        Ok(count) => one(Token::Int(count)),
        // No memory holds so many.
        Err(_) => Step::Fault(RunFault::Overflow),
    }
}

pub(crate) fn give(inputs: &Inputs<'_>) -> Step
    ensures { Tells (string_length.give inputs.now) result }
{
    match inputs.token_at(0) {
        Some(Token::Text(text)) => counted(characters(text.as_str())),
        _ => nothing(),
    }
}
