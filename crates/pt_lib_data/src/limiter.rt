ghost use Rattle.std.specs.Prelude.{◌≡◌};
ghost use Rattle.pt_lib_data.specs.Reply.{Tells};
ghost use Rattle.pt_lib_data.specs.Limiter as limiter;

use crate::reply::{nothing, one};
use pt_firing::{Inputs, Step, Values};
use pt_value::Token;

/// `Limiter`: the range to which it brings its input.
#[derive(Clone, Copy, Debug, PartialEq, Eq)]
pub struct Limiter {
    pub bottom: i64,
    pub top: i64,
}

impl Limiter {
    /// The range that the parameters say, if they are such as the row has them.
    pub(crate) fn start(values: &Values) -> Option<Limiter>
        ensures { result ≡ limiter.start values.now }
    {
        let (Some(Token::Int(bottom)), Some(Token::Int(top))) = (
            values.get("bottom"),
            values.get("top"),
        ) else {
            return None;
        };
        if *bottom <= *top {
            Some(Limiter {
                bottom: *bottom,
                top: *top,
            })
        } else {
            None
        }
    }

    /// The nearest number in the range.
    fn nearest(self, number: i64) -> i64
        ensures { result ≡ limiter.nearest self number }
    {
        if number < self.bottom {
            self.bottom
        } else if self.top < number {
            self.top
        } else {
            number
        }
    }

    pub(crate) fn give(self, inputs: &Inputs<'_>) -> Step
        ensures { Tells (limiter.give self inputs.now) result }
    {
        match inputs.number_at(0) {
            Some(number) => one(Token::Int(self.nearest(number))),
            None => nothing(),
        }
    }
}
