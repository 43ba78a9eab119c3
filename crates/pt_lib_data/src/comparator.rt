ghost use Rattle.std.specs.Prelude.{◌≡◌};
ghost use Rattle.pt_lib_data.specs.Reply.{Tells};
ghost use Rattle.pt_lib_data.specs.Comparator as comparator;

use crate::params::text_or;
use crate::reply::{nothing, one};
use pt_firing::{Inputs, Step, Values};
use pt_value::Token;

/// `Comparator`: how its left input is compared with its right one.
#[derive(Clone, Copy, Debug, PartialEq, Eq)]
pub enum Relation {
    Less,
    LessEqual,
    Greater,
    GreaterEqual,
    Equal,
}

impl Relation {
    fn of(text: &str) -> Option<Relation>
        ensures { result ≡ comparator.relation_of text.now }
    {
        match text {
            "<" => Some(Relation::Less),
            "<=" => Some(Relation::LessEqual),
            ">" => Some(Relation::Greater),
            ">=" => Some(Relation::GreaterEqual),
            "==" => Some(Relation::Equal),
            _ => None,
        }
    }

    /// The relation that the parameters say, if they are such as the row has them.
    pub(crate) fn start(values: &Values) -> Option<Relation>
        ensures { result ≡ comparator.start values.now }
    {
        match text_or(values, "comparison", ">") {
            Some(text) => Relation::of(text),
            None => None,
        }
    }

    /// Whether it holds.
    fn holds(self, left: i64, right: i64) -> bool
        ensures { result ≡ comparator.holds self left right }
    {
        match self {
            Relation::Less => left < right,
            Relation::LessEqual => left <= right,
            Relation::Greater => right < left,
            Relation::GreaterEqual => right <= left,
            Relation::Equal => left == right,
        }
    }

    pub(crate) fn give(self, inputs: &Inputs<'_>) -> Step
        ensures { Tells (comparator.give self inputs.now) result }
    {
        match (inputs.number_at(0), inputs.number_at(1)) {
            (Some(left), Some(right)) => one(Token::Bool(self.holds(left, right))),
            _ => nothing(),
        }
    }
}
