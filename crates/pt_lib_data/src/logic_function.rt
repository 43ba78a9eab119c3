ghost use Rattle.std.specs.Prelude.{◌≡◌, ◌≤◌, ◌<◌, ◌+◌, ◌^◌, ℕ};
ghost use Rattle.pt_lib_data.specs.Reply.{Tells};
ghost use Rattle.pt_lib_data.specs.LogicFunction as logic_function;

use crate::params::text_or;
use crate::reply::{nothing, one};
use pt_firing::{Inputs, Step, Values};
use pt_value::Token;

/// `LogicFunction`: what it makes of its present inputs.
#[derive(Clone, Copy, Debug, PartialEq, Eq)]
pub enum Gate {
    And,
    Or,
    Xor,
    Nand,
    Nor,
    Xnor,
}

/// How many truth values are there, and how many of them are true.
#[derive(Clone, Copy, Debug)]
pub(crate) struct Tally {
    given: usize,
    trues: usize,
}

impl Tally {
    /// With one truth value more, if there is one.
    fn with(self, truth: Option<bool>) -> Tally
        requires given { self.given + 1 < 2 ^ 64 }
        requires trues { self.trues ≤ self.given }
        ensures given { result.given ≡ self.given + logic_function.count_given truth }
        ensures trues { result.trues ≡ self.trues + logic_function.count_true truth }
    {
        match truth {
            Some(true) => Tally {
                given: self.given + 1,
                trues: self.trues + 1,
            },
            Some(false) => Tally {
                given: self.given + 1,
                trues: self.trues,
            },
            None => self,
        }
    }

    fn of(inputs: &Inputs<'_>) -> Tally
        ensures given { result.given ≡ logic_function.given inputs.now }
        ensures trues { result.trues ≡ logic_function.trues inputs.now }
    {
        let mut tally = Tally { given: 0, trues: 0 };
        for place in 0..inputs.places() {
            tally = tally.with(inputs.truth_at(place));
        }
        tally
    }
}

impl Gate {
    fn of(text: &str) -> Option<Gate>
        ensures { result ≡ logic_function.gate_of text.now }
    {
        match text {
            "and" => Some(Gate::And),
            "or" => Some(Gate::Or),
            "xor" => Some(Gate::Xor),
            "nand" => Some(Gate::Nand),
            "nor" => Some(Gate::Nor),
            "xnor" => Some(Gate::Xnor),
            _ => None,
        }
    }

    /// The gate that the parameters say, if they are such as the row has them.
    pub(crate) fn start(values: &Values) -> Option<Gate>
        ensures { result ≡ logic_function.start values.now }
    {
        match text_or(values, "function", "and") {
            Some(text) => Gate::of(text),
            None => None,
        }
    }

    /// What it makes of so many truth values of which so many are true.
    fn of_tally(self, tally: Tally) -> bool
        ensures { result ≡ logic_function.decided self tally.given tally.trues }
    {
        match self {
            Gate::And => tally.trues == tally.given,
            Gate::Nand => tally.trues != tally.given,
            Gate::Or => tally.trues != 0,
            Gate::Nor => tally.trues == 0,
            Gate::Xor => tally.trues % 2 == 1,
            Gate::Xnor => tally.trues % 2 != 1,
        }
    }

    pub(crate) fn give(self, inputs: &Inputs<'_>) -> Step
        ensures { Tells (logic_function.give self inputs.now) result }
    {
        let tally = Tally::of(inputs);
        if tally.given == 0 {
            nothing()
        } else {
            one(Token::Bool(self.of_tally(tally)))
        }
    }
}
