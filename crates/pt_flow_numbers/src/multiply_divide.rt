ghost use Rattle.std.specs.Prelude.{◌≡◌, ◌≤◌, ◌+◌, IfOk, length, take, drop};
ghost use Rattle.pt_flow_numbers.specs.MultiplyDivide.{of_two, after, after_all, quotient_of, ratio_of};
ghost use Rattle.pt_flow_base.specs.Row.{present};
ghost use Rattle.pt_flow_base.specs.Number.{GivesNumber};
ghost use Rattle.pt_flow_numbers.specs.MultiplyDivide as multiply_divide;

use pt_firing::{
    Actor, Fires, Inputs, IntInputs, Need, OneEach, Outputs, Partial, RunFault, Step, strict_early,
};
use pt_flow_base::{Numbered, Params, sum_between};
use pt_time::Tag;
use pt_value::Token;
use std::alloc::{AllocError, Global};

/// `MultiplyDivide`: gives the product of its multiply inputs, divided by each of its divide inputs.
#[derive(Debug, Drop)]
pub struct MultiplyDivide {
    multiply: usize,
    places: OneEach,
}

impl MultiplyDivide {
    /// An actor with so many multiply places, and then so many divide places.
    pub fn new(alloc: Global, multiply: u32, divide: u32) -> Result<MultiplyDivide, AllocError>
        ensures { IfOk result (λ actor. actor ≡ record { multiply = multiply; places = multiply + divide }) }
    {
        Ok(MultiplyDivide {
            multiply: multiply as usize,
            places: OneEach::of(alloc, multiply as usize + divide as usize)?,
        })
    }

    /// The actor that the parameters start, if they are such as its row has them.
    pub fn start(alloc: Global, params: &Params) -> Result<Option<MultiplyDivide>, AllocError>
        ensures { IfOk result (λ actor. actor ≡ multiply_divide.start params.now) }
    {
        let multiply = params.ports.channels("multiply");
        let divide = params.ports.channels("divide");
        Ok(Some(MultiplyDivide::new(alloc, multiply, divide)?))
    }

    /// The result, if any number is present.
    fn ratio<I: Numbered>(&self, inputs: &I) -> Option<Result<i64, RunFault>>
        ensures { result ≡ ratio_of self.now.multiply (I.streams inputs.now) }
    {
        let end = inputs.places();
        let middle = self.multiply.min(end);
        if sum_between(inputs, 0, end).is_empty {
            return None;
        }
        Some(quotient(inputs, middle))
    }

    /// Makes the firing where it gives a number. Else it makes none.
    #[inline(always)]
    pub fn number(&self, inputs: &IntInputs<'_>) -> Option<i64>
        ensures { GivesNumber multiply_divide.step self.now inputs.now result self.now }
    {
        match self.ratio(inputs) {
            Some(Ok(number)) => Some(number),
            _ => None,
        }
    }
}

/// The product of the numbers before a place, divided by each of the others.
fn quotient<I: Numbered>(inputs: &I, middle: usize) -> Result<i64, RunFault>
    requires { middle ≤ length (I.streams inputs.now) }
    ensures { result ≡ quotient_of middle (I.streams inputs.now) }
{
    let product = Operation::Times.of_places(inputs, 0, middle, Ok(1));
    Operation::By.of_places(inputs, middle, inputs.places(), product)
}

/// What is done with a partial result and one number.
#[derive(Clone, Copy, Debug, PartialEq, Eq)]
enum Operation {
    Times,
    By,
}

impl Operation {
    fn of_two(self, partial: i64, number: i64) -> Result<i64, RunFault>
        ensures { result ≡ of_two self partial number }
    {
        match self {
            Operation::Times => partial.checked_mul(number).ok_or(RunFault::Overflow),
            Operation::By if number == 0 => Err(RunFault::DivideByZero),
            Operation::By => partial.checked_div(number).ok_or(RunFault::Overflow),
        }
    }

    /// The result with one number, if there is one.
    fn after(self, before: Result<i64, RunFault>, number: Option<i64>) -> Result<i64, RunFault>
        ensures { result ≡ after self before number }
    {
        match (before, number) {
            (Err(fault), _) => Err(fault),
            (Ok(partial), None) => Ok(partial),
            (Ok(partial), Some(number)) => self.of_two(partial, number),
        }
    }

    /// The result with the numbers at the places from one on, up to before another, in order.
    fn of_places<I: Numbered>(
        self,
        inputs: &I,
        from: usize,
        to: usize,
        start: Result<i64, RunFault>,
    ) -> Result<i64, RunFault>
        requires order { from ≤ to }
        requires within { to ≤ length (I.streams inputs.now) }
        ensures { result ≡ after_all self start (present (drop from (take to (I.streams inputs.now)))) }
    {
        let mut partial = start;
        for place in from..to {
            partial = self.after(partial, inputs.number_at(place));
        }
        partial
    }
}

impl Fires for MultiplyDivide {
    ghost use Rattle.pt_flow_numbers.specs.MultiplyDivide as multiply_divide;

    ghost step = { multiply_divide.step };

    ghost Takes = { λ tag actor X. Unit {0} };

    ghost IsSpare = { λ actor. Unit {0} };

    fn step(&mut self, _alloc: Global, _tag: Tag, inputs: &Inputs<'_>) -> Step {
        match self.ratio(inputs) {
            None => Step::Done(Outputs::none(1)),
            Some(Ok(number)) => Step::Done(Outputs::one(Token::Int(number))),
            Some(Err(fault)) => Step::Fault(fault),
        }
    }

    fn copy(&self, alloc: Global) -> Result<MultiplyDivide, AllocError> {
        Ok(MultiplyDivide {
            multiply: self.multiply,
            places: self.places.copy(alloc)?,
        })
    }
}

impl Actor for MultiplyDivide {
    ghost use Rattle.std.specs.Prelude.{[], None};
    ghost use Rattle.pt_firing.specs.Strict.{strict};
    ghost use Rattle.pt_flow_numbers.specs.MultiplyDivide as multiply_divide;

    ghost first = { λ actor. [] };

    ghost need = { multiply_divide.need };

    ghost next = { λ actor. None };

    ghost early = { strict 1 multiply_divide.step };

    fn first(&self) -> &[Token] {
        &[]
    }

    fn need(&self) -> Need<'_> {
        Need::All(self.places.counts())
    }

    fn early(&self, alloc: Global, tag: Tag, partial: &Partial) -> Result<Partial, AllocError> {
        strict_early(self, 1, alloc, tag, partial)
    }

    fn next(&self) -> Option<Tag> {
        None
    }
}
