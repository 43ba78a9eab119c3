ghost use Rattle.std.specs.Prelude.{◌≡◌, IfOk};
ghost use Rattle.pt_flow_numbers.specs.Extreme.{of_two, better, extreme, start, step};
ghost use Rattle.pt_flow_base.specs.Number.{GivesNumber};

use pt_firing::{
    Actor, Fires, Inputs, IntInputs, Need, OneEach, Outputs, Partial, Step, strict_early,
};
use pt_flow_base::{Numbered, Params};
use pt_time::Tag;
use pt_value::Token;
use std::alloc::{AllocError, Global};

/// Whether the greatest or the least is wanted.
#[derive(Clone, Copy, Debug, PartialEq, Eq)]
pub enum Side {
    Greatest,
    Least,
}

impl Side {
    /// The greater, or the lesser, of two numbers.
    fn of_two(self, a: i64, b: i64) -> i64
        ensures { result ≡ of_two self a b }
    {
        match self {
            Side::Greatest => if a <= b { b } else { a },
            Side::Least => if a <= b { a } else { b },
        }
    }

    /// The best of some numbers, after one more, if there is one.
    fn better(self, best: Option<i64>, number: Option<i64>) -> Option<i64>
        ensures { result ≡ better self best number }
    {
        match (best, number) {
            (best, None) => best,
            (None, Some(number)) => Some(number),
            (Some(best), Some(number)) => Some(self.of_two(best, number)),
        }
    }

    /// Of the numbers that are present, if there are any.
    fn of_places<I: Numbered>(self, inputs: &I) -> Option<i64>
        ensures { result ≡ extreme self (I.streams inputs.now) }
    {
        let mut best = None;
        for place in 0..inputs.places() {
            best = self.better(best, inputs.number_at(place));
        }
        best
    }
}

/// `Maximum` and `Minimum`: the greatest, or the least, of the present inputs.
#[derive(Debug, Drop)]
pub struct Extreme {
    side: Side,
    places: OneEach,
}

impl Extreme {
    /// An actor with so many places.
    pub fn new(alloc: Global, side: Side, places: u32) -> Result<Extreme, AllocError>
        ensures { IfOk result (λ actor. actor ≡ record { side = side; places = places }) }
    {
        Ok(Extreme {
            side,
            places: OneEach::of(alloc, places as usize)?,
        })
    }

    /// The actor that the parameters start, if they are such as its row has them.
    pub fn start(side: Side, alloc: Global, params: &Params) -> Result<Option<Extreme>, AllocError>
        ensures { IfOk result (λ actor. actor ≡ start side params.now) }
    {
        Ok(Some(Extreme::new(alloc, side, params.ports.channels("input"))?))
    }

    /// Makes the firing where it gives a number. Else it makes none.
    #[inline(always)]
    pub fn number(&self, inputs: &IntInputs<'_>) -> Option<i64>
        ensures { GivesNumber step self.now inputs.now result self.now }
    {
        self.side.of_places(inputs)
    }
}

impl Fires for Extreme {
    ghost use Rattle.pt_flow_numbers.specs.Extreme as extreme;

    ghost step = { extreme.step };

    ghost Takes = { λ tag actor X. Unit {0} };

    ghost IsSpare = { λ actor. Unit {0} };

    fn step(&mut self, _alloc: Global, _tag: Tag, inputs: &Inputs<'_>) -> Step {
        match self.side.of_places(inputs) {
            None => Step::Done(Outputs::none(1)),
            Some(number) => Step::Done(Outputs::one(Token::Int(number))),
        }
    }

    fn copy(&self, alloc: Global) -> Result<Extreme, AllocError> {
        Ok(Extreme {
            side: self.side,
            places: self.places.copy(alloc)?,
        })
    }
}

impl Actor for Extreme {
    ghost use Rattle.std.specs.Prelude.{[], None};
    ghost use Rattle.pt_firing.specs.Strict.{strict};
    ghost use Rattle.pt_flow_numbers.specs.Extreme as extreme;

    ghost first = { λ actor. [] };

    ghost need = { extreme.need };

    ghost next = { λ actor. None };

    ghost early = { strict 1 extreme.step };

    fn first(&self) -> &[Token] {
        &[]
    }

    fn need(&self) -> Need<'_> {
        Need::All(self.places.counts())
    }

    fn early(&self, alloc: Global, tag: Tag, partial: &Partial) -> Result<Partial, AllocError> {
        strict_early(self, 1, alloc, tag, partial)
    }

    fn next(&self) -> Option<Tag> {
        None
    }
}
