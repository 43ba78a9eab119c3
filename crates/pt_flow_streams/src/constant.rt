ghost use Rattle.std.specs.Prelude.{◌≡◌, IfOk};
ghost use Rattle.pt_flow_base.specs.Limit.{is_endless};
ghost use Rattle.pt_flow_base.specs.Number.{GivesNumber};
ghost use Rattle.pt_flow_streams.specs.Const as constant;

use pt_firing::{
    Actor, Fires, Inputs, IntInputs, Need, OneEach, Outputs, Partial, Step, strict_early,
};
use pt_flow_base::{Limit, Params, is_called};
use pt_time::Tag;
use pt_value::Token;
use std::alloc::{AllocError, Global};

/// `Const`: a source of one value.
#[derive(Drop)]
pub struct Const {
    value: Token,
    limit: Limit,
    places: OneEach,
}

impl Const {
    /// A source with so many trigger places: none, or one.
    pub fn new(
        alloc: Global,
        value: Token,
        limit: Limit,
        triggers: usize,
    ) -> Result<Const, AllocError>
        ensures { IfOk result (λ actor. actor ≡ record { value = value; limit = limit; places = triggers }) }
    {
        Ok(Const {
            value,
            limit,
            places: OneEach::of(alloc, triggers)?,
        })
    }

    /// The actor that the parameters start, if they are such as its row has them.
    pub fn start(alloc: Global, params: &Params) -> Result<Option<Const>, AllocError>
        ensures { IfOk result (λ actor. actor ≡ constant.start params.now) }
    {
        let triggers = params.ports.channels("trigger") as usize;
        match (params.values.get("value"), Limit::within(&params.values)) {
            (Some(value), Some(limit)) => {
                Ok(Some(Const::new(alloc, value.copy(alloc)?, limit, triggers)?))
            }
            _ => Ok(None),
        }
    }
}

impl Const {
    /// How many trigger places it has: none, or one.
    pub fn triggers(&self) -> usize
        ensures { result ≡ self.now.places }
    {
        self.places.places()
    }

    /// It has no limit.
    pub fn is_endless(&self) -> bool
        ensures { result ≡ is_endless self.now.limit }
    {
        self.limit.is_endless()
    }

    /// Makes the firing where it gives a number. Else it makes none.
    #[inline(always)]
    pub fn number(&mut self, inputs: &IntInputs<'_>) -> Option<i64>
        ensures { GivesNumber constant.step self.old inputs.now result self.new }
    {
        let Token::Int(number) = self.value else {
            return None;
        };
        if self.limit.is_over() || !is_called(inputs) {
            return None;
        }
        self.limit = self.limit.after_one();
        Some(number)
    }
}

impl Fires for Const {
    ghost use Rattle.pt_flow_streams.specs.Const as constant;

    ghost step = { constant.step };

    ghost Takes = { λ tag actor X. Unit {0} };

    ghost IsSpare = { constant.IsSpare };

    fn step(&mut self, alloc: Global, _tag: Tag, inputs: &Inputs<'_>) -> Step {
        if self.limit.is_over() || !is_called(inputs) {
            return Step::Done(Outputs::none(1));
        }
        let Ok(token) = self.value.copy(alloc) else {
            return Step::Memory;
        };
        self.limit = self.limit.after_one();
        Step::Done(Outputs::one(token))
    }

    fn copy(&self, alloc: Global) -> Result<Const, AllocError> {
        Ok(Const {
            value: self.value.copy(alloc)?,
            limit: self.limit,
            places: self.places.copy(alloc)?,
        })
    }
}

impl Actor for Const {
    ghost use Rattle.std.specs.Prelude.{[], None};
    ghost use Rattle.pt_firing.specs.Strict.{strict};
    ghost use Rattle.pt_flow_streams.specs.Const as constant;

    ghost first = { λ actor. [] };

    ghost need = { constant.need };

    ghost next = { λ actor. None };

    ghost early = { strict 1 constant.step };

    fn first(&self) -> &[Token] {
        &[]
    }

    fn need(&self) -> Need<'_> {
        if self.limit.is_over() {
            return Need::Over;
        }
        Need::All(self.places.counts())
    }

    fn early(&self, alloc: Global, tag: Tag, partial: &Partial) -> Result<Partial, AllocError> {
        strict_early(self, 1, alloc, tag, partial)
    }

    fn next(&self) -> Option<Tag> {
        None
    }
}
