ghost use Rattle.std.specs.Prelude.{◌≡◌, ◌<◌, IfOk, length};
ghost use Rattle.pt_flow_base.specs.Number.{GivesNumber};
ghost use Rattle.pt_flow_streams.specs.Sequence.{moved};
ghost use Rattle.pt_flow_streams.specs.Sequence as sequence;

use pt_firing::{
    Actor, Fires, Inputs, IntInputs, Need, OneEach, Outputs, Partial, Step, strict_early,
};
use pt_flow_base::{Params, is_called};
use pt_time::Tag;
use pt_value::{Items, Token};
use std::alloc::{AllocError, Global};

/// `Sequence`: a source of some values in order, which then begins again or is over.
#[derive(Drop)]
pub struct Sequence {
    values: Items,
    cyclic: bool,
    index: usize,
    places: OneEach,
}

impl Sequence {
    /// A source with so many trigger places: none, or one.
    pub fn new(
        alloc: Global,
        values: Items,
        cyclic: bool,
        triggers: u32,
    ) -> Result<Sequence, AllocError>
        ensures { IfOk result (λ actor. actor ≡ record { values = values; cyclic = cyclic; index = 0; places = triggers }) }
    {
        Ok(Sequence {
            values,
            cyclic,
            index: 0,
            places: OneEach::of(alloc, triggers as usize)?,
        })
    }

    /// The actor that the parameters start, if they are such as its row has them.
    pub fn start(alloc: Global, params: &Params) -> Result<Option<Sequence>, AllocError>
        ensures { IfOk result (λ actor. actor ≡ sequence.start params.now) }
    {
        let triggers = params.ports.channels("trigger");
        match (
            params.values.get("values"),
            params.values.bool_or("repeat", false),
        ) {
            (Some(Token::Array(values)), Some(cyclic)) if !values.is_empty() => {
                Ok(Some(Sequence::new(alloc, values.copy(alloc)?, cyclic, triggers)?))
            }
            _ => Ok(None),
        }
    }

    /// How many trigger places it has: none, or one.
    pub fn triggers(&self) -> usize
        ensures { result ≡ self.now.places }
    {
        self.places.places()
    }

    /// It begins again behind its last value.
    pub fn is_cyclic(&self) -> bool
        ensures { result ≡ self.now.cyclic }
    {
        self.cyclic
    }

    /// The index behind one of the values.
    #[tactic(auto, unfolding(crate::specs::Sequence::index_after))]
    fn moved(&self) -> usize
        requires { self.now.index < length self.now.values }
        ensures { result ≡ (moved self.now).index }
    {
        let count = self.values.len();
        let index = self.index + 1;
        if self.cyclic && count <= index {
            0
        } else {
            index
        }
    }

    /// Makes the firing where it gives a number. Else it makes none.
    #[inline(always)]
    pub fn number(&mut self, inputs: &IntInputs<'_>) -> Option<i64>
        ensures { GivesNumber sequence.step self.old inputs.now result self.new }
    {
        let Some(Token::Int(number)) = self.values.get(self.index) else {
            return None;
        };
        if !is_called(inputs) {
            return None;
        }
        let given = *number;
        self.index = self.moved();
        Some(given)
    }
}

impl Fires for Sequence {
    ghost use Rattle.pt_flow_streams.specs.Sequence as sequence;

    ghost step = { sequence.step };

    ghost Takes = { λ tag actor X. Unit {0} };

    ghost IsSpare = { λ actor. ⊥ };

    fn step(&mut self, alloc: Global, _tag: Tag, inputs: &Inputs<'_>) -> Step {
        let Some(value) = self.values.get(self.index) else {
            return Step::Done(Outputs::none(1));
        };
        if !is_called(inputs) {
            return Step::Done(Outputs::none(1));
        }
        let Ok(token) = value.copy(alloc) else {
            return Step::Memory;
        };
        self.index = self.moved();
        Step::Done(Outputs::one(token))
    }

    fn copy(&self, alloc: Global) -> Result<Sequence, AllocError> {
        Ok(Sequence {
            values: self.values.copy(alloc)?,
            cyclic: self.cyclic,
            index: self.index,
            places: self.places.copy(alloc)?,
        })
    }
}

impl Actor for Sequence {
    ghost use Rattle.std.specs.Prelude.{[], None};
    ghost use Rattle.pt_firing.specs.Strict.{strict};
    ghost use Rattle.pt_flow_streams.specs.Sequence as sequence;

    ghost first = { λ actor. [] };

    ghost need = { sequence.need };

    ghost next = { λ actor. None };

    ghost early = { strict 1 sequence.step };

    fn first(&self) -> &[Token] {
        &[]
    }

    fn need(&self) -> Need<'_> {
        if self.index < self.values.len() {
            Need::All(self.places.counts())
        } else {
            Need::Over
        }
    }

    fn early(&self, alloc: Global, tag: Tag, partial: &Partial) -> Result<Partial, AllocError> {
        strict_early(self, 1, alloc, tag, partial)
    }

    fn next(&self) -> Option<Tag> {
        None
    }
}
