ghost use Rattle.std.specs.Prelude.{◌≡◌, IfOk, option_map};
ghost use Rattle.pt_flow_base.specs.Number.{GivesNumber};
ghost use Rattle.pt_flow_streams.specs.SampleDelay.{initial_of};
ghost use Rattle.pt_flow_streams.specs.SampleDelay as sample_delay;

use pt_firing::{
    Actor, Fires, Inputs, IntInputs, Need, OneEach, Outputs, Partial, Step, Tokens, strict_early,
};
use pt_flow_base::Params;
use pt_time::Tag;
use pt_value::Token;
use std::alloc::{AllocError, Global};

/// `SampleDelay`: passes its input, behind some first tokens.
#[derive(Drop)]
pub struct SampleDelay {
    initial: Tokens,
    places: OneEach,
}

impl SampleDelay {
    pub fn new(alloc: Global, initial: Tokens) -> Result<SampleDelay, AllocError>
        ensures { IfOk result (λ actor. actor ≡ record { initial = initial; places = 1 }) }
    {
        Ok(SampleDelay {
            initial,
            places: OneEach::of(alloc, 1)?,
        })
    }

    /// The actor that the parameters start, if they are such as its row has them.
    pub fn start(alloc: Global, params: &Params) -> Result<Option<SampleDelay>, AllocError>
        ensures { IfOk result (λ actor. actor ≡ sample_delay.start params.now) }
    {
        match initial_of(alloc, params.values.get("initialOutputs"))? {
            Some(initial) => Ok(Some(SampleDelay::new(alloc, initial)?)),
            None => Ok(None),
        }
    }

    /// Makes the firing where it gives a number. Else it makes none.
    #[inline(always)]
    pub fn number(&self, inputs: &IntInputs<'_>) -> Option<i64>
        ensures { GivesNumber sample_delay.step self.now inputs.now result self.now }
    {
        inputs.number_at(0)
    }
}

/// The first tokens that a value says, or one 0 where there is none.
fn initial_of(alloc: Global, value: Option<&Token>) -> Result<Option<Tokens>, AllocError>
    ensures { IfOk result (λ tokens. tokens ≡ initial_of (option_map (λ token. token.now) value.entry)) }
{
    Ok(match value {
        None => Some(Tokens::one(Token::Int(0))),
        Some(Token::Array(items)) => Some(Tokens::of(items.copy(alloc)?.into_vec())),
        Some(_) => None,
    })
}

impl Fires for SampleDelay {
    ghost use Rattle.pt_flow_streams.specs.SampleDelay as sample_delay;

    ghost step = { sample_delay.step };

    ghost Takes = { λ tag actor X. Unit {0} };

    ghost IsSpare = { λ actor. ⊥ };

    fn step(&mut self, alloc: Global, _tag: Tag, inputs: &Inputs<'_>) -> Step {
        let Some(token) = inputs.token_at(0) else {
            return Step::Done(Outputs::none(1));
        };
        match token.copy(alloc) {
            Ok(token) => Step::Done(Outputs::one(token)),
            Err(_) => Step::Memory,
        }
    }

    fn copy(&self, alloc: Global) -> Result<SampleDelay, AllocError> {
        Ok(SampleDelay {
            initial: self.initial.copy(alloc)?,
            places: self.places.copy(alloc)?,
        })
    }
}

impl Actor for SampleDelay {
    ghost use Rattle.std.specs.Prelude.{None};
    ghost use Rattle.pt_firing.specs.Strict.{strict};
    ghost use Rattle.pt_flow_streams.specs.SampleDelay as sample_delay;

    ghost first = { sample_delay.first };

    ghost need = { sample_delay.need };

    ghost next = { λ actor. None };

    ghost early = { strict 1 sample_delay.step };

    fn first(&self) -> &[Token] {
        self.initial.as_slice()
    }

    fn need(&self) -> Need<'_> {
        Need::All(self.places.counts())
    }

    fn early(&self, alloc: Global, tag: Tag, partial: &Partial) -> Result<Partial, AllocError> {
        strict_early(self, 1, alloc, tag, partial)
    }

    fn next(&self) -> Option<Tag> {
        None
    }
}
