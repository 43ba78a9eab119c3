ghost use Rattle.std.specs.Prelude.{◌≡◌, ◌-◌, [], ◌∷◌, IfOk};
ghost use Rattle.pt_flow_base.specs.Number.{GivesNumber};
ghost use Rattle.pt_flow_streams.specs.DownSample as down_sample;

use pt_firing::{
    Actor, Counts, Fires, Inputs, IntInputs, Need, Outputs, Partial, Step, strict_early,
};
use pt_flow_base::{Params, factor_and_phase, first_list};
use pt_time::Tag;
use pt_value::Token;
use std::alloc::{AllocError, Global};

/// `DownSample`: of so many tokens gives one.
#[derive(Debug, Drop)]
pub struct DownSample {
    needed: Counts,
    /// Which of the tokens it gives.
    index: usize,
}

impl DownSample {
    /// An actor that takes so many tokens as the factor says, and gives that before as many others as the phase says.
    pub fn new(alloc: Global, factor: usize, phase: usize) -> Result<DownSample, AllocError>
        ensures { IfOk result (λ actor. actor ≡ record { needed = factor ∷ []; index = factor - 1 - phase }) }
    {
        Ok(DownSample {
            needed: Counts::of(vec![in alloc; factor]?),
            index: factor.saturating_sub(1).saturating_sub(phase),
        })
    }

    /// The actor that the parameters start, if they are such as its row has them.
    pub fn start(alloc: Global, params: &Params) -> Result<Option<DownSample>, AllocError>
        ensures { IfOk result (λ actor. actor ≡ down_sample.start params.now) }
    {
        match factor_and_phase(&params.values) {
            Some((factor, phase)) => Ok(Some(DownSample::new(alloc, factor, phase)?)),
            None => Ok(None),
        }
    }

    /// Makes the firing where it gives a number. Else it makes none.
    #[inline(always)]
    pub fn number(&self, inputs: &IntInputs<'_>) -> Option<i64>
        ensures { GivesNumber down_sample.step self.now inputs.now result self.now }
    {
        inputs.list(0).get(self.index).copied()
    }
}

impl Fires for DownSample {
    ghost use Rattle.pt_flow_streams.specs.DownSample as down_sample;

    ghost step = { down_sample.step };

    ghost Takes = { λ tag actor X. Unit {0} };

    ghost IsSpare = { λ actor. ⊥ };

    fn step(&mut self, alloc: Global, _tag: Tag, inputs: &Inputs<'_>) -> Step {
        let Some(token) = first_list(inputs).get(self.index) else {
            return Step::Done(Outputs::none(1));
        };
        match token.copy(alloc) {
            Ok(token) => Step::Done(Outputs::one(token)),
            Err(_) => Step::Memory,
        }
    }

    fn copy(&self, alloc: Global) -> Result<DownSample, AllocError> {
        Ok(DownSample {
            needed: self.needed.copy(alloc)?,
            index: self.index,
        })
    }
}

impl Actor for DownSample {
    ghost use Rattle.std.specs.Prelude.{[], None};
    ghost use Rattle.pt_firing.specs.Strict.{strict};
    ghost use Rattle.pt_flow_streams.specs.DownSample as down_sample;

    ghost first = { λ actor. [] };

    ghost need = { down_sample.need };

    ghost next = { λ actor. None };

    ghost early = { strict 1 down_sample.step };

    fn first(&self) -> &[Token] {
        &[]
    }

    fn need(&self) -> Need<'_> {
        Need::All(&self.needed)
    }

    fn early(&self, alloc: Global, tag: Tag, partial: &Partial) -> Result<Partial, AllocError> {
        strict_early(self, 1, alloc, tag, partial)
    }

    fn next(&self) -> Option<Tag> {
        None
    }
}
