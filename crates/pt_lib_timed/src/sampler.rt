ghost use Rattle.std.specs.Prelude.{◌≡◌, IfOk, IfSome, option_map};
ghost use Rattle.std.specs.Option.{option_or};
ghost use Rattle.pt_meaning.specs.Basics as basics;
ghost use Rattle.pt_value.specs.declared.token.Token.TheVariants.{Int};
ghost use Rattle.pt_lib_timed.specs.Sampler.{keeping};
ghost use Rattle.pt_lib_timed.specs.Sampler as sampler;
ghost use Rattle.pt_lib_timed.specs.Signal.{where_so, GivesSignal};

use crate::signal::{copy_of, int_of, outputs_of};
use pt_firing::{Actor, Fires, Inputs, Need, OneEach, Partial, Step, strict_early};
use pt_flow_base::Params;
use pt_time::Tag;
use pt_value::Token;
use std::alloc::{AllocError, Global};

/// `Sampler`: keeps its latest present input, and gives it where its trigger is present.
#[derive(Drop)]
pub struct Sampler {
    kept: Option<Token>,
    places: OneEach,
}

impl Sampler {
    /// The actor that the parameters start, if they are such as its row has them.
    pub fn start(alloc: Global, params: &Params) -> Result<Option<Sampler>, AllocError>
        ensures { IfOk result (λ actor. actor ≡ sampler.start params.now) }
    {
        let kept = copy_of(alloc, params.values.get("initialValue"))?;
        let places = OneEach::of(alloc, 2)?;
        Ok(Some(Sampler { kept, places }))
    }

    /// Makes a firing that takes and gives one integer at most, and takes no memory. Where it makes none, `step` makes the firing.
    #[inline(always)]
    pub fn signal(&mut self, inputs: &Inputs<'_>) -> Option<Option<i64>>
        ensures { (tag : basics.Tag) → GivesSignal sampler.step self.old tag inputs.now result self.new }
    {
        let input = int_of(inputs.token_at(0))?;
        let given = self.sampled(input, inputs.is_present(1))?;
        self.keep(input);
        Some(given)
    }

    /// What is given where this input came, and the trigger or not: one integer at most. Nothing is told of another token that is kept.
    fn sampled(&self, input: Option<i64>, triggered: bool) -> Option<Option<i64>>
        ensures { IfSome result (λ given. option_map Int given ≡ where_so triggered (option_or (option_map Int input) self.now.kept)) }
    {
        if !triggered {
            return Some(None);
        }
        match input {
            Some(number) => Some(Some(number)),
            None => int_of(self.kept.as_ref()),
        }
    }

    /// Keeps an input, if it is present.
    fn keep(&mut self, input: Option<i64>)
        ensures { self.new ≡ keeping self.old (option_map Int input) }
    {
        if let Some(number) = input {
            self.kept = Some(Token::Int(number));
        }
    }
}

impl Fires for Sampler {
    ghost use Rattle.pt_lib_timed.specs.Sampler as sampler;

    ghost step = { sampler.step };

    ghost Takes = { λ tag actor X. Unit {0} };

    ghost IsSpare = { λ actor. ⊥ };

    fn step(&mut self, alloc: Global, _tag: Tag, inputs: &Inputs<'_>) -> Step {
        let Ok(input) = copy_of(alloc, inputs.token_at(0)) else {
            return Step::Memory;
        };
        let given = if inputs.is_present(1) {
            copy_of(alloc, input.as_ref().or(self.kept.as_ref()))
        } else {
            Ok(None)
        };
        let Ok(given) = given else {
            return Step::Memory;
        };
        if input.is_some() {
            self.kept = input;
        }
        Step::Done(outputs_of(given))
    }

    fn copy(&self, alloc: Global) -> Result<Sampler, AllocError> {
        Ok(Sampler {
            kept: copy_of(alloc, self.kept.as_ref())?,
            places: self.places.copy(alloc)?,
        })
    }
}

impl Actor for Sampler {
    ghost use Rattle.std.specs.Prelude.{[], None};
    ghost use Rattle.pt_firing.specs.Strict.{strict};
    ghost use Rattle.pt_lib_timed.specs.Sampler as sampler;

    ghost first = { λ actor. [] };

    ghost need = { sampler.need };

    ghost next = { λ actor. None };

    ghost early = { strict 1 sampler.step };

    fn first(&self) -> &[Token] {
        &[]
    }

    fn need(&self) -> Need<'_> {
        Need::All(self.places.counts())
    }

    fn early(&self, alloc: Global, tag: Tag, partial: &Partial) -> Result<Partial, AllocError> {
        strict_early(self, 1, alloc, tag, partial)
    }

    fn next(&self) -> Option<Tag> {
        None
    }
}
