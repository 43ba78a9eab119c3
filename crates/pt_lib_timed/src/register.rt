ghost use Rattle.std.specs.Prelude.{◌≡◌, IfOk, option_map};
ghost use Rattle.pt_lib_timed.specs.Register.{given, keeping, repeated, last_of, count_known};
ghost use Rattle.pt_meaning.specs.Machine.{partial_at};
ghost use Rattle.pt_firing.specs.TriState.{partial_of};
ghost use Rattle.pt_lib_timed.specs.Register as register;

use crate::arrivals::list_at;
use crate::latest::Latest;
use crate::signal::{copy_of, told};
use pt_firing::{Actor, Fires, Inputs, Need, OneEach, Outputs, Partial, Step, Tokens, TriState};
use pt_flow_base::Params;
use pt_time::Tag;
use pt_value::Token;
use std::alloc::{AllocError, Global};

/// `Register`: keeps the last token of its input, and gives for each token of its trigger the one that was kept at an earlier
/// tag.
#[derive(Drop)]
pub struct Register {
    // What was kept before the tag of the latest one.
    before: Option<Token>,
    // The latest one, with the tag at which it was kept.
    latest: Latest,
    places: OneEach,
}

impl Register {
    /// The actor that the parameters start, if they are such as its row has them.
    pub fn start(alloc: Global, params: &Params) -> Result<Option<Register>, AllocError>
        ensures { IfOk result (λ actor. actor ≡ register.start params.now) }
    {
        let before = copy_of(alloc, params.values.get("initialValue"))?;
        let latest = Latest::of(alloc, None)?;
        let places = OneEach::of(alloc, 2)?;
        Ok(Some(Register {
            before,
            latest,
            places,
        }))
    }

    /// What it gives at a tag.
    fn given(&self, tag: Tag) -> Option<&Token>
        ensures { option_map (λ token. token.now) result ≡ given tag self.now }
    {
        match self.latest.get() {
            Some(latest) if latest.0 < tag => Some(&latest.1),
            _ => self.before.as_ref(),
        }
    }

    /// Keeps a token from a tag on, where there is one.
    fn keep(&mut self, tag: Tag, input: Option<Token>)
        ensures { self.new ≡ keeping tag self.old input }
    {
        let Some(token) = input else {
            return;
        };
        match self.latest.replace(Some((tag, token))) {
            Some(latest) if latest.0 < tag => self.before = Some(latest.1),
            _ => {}
        }
    }
}

/// Copies of a token for each of some, none where there is none.
fn for_each(alloc: Global, count: usize, token: Option<&Token>) -> Result<Tokens, AllocError>
    ensures { IfOk result (λ tokens. tokens ≡ repeated count (option_map (λ token. token.now) token.entry)) }
{
    let mut tokens = Tokens::new();
    let Some(token) = token else {
        return Ok(tokens);
    };
    for _ in 0..count {
        let copy = token.copy(alloc)?;
        tokens.push(alloc, copy)?;
    }
    Ok(tokens)
}

/// The last of some tokens.
fn last_of(tokens: &[Token]) -> Option<&Token>
    ensures { option_map (λ token. token.now) result ≡ last_of tokens.now }
{
    tokens.last()
}

/// A copy of what is kept, with its tag.
fn copy_of_kept(
    alloc: Global,
    kept: Option<&(Tag, Token)>,
) -> Result<Option<(Tag, Token)>, AllocError>
    ensures { IfOk result (λ copy. copy ≡ option_map (λ kept. kept.now) kept.entry) }
{
    match kept {
        Some(kept) => Ok(Some((kept.0, kept.1.copy(alloc)?))),
        None => Ok(None),
    }
}

/// How many tokens are known, where they are.
fn count_in(state: &TriState) -> Option<usize>
    ensures { result ≡ count_known (partial_of state.now) }
{
    match state {
        TriState::Unknown => None,
        TriState::Absent => Some(0),
        TriState::Present(_) => Some(1),
        TriState::More(items) => Some(items.len()),
    }
}

/// How many tokens are known on a place, where they are.
fn known_count(partial: &Partial, place: usize) -> Option<usize>
    ensures { result ≡ count_known (partial_at partial.now place) }
{
    if place < partial.places() {
        count_in(partial.get(place))
    } else {
        None
    }
}

impl Fires for Register {
    ghost use Rattle.pt_lib_timed.specs.Register as register;

    ghost step = { register.step };

    ghost Takes = { λ tag actor X. Unit {0} };

    ghost IsSpare = { λ actor. ⊥ };

    fn step(&mut self, alloc: Global, tag: Tag, inputs: &Inputs<'_>) -> Step {
        let Ok(given) = for_each(alloc, list_at(inputs, 1).len(), self.given(tag)) else {
            return Step::Memory;
        };
        let Ok(input) = copy_of(alloc, last_of(list_at(inputs, 0))) else {
            return Step::Memory;
        };
        self.keep(tag, input);
        Step::Done(Outputs::first(1, given))
    }

    fn copy(&self, alloc: Global) -> Result<Register, AllocError> {
        let before = copy_of(alloc, self.before.as_ref())?;
        let latest = copy_of_kept(alloc, self.latest.get().as_ref())?;
        Ok(Register {
            before,
            latest: Latest::of(alloc, latest)?,
            places: self.places.copy(alloc)?,
        })
    }
}

impl Actor for Register {
    ghost use Rattle.std.specs.Prelude.{[], None};
    ghost use Rattle.pt_lib_timed.specs.Register as register;

    ghost first = { λ actor. [] };

    ghost need = { register.need };

    ghost next = { λ actor. None };

    ghost early = { register.early };

    fn first(&self) -> &[Token] {
        &[]
    }

    fn need(&self) -> Need<'_> {
        Need::All(self.places.counts())
    }

    fn early(&self, alloc: Global, tag: Tag, partial: &Partial) -> Result<Partial, AllocError> {
        match known_count(partial, 1) {
            Some(count) => told(alloc, for_each(alloc, count, self.given(tag))?),
            None => Partial::unknown(alloc, 1),
        }
    }

    fn next(&self) -> Option<Tag> {
        None
    }
}
