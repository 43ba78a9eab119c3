// What is known on a place at a tick, and what an actor gives on its one output.
ghost use Rattle.std.specs.Prelude.{◌≡◌, [], ◌∷◌, Some, IfOk, option_map};
ghost use Rattle.pt_meaning.specs.Basics as basics;
ghost use Rattle.pt_meaning.specs.Machine.{Known, partial_at};
ghost use Rattle.pt_meaning.specs.Valuation.{known, is_known};
ghost use Rattle.pt_value.specs.declared.token.Token as token;
ghost use Rattle.pt_firing.specs.Row.{first_in};
ghost use Rattle.pt_firing.specs.Strict.{strict};
ghost use Rattle.pt_firing.specs.TriState.{partial_of, tokens_known};
ghost use Rattle.pt_lib_time.specs.Signal.{tokens_of, told, known_token, known_signal, decided_or};

use pt_firing::{Fires, Outputs, Partial, TriState, strict_early};
use pt_time::Tag;
use pt_value::Token;
use std::alloc::{AllocError, Global};

/// A copy of a token, where there is one.
pub(crate) fn copy_of(alloc: Global, signal: Option<&Token>) -> Result<Option<Token>, AllocError>
    ensures { IfOk result (λ copy. copy ≡ option_map (λ token. token.now) signal.entry) }
{
    match signal {
        Some(token) => Ok(Some(token.copy(alloc)?)),
        None => Ok(None),
    }
}

/// A token on the one output, or none.
pub(crate) fn outputs_of(signal: Option<Token>) -> Outputs
    ensures { result ≡ tokens_of signal ∷ [] }
{
    match signal {
        Some(token) => Outputs::one(token),
        None => Outputs::none(1),
    }
}

/// What is known where the signal is.
pub(crate) fn state_of(signal: Option<Token>) -> TriState
    ensures { partial_of result ≡ Known (tokens_of signal) }
{
    match signal {
        Some(token) => TriState::Present(token),
        None => TriState::Absent,
    }
}

/// The one output is known to have that token, or none.
pub(crate) fn told(alloc: Global, signal: Option<Token>) -> Result<Partial, AllocError>
    ensures { IfOk result (λ partial. partial ≡ told signal) }
{
    Ok(Partial::of(vec![in alloc; state_of(signal)]?))
}

/// The first of the tokens that are known.
fn first_of(state: &TriState) -> Option<&Token>
    ensures { option_map (λ token. token.now) result ≡ first_in (tokens_known (partial_of state.now)) }
{
    match state {
        TriState::Unknown | TriState::Absent => None,
        TriState::Present(token) => Some(token),
        TriState::More(items) => items.as_slice().first(),
    }
}

/// Whether a place is known.
pub(crate) fn is_known(partial: &Partial, place: usize) -> bool
    ensures { result ≡ is_known (partial_at partial.now place) }
{
    place < partial.places() && !matches!(partial.get(place), TriState::Unknown)
}

/// The first token that is known on a place, if there is one.
pub(crate) fn known_token(partial: &Partial, place: usize) -> Option<&Token>
    ensures { option_map (λ token. token.now) result ≡ known_token partial.now place }
{
    if place < partial.places() {
        first_of(partial.get(place))
    } else {
        None
    }
}

/// A copy of what is known of the signal on a place.
pub(crate) fn known_signal(
    alloc: Global,
    partial: &Partial,
    place: usize,
) -> Result<TriState, AllocError>
    ensures { IfOk result (λ state. partial_of state ≡ known_signal partial.now place) }
{
    if !is_known(partial, place) {
        return Ok(TriState::Unknown);
    }
    Ok(state_of(copy_of(alloc, known_token(partial, place))?))
}

/// What is decided of the one output of an actor, and where nothing is, its early answer as a strict actor.
pub(crate) fn decided_or_strict<A: Fires + Drop>(
    actor: &A,
    decided: TriState,
    alloc: Global,
    tag: Tag,
    partial: &Partial,
) -> Result<Partial, AllocError>
    requires { (X : basics.Streams token.Token) → known partial.now ≡ Some X → A.Takes tag actor.now X }
    ensures { IfOk result (λ outputs. outputs ≡ decided_or (partial_of decided) (strict 1 A.step tag actor.now partial.now)) }
{
    match decided {
        TriState::Unknown => strict_early(actor, 1, alloc, tag, partial),
        TriState::Absent | TriState::Present(_) | TriState::More(_) => {
            Ok(Partial::of(vec![in alloc; decided]?))
        }
    }
}
