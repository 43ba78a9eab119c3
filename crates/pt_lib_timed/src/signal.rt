// A signal on the one output, and a copy of it.
ghost use Rattle.std.specs.Prelude.{◌≡◌, [], ◌∷◌, IfOk, IfSome, option_map, option_to_list};
ghost use Rattle.pt_meaning.specs.Machine.{Known};
ghost use Rattle.pt_meaning.specs.Tag.{is_due};
ghost use Rattle.pt_value.specs.declared.token.Token.TheVariants.{Int};

use pt_firing::{Outputs, Partial, Tokens, TriState};
use pt_time::Tag;
use pt_value::Token;
use std::alloc::{AllocError, Global};

/// A copy of a token, where there is one.
pub(crate) fn copy_of(alloc: Global, signal: Option<&Token>) -> Result<Option<Token>, AllocError>
    ensures { IfOk result (λ copy. copy ≡ option_map (λ token. token.now) signal.entry) }
{
    match signal {
        Some(token) => Ok(Some(token.copy(alloc)?)),
        None => Ok(None),
    }
}

/// The integer that a token is.
pub(crate) fn number_of(token: &Token) -> Option<i64>
    ensures { IfSome result (λ number. token.now ≡ Int number) }
{
    match token {
        Token::Int(number) => Some(*number),
        _ => None,
    }
}

/// The integer that a signal is, none where it is absent. Nothing is told of other tokens.
pub(crate) fn int_of(signal: Option<&Token>) -> Option<Option<i64>>
    ensures { IfSome result (λ number. option_map Int number ≡ option_map (λ token. token.now) signal.entry) }
{
    match signal {
        None => Some(None),
        Some(Token::Int(number)) => Some(Some(*number)),
        Some(_) => None,
    }
}

/// A token on the one output, or none.
pub(crate) fn outputs_of(signal: Option<Token>) -> Outputs
    ensures { result ≡ option_to_list signal ∷ [] }
{
    match signal {
        Some(token) => Outputs::one(token),
        None => Outputs::none(1),
    }
}

/// The last tick that a tag may have.
pub(crate) const LAST_TIME: i64 = 1 << 62;

/// Whether a wake is due at a tag.
pub(crate) fn is_due(tag: Tag, wake: Option<Tag>) -> bool
    ensures { result ≡ is_due tag wake }
{
    match wake {
        Some(wake) => wake <= tag,
        None => false,
    }
}

/// The one output is known to have these tokens.
pub(crate) fn told(alloc: Global, tokens: Tokens) -> Result<Partial, AllocError>
    ensures { IfOk result (λ partial. partial ≡ Known tokens ∷ []) }
{
    Ok(Partial::of(vec![in alloc; TriState::known(tokens)]?))
}
