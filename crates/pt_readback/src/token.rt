ghost use Rattle.std.specs.Prelude.{◌≡◌, ◌↔◌, IfOk, IsTrue, Err};
ghost use Rattle.pt_value.specs.Value.{Value};
ghost use Rattle.pt_value.specs.Token.{value_of};
ghost use Rattle.pt_value.specs.Printed.{printed};
ghost use Rattle.pt_readback.specs.Token.{IsTokenValue};
ghost use Rattle.pt_readback.specs.Reading.{Finds};

use crate::fault::TokenFault;
use crate::reading::token_of;
use pt_expr_text::split;
use pt_value::{Token, print};
use std::alloc::{AllocError, Global};

/// The token that prints as the text. It takes time linear in the text.
pub fn read_token(alloc: Global, text: &[u8]) -> Result<Token, TokenFault>
    ensures prints { IfOk result (λ t. printed (value_of t) ≡ text.now) }
    ensures only { IfOk result (λ t. (v : Value) → IsTokenValue v → printed v ≡ text.now → value_of t ≡ v) }
    ensures refuses { result ≡ Err TokenFault.Shape → (v : Value) → IsTokenValue v → ¬ (printed v ≡ text.now) }
{
    let token = candidate(alloc, text)?;
    if prints_as(alloc, &token, text)? {
        Ok(token)
    } else {
        drop(token);
        Err(TokenFault::Shape)
    }
}

/// The one token that may print as the text.
fn candidate(alloc: Global, text: &[u8]) -> Result<Token, TokenFault>
    ensures { (v : Value) → IsTokenValue v → printed v ≡ text.now → Finds result v }
{
    let Ok(text) = str::from_utf8(text) else {
        return Err(TokenFault::Shape);
    };
    let (words, _) = split(alloc, text)?;
    let found = token_of(alloc, &words);
    drop(words);
    found
}

/// Whether the token prints as the text.
fn prints_as(alloc: Global, token: &Token, text: &[u8]) -> Result<bool, AllocError>
    ensures { IfOk result (λ same. IsTrue same ↔ (printed (value_of token.now) ≡ text.now)) }
{
    let mut printed = Vec::with_capacity(alloc, text.len())?;
    print(token, &mut printed)?;
    Ok(printed.as_slice() == text)
}
