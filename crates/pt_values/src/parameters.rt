ghost use Rattle.std.specs.Prelude.{◌≡◌, IfOk, IfErr, map};
ghost use Rattle.std.specs.List.{AllZip};
ghost use Rattle.pt_value.specs.Token.{value_of};
ghost use Rattle.pt_document.specs.View.{property_view, properties_view};
ghost use Rattle.pt_scopes.specs.Names.{seen_scope};
ghost use Rattle.pt_scopes.specs.Texts.{HasValue, IsTextFault};
ghost use Rattle.pt_scopes.specs.Scopes.{Bindings};
ghost use Rattle.pt_scopes.specs.Scopes as scopes;
ghost use Rattle.pt_scopes.specs.Frames.{Means};
ghost use Rattle.pt_scopes.specs.Told.{IsToldAs, IsToldAt, IsTurn, IsFaultInTurn, IsVariableFault};

use pt_document::{DocFault, Property, refused};
use pt_parameter::evaluated;
use pt_scopes::{Names, Seen, TextFault, name_of};
use pt_value::Token;
use std::alloc::Global;

/// The text of a property.
pub fn text_of(property: &Property) -> &str
    ensures { result.now ≡ scopes.text_of (property_view property.now) }
{
    match &property.value {
        Some(text) => text.as_str(),
        None => "",
    }
}

/// The fault of a text, told at this path.
pub fn told_as(alloc: Global, path: &str, fault: TextFault) -> DocFault
    ensures { IsToldAs path.now fault result }
{
    match fault {
        TextFault::Refused(code) => refused(alloc, code, path),
        TextFault::Memory => DocFault::Memory,
    }
}

/// The token of a text, whose faults are told at this path.
pub fn value_at(alloc: Global, path: &str, seen: &Seen, text: &str) -> Result<Token, DocFault>
    ensures ok { IfOk result (λ t. HasValue (seen_scope seen.now) text.now (value_of t)) }
    ensures told { IfErr result (IsToldAt path.now (IsTextFault (seen_scope seen.now) text.now)) }
{
    match evaluated(alloc, seen, text) {
        Ok(token) => Ok(token),
        Err(fault) => Err(told_as(alloc, path, fault)),
    }
}

/// The parameters of a composite in turn, each seeing those before it.
pub fn in_turn(
    alloc: Global,
    path: &str,
    frames: &[Names],
    chain: &[u32],
    properties: &[Property],
) -> Result<(Names, Vec<Token>), DocFault>
    ensures ok { IfOk result (λ r. (around : Bindings) → Means frames.now chain.now around → IsTurn around (properties_view properties.now) frames.now chain.now r.0 (map value_of r.1.items)) }
    ensures told { IfErr result (λ fault. (around : Bindings) → Means frames.now chain.now around → IsToldAt path.now (IsFaultInTurn around (properties_view properties.now)) fault) }
{
    let mut own = Names::new(alloc);
    let mut tokens = Vec::with_capacity(alloc, properties.len())?;
    for property in properties {
        let seen = Seen {
            own: &own,
            frames,
            chain,
        };
        let token = value_at(alloc, path, &seen, text_of(property))?;
        let held = token.copy(alloc)?;
        tokens.push(token)?;
        own.put(alloc, name_of(property), held)?;
    }
    Ok((own, tokens))
}

/// The first values of Variables, which all see the same.
pub fn variables(
    alloc: Global,
    path: &str,
    seen: &Seen,
    properties: &[Property],
) -> Result<Vec<Token>, DocFault>
    ensures ok { IfOk result (λ tokens. AllZip (λ p v. HasValue (seen_scope seen.now) (scopes.text_of p) v) (properties_view properties.now) (map value_of tokens.items)) }
    ensures told { IfErr result (IsToldAt path.now (IsVariableFault (seen_scope seen.now) (properties_view properties.now))) }
{
    let mut tokens = Vec::with_capacity(alloc, properties.len())?;
    for property in properties {
        let token = value_at(alloc, path, seen, text_of(property))?;
        tokens.push(token)?;
    }
    Ok(tokens)
}
