ghost use Rattle.std.specs.Prelude.{◌≡◌, IfOk, IfErr, [], ◌∷◌, map, option_map};
ghost use Rattle.std.specs.List.{AllZip};
ghost use Rattle.pt_value.specs.Token.{value_of};
ghost use Rattle.pt_document.specs.View.{input_view, supply_view};
ghost use Rattle.pt_net.specs.Table.{shown};
ghost use Rattle.pt_scopes.specs.Sites.{event_text, texts_of_supply};
ghost use Rattle.pt_scopes.specs.Valued.{IsSupplied, IsInputValued};
ghost use Rattle.pt_scopes.specs.Told.{IsToldAt, IsSupplyFault};

use crate::constants::constant_at;
use pt_document::{DocFault, Event, Input, Supply};
use pt_net::shown;
use pt_value::{Text, Token};
use std::alloc::Global;

/// The token of a text, `None` where it is absent.
fn token(alloc: Global, path: &str, text: &Option<Text>) -> Result<Option<Token>, DocFault>
    ensures ok { IfOk result (λ t. IsSupplied text.now (option_map value_of t)) }
    ensures told { IfErr result (IsToldAt path.now (IsSupplyFault (text.now ∷ []))) }
{
    match text {
        Some(text) => Ok(Some(constant_at(alloc, path, text.as_str())?)),
        None => Ok(None),
    }
}

fn tokens(alloc: Global, path: &str, texts: &[Option<Text>]) -> Result<Vec<Option<Token>>, DocFault>
    ensures ok { IfOk result (λ tokens. AllZip IsSupplied texts.now (map (option_map value_of) tokens.items)) }
    ensures told { IfErr result (IsToldAt path.now (IsSupplyFault texts.now)) }
{
    let mut tokens = Vec::with_capacity(alloc, texts.len())?;
    for text in texts {
        tokens.push(token(alloc, path, text)?)?;
    }
    Ok(tokens)
}

fn event_tokens(alloc: Global, path: &str, events: &[Event]) -> Result<Vec<Option<Token>>, DocFault>
    ensures ok { IfOk result (λ tokens. AllZip IsSupplied (map event_text events.now) (map (option_map value_of) tokens.items)) }
    ensures told { IfErr result (IsToldAt path.now (IsSupplyFault (map event_text events.now))) }
{
    let mut tokens = Vec::with_capacity(alloc, events.len())?;
    for event in events {
        tokens.push(Some(constant_at(alloc, path, event.value.as_str())?))?;
    }
    Ok(tokens)
}

/// The tokens of an input.
pub fn input_tokens(alloc: Global, input: &Input) -> Result<Vec<Option<Token>>, DocFault>
    ensures ok { IfOk result (λ tokens. IsInputValued (input_view input.now) (map (option_map value_of) tokens.items)) }
    ensures told { IfErr result (IsToldAt (shown input.now.port) (IsSupplyFault (texts_of_supply (supply_view input.now.supply)))) }
{
    let path = shown(input.port.as_str());
    match &input.supply {
        Supply::Tokens(texts) => tokens(alloc, path, texts),
        Supply::Events(events) => event_tokens(alloc, path, events),
    }
}
