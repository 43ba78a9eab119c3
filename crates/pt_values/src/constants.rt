// Texts that see nothing: rates, and what comes to inputs.
ghost use Rattle.std.specs.Prelude.{◌≡◌, IfOk, IfErr, IsTrue, [], ◌∷◌, map, option_map, codes};
ghost use Rattle.std.specs.Str.{bytes_eq};
ghost use Rattle.std.specs.List.{AllZip, find};
ghost use Rattle.pt_value.specs.Token.{value_of};
ghost use Rattle.pt_document.specs.Document.{property_name};
ghost use Rattle.pt_document.specs.View.{port_view};
ghost use Rattle.pt_scopes.specs.declared.tables.TheConstants.{RATE};
ghost use Rattle.pt_scopes.specs.Forms.{fits};
ghost use Rattle.pt_scopes.specs.Given.{IsValueFault};
ghost use Rattle.pt_scopes.specs.Texts.{HasValue, IsTextFault};
ghost use Rattle.pt_scopes.specs.Scopes.{bound};
ghost use Rattle.pt_scopes.specs.Sites.{rate_of};
ghost use Rattle.pt_scopes.specs.Valued.{IsRate};
ghost use Rattle.pt_scopes.specs.Told.{IsToldAt, IsRateFault};

use crate::parameters::{text_of, value_at};
use pt_document::{Code, DocFault, Port, refused};
use pt_scopes::{Names, RATE, Seen, fits, name_of};
use pt_value::Token;
use std::alloc::Global;

/// The token of a text that sees nothing.
pub fn constant_at(alloc: Global, path: &str, text: &str) -> Result<Token, DocFault>
    ensures ok { IfOk result (λ t. HasValue (bound []) text.now (value_of t)) }
    ensures told { IfErr result (IsToldAt path.now (IsTextFault (bound []) text.now)) }
{
    let own = Names::new(alloc);
    let seen = Seen {
        own: &own,
        frames: &[],
        chain: &[],
    };
    value_at(alloc, path, &seen, text)
}

/// The token of the text of a rate.
fn rate_at(alloc: Global, path: &str, text: &str) -> Result<Token, DocFault>
    ensures ok { IfOk result (λ t. HasValue (bound []) text.now (value_of t)) }
    ensures fits { IfOk result (λ t. IsTrue (fits RATE (value_of t))) }
    ensures told { IfErr result (IsToldAt path.now (IsValueFault (bound []) RATE text.now)) }
{
    let token = constant_at(alloc, path, text)?;
    if fits(RATE, &token) {
        Ok(token)
    } else {
        Err(refused(alloc, Code::Value, path))
    }
}

/// The text of the rate that a port declares.
fn rate_text(port: &Port) -> Option<&str>
    ensures { option_map (λ t. t.now) result ≡ rate_of (port_view port.now) }
{
    for property in &port.properties {
        if name_of(property) == "rate" {
            return Some(text_of(property));
        }
    }
    None
}

/// The rate of a port.
fn rate(alloc: Global, path: &str, port: &Port) -> Result<Option<Token>, DocFault>
    ensures ok { IfOk result (λ t. IsRate (port_view port.now) (option_map value_of t)) }
    ensures told { IfErr result (IsToldAt path.now (IsRateFault (port_view port.now ∷ []))) }
{
    match rate_text(port) {
        Some(text) => Ok(Some(rate_at(alloc, path, text)?)),
        None => Ok(None),
    }
}

/// The rates of ports.
pub fn rates(alloc: Global, path: &str, ports: &[Port]) -> Result<Vec<Option<Token>>, DocFault>
    ensures ok { IfOk result (λ rates. AllZip IsRate (map port_view ports.now) (map (option_map value_of) rates.items)) }
    ensures told { IfErr result (IsToldAt path.now (IsRateFault (map port_view ports.now))) }
{
    let mut rates = Vec::with_capacity(alloc, ports.len())?;
    for port in ports {
        rates.push(rate(alloc, path, port)?)?;
    }
    Ok(rates)
}
