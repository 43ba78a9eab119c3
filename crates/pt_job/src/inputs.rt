ghost use Rattle.std.specs.Prelude.{◌≡◌, ℕ, List, map, Option, Some, None, Vec, true, false, IsOk, IfOk, IfErr};
ghost use Rattle.std.specs.Global.{Global};
ghost use Rattle.std.specs.List.{Contains};
ghost use Rattle.pt_value.specs.declared.token.Token.{Token};
ghost use Rattle.pt_scopes.specs.Scopes.{net_view};
ghost use Rattle.pt_scopes.specs.Valued.{IsValued};
ghost use Rattle.pt_agenda.specs.Events.{Ascend, AllAscend, tags_in, tokens_in, events_of};
ghost use Rattle.pt_job.specs.Inputs.{ComeTo, AreSupplied, AreEvents, tags_at, may_lack, is_timed, IsInputFault, IsFaultOf};
ghost use Rattle.pt_job.specs.Lookup.{IsLookup};

use crate::events::at_tags;
use crate::lookup::Lookup;
use crate::ports::own_inputs;
use pt_document::DocFault;
use pt_firing::Tokens;
use pt_net::Net;
use pt_scopes::Values;
use pt_time::Tag;
use pt_value::Token;
use std::alloc::{AllocError, Global};

/// Tokens, none of which is absent.
fn present(alloc: Global, tokens: &[Option<Token>]) -> Result<Tokens, AllocError>
    requires { Contains tokens.now None → ⊥ }
    ensures { IfOk result (λ present. map Some present ≡ tokens.now) }
{
    let mut present = Vec::with_capacity(alloc, tokens.len())?;
    for token in tokens {
        if let Some(token) = token {
            present.push(token.copy(alloc)?)?;
        }
    }
    Ok(Tokens::of(present))
}

fn copy_of(alloc: Global, token: &Option<Token>) -> Result<Option<Token>, AllocError>
    ensures { IfOk result (λ copy. copy ≡ token.now) }
{
    match token {
        Some(token) => Ok(Some(token.copy(alloc)?)),
        None => Ok(None),
    }
}

/// A copy of tokens, of which some may be absent.
fn copies(alloc: Global, tokens: &[Option<Token>]) -> Result<Vec<Option<Token>>, AllocError>
    ensures { IfOk result (λ copies. copies.items ≡ tokens.now) }
{
    let mut copies = Vec::with_capacity(alloc, tokens.len())?;
    for token in tokens {
        copies.push(copy_of(alloc, token)?)?;
    }
    Ok(copies)
}

/// What comes to a port of the top.
fn list_to<'v>(lookup: &Lookup, values: &'v Values, port: &str) -> &'v [Option<Token>]
    requires lookup { IsLookup lookup.now }
    requires valued { IsValued (net_view lookup.now.net.now) values.now }
    requires clean { (path : List ℕ) → IsInputFault (net_view lookup.now.net.now) path → ⊥ }
    ensures comes { ComeTo (net_view lookup.now.net.now) values.now port.now result.now }
    ensures full { may_lack (net_view lookup.now.net.now) ≡ false → Contains result.now None → ⊥ }
{
    match lookup.input_to(port) {
        Some(number) => values.inputs[number].as_slice(),
        None => &[],
    }
}

/// For each input port of the top the tokens that come to it, none of which is absent.
fn supplied(alloc: Global, lookup: &Lookup, values: &Values) -> Result<Vec<Tokens>, AllocError>
    requires lookup { IsLookup lookup.now }
    requires valued { IsValued (net_view lookup.now.net.now) values.now }
    requires clean { (path : List ℕ) → IsInputFault (net_view lookup.now.net.now) path → ⊥ }
    requires present { may_lack (net_view lookup.now.net.now) ≡ false }
    ensures { IfOk result (λ lists. AreSupplied (net_view lookup.now.net.now) values.now (map (λ (ts : List Token). map Some ts) lists.items)) }
{
    let ports = own_inputs(alloc, lookup.net)?;
    let mut lists = Vec::with_capacity(alloc, ports.len())?;
    for port in &ports {
        lists.push(present(alloc, list_to(lookup, values, port))?)?;
    }
    Ok(lists)
}

/// For each input port of the top what comes to it.
fn supplied_ticks(
    alloc: Global,
    lookup: &Lookup,
    values: &Values,
) -> Result<Vec<Vec<Option<Token>>>, AllocError>
    requires lookup { IsLookup lookup.now }
    requires valued { IsValued (net_view lookup.now.net.now) values.now }
    requires clean { (path : List ℕ) → IsInputFault (net_view lookup.now.net.now) path → ⊥ }
    ensures { IfOk result (λ lists. AreSupplied (net_view lookup.now.net.now) values.now (map (λ (ts : Vec (Option Token) Global). ts.items) lists.items)) }
{
    let ports = own_inputs(alloc, lookup.net)?;
    let mut lists = Vec::with_capacity(alloc, ports.len())?;
    for port in &ports {
        lists.push(copies(alloc, list_to(lookup, values, port))?)?;
    }
    Ok(lists)
}

/// The events that come to a port of the top.
fn events_to(
    alloc: Global,
    lookup: &Lookup,
    values: &Values,
    port: &str,
) -> Result<Vec<(Tag, Token)>, AllocError>
    requires lookup { IsLookup lookup.now }
    requires valued { IsValued (net_view lookup.now.net.now) values.now }
    requires clean { (path : List ℕ) → IsInputFault (net_view lookup.now.net.now) path → ⊥ }
    requires timed { is_timed (net_view lookup.now.net.now) ≡ true }
    ensures tags { IfOk result (λ list. tags_in list.items ≡ tags_at (net_view lookup.now.net.now) port.now) }
    ensures comes { IfOk result (λ list. ComeTo (net_view lookup.now.net.now) values.now port.now (tokens_in list.items)) }
    ensures ascend { IfOk result (λ list. Ascend list.items) }
{
    at_tags(alloc, lookup.events_to(port), list_to(lookup, values, port))
}

/// For each input port of the top the events that come to it.
fn supplied_events(
    alloc: Global,
    lookup: &Lookup,
    values: &Values,
) -> Result<Vec<Vec<(Tag, Token)>>, AllocError>
    requires lookup { IsLookup lookup.now }
    requires valued { IsValued (net_view lookup.now.net.now) values.now }
    requires clean { (path : List ℕ) → IsInputFault (net_view lookup.now.net.now) path → ⊥ }
    requires timed { is_timed (net_view lookup.now.net.now) ≡ true }
    ensures supplied { IfOk result (λ lists. AreEvents (net_view lookup.now.net.now) values.now (events_of lists.items)) }
    ensures ascend { IfOk result (λ lists. AllAscend lists.items) }
{
    let ports = own_inputs(alloc, lookup.net)?;
    let mut lists = Vec::with_capacity(alloc, ports.len())?;
    for port in &ports {
        lists.push(events_to(alloc, lookup, values, port)?)?;
    }
    Ok(lists)
}

/// For each input port of the top the tokens that come to it, where none may be absent. Refuses an input that names no input
/// port of the top, names one that another names, has events, or has a token that is absent.
pub fn supply(alloc: Global, net: &Net, values: &Values) -> Result<Vec<Tokens>, DocFault>
    requires valued { IsValued (net_view net.now) values.now }
    requires present { may_lack (net_view net.now) ≡ false }
    ensures supplied { IfOk result (λ lists. AreSupplied (net_view net.now) values.now (map (λ (ts : List Token). map Some ts) lists.items)) }
    ensures clean { IsOk result → (path : List ℕ) → IsInputFault (net_view net.now) path → ⊥ }
    ensures told { IfErr result (IsFaultOf (net_view net.now)) }
{
    let lookup = Lookup::of(alloc, net)?;
    lookup.check(alloc)?;
    Ok(supplied(alloc, &lookup, values)?)
}

/// For each input port of the top what comes to it at each tick, `None` where the token is absent. Refuses the same inputs, but
/// those with an absent token where it may be.
pub fn supply_ticks(
    alloc: Global,
    net: &Net,
    values: &Values,
) -> Result<Vec<Vec<Option<Token>>>, DocFault>
    requires { IsValued (net_view net.now) values.now }
    ensures supplied { IfOk result (λ lists. AreSupplied (net_view net.now) values.now (map (λ (ts : Vec (Option Token) Global). ts.items) lists.items)) }
    ensures clean { IsOk result → (path : List ℕ) → IsInputFault (net_view net.now) path → ⊥ }
    ensures told { IfErr result (IsFaultOf (net_view net.now)) }
{
    let lookup = Lookup::of(alloc, net)?;
    lookup.check(alloc)?;
    Ok(supplied_ticks(alloc, &lookup, values)?)
}

/// For each input port of the top of a timed net the events that come to it, in order of their tags. Refuses an input that names
/// no input port of the top, names one that another names, has plain tokens, or events that are out of order or past a limit.
pub fn supply_events(
    alloc: Global,
    net: &Net,
    values: &Values,
) -> Result<Vec<Vec<(Tag, Token)>>, DocFault>
    requires valued { IsValued (net_view net.now) values.now }
    requires timed { is_timed (net_view net.now) ≡ true }
    ensures supplied { IfOk result (λ lists. AreEvents (net_view net.now) values.now (events_of lists.items)) }
    ensures ascend { IfOk result (λ lists. AllAscend lists.items) }
    ensures clean { IsOk result → (path : List ℕ) → IsInputFault (net_view net.now) path → ⊥ }
    ensures told { IfErr result (IsFaultOf (net_view net.now)) }
{
    let lookup = Lookup::of(alloc, net)?;
    lookup.check(alloc)?;
    Ok(supplied_events(alloc, &lookup, values)?)
}
