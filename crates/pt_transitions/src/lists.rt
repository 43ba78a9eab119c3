ghost use Rattle.std.specs.Prelude.{◌≡◌, [], IfOk, replicate};
ghost use Rattle.pt_meaning.specs.Streams.{at};
ghost use Rattle.pt_meaning.specs.Modal.{picked, shown, at_port};

use pt_firing::{Inputs, Outputs, Tokens};
use pt_value::Token;
use std::alloc::{AllocError, Global};

/// So many lists without a token.
pub(crate) fn empty_lists(alloc: Global, n: usize) -> Result<Vec<Tokens>, AllocError>
    ensures { IfOk result (λ lists. lists.items ≡ replicate n []) }
{
    let mut lists = Vec::with_capacity(alloc, n)?;
    for _ in 0..n {
        lists.push_reserved(Tokens::new());
    }
    Ok(lists)
}

/// Copies of some lists.
pub fn copied_lists(alloc: Global, lists: &[Tokens]) -> Result<Vec<Tokens>, AllocError>
    ensures { IfOk result (λ copies. copies.items ≡ lists.now) }
{
    let mut copies = Vec::with_capacity(alloc, lists.len())?;
    for tokens in lists {
        copies.push(tokens.copy(alloc)?)?;
    }
    Ok(copies)
}

/// Copies of the lists that are lent.
pub fn copied_inputs(alloc: Global, inputs: &Inputs<'_>) -> Result<Vec<Tokens>, AllocError>
    ensures { IfOk result (λ copies. copies.items ≡ inputs.now) }
{
    let mut copies = Vec::with_capacity(alloc, inputs.places())?;
    for place in 0..inputs.places() {
        copies.push(copy_of(alloc, inputs.list(place))?)?;
    }
    Ok(copies)
}

/// What a refinement takes: for each of its inputs a copy of the tokens of one of these.
pub(crate) fn picked(
    alloc: Global,
    ports: &[u32],
    inputs: &Inputs<'_>,
) -> Result<Vec<Tokens>, AllocError>
    ensures { IfOk result (λ lists. lists.items ≡ picked ports.now inputs.now) }
{
    let mut lists = Vec::with_capacity(alloc, ports.len())?;
    for port in ports {
        lists.push(copy_at(alloc, inputs, *port as usize)?)?;
    }
    Ok(lists)
}

/// What the own outputs have of a refinement: for each a copy of the tokens of one of its ports, if it has one.
pub(crate) fn shown(
    alloc: Global,
    ports: &[Option<u32>],
    outputs: &Outputs,
) -> Result<Vec<Tokens>, AllocError>
    ensures { IfOk result (λ lists. lists.items ≡ shown ports.now outputs.now) }
{
    let mut lists = Vec::with_capacity(alloc, ports.len())?;
    for port in ports {
        lists.push(shown_at(alloc, *port, outputs)?)?;
    }
    Ok(lists)
}

fn shown_at(alloc: Global, port: Option<u32>, outputs: &Outputs) -> Result<Tokens, AllocError>
    ensures { IfOk result (λ tokens. tokens ≡ at_port port outputs.now) }
{
    match port {
        Some(port) => given_at(alloc, outputs, port as usize),
        None => Ok(Tokens::new()),
    }
}

fn given_at(alloc: Global, outputs: &Outputs, port: usize) -> Result<Tokens, AllocError>
    ensures { IfOk result (λ tokens. tokens ≡ at outputs.now port) }
{
    if port >= outputs.ports() {
        return Ok(Tokens::new());
    }
    copy_of(alloc, outputs.list(port))
}

fn copy_of(alloc: Global, tokens: &[Token]) -> Result<Tokens, AllocError>
    ensures { IfOk result (λ copy. copy ≡ tokens.now) }
{
    let mut copy = Tokens::new();
    for token in tokens {
        copy.push(alloc, token.copy(alloc)?)?;
    }
    Ok(copy)
}

fn copy_at(alloc: Global, lists: &Inputs<'_>, port: usize) -> Result<Tokens, AllocError>
    ensures { IfOk result (λ tokens. tokens ≡ at lists.now port) }
{
    if port >= lists.places() {
        return Ok(Tokens::new());
    }
    copy_of(alloc, lists.list(port))
}
