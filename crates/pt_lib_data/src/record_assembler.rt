// `RecordAssembler`: the record of its inputs, each under the name of its port.
ghost use Rattle.std.specs.Prelude.{◌≡◌, ◌++◌, ◌∷◌, [], IfOk, IfErr, OnOk, map, Ok, Err, OnErr};
ghost use Rattle.pt_value.specs.Token.{entry_of_pair};
ghost use Rattle.pt_firing.specs.Row.{token_at};
ghost use Rattle.pt_lib_data.specs.Reply.{Tells};
ghost use Rattle.pt_lib_data.specs.RecordAssembler as record_assembler;

use crate::reply::{nothing, sized};
use pt_firing::{Inputs, Names, Step};
use pt_value::{Fields, FieldsFault, Text, Token};
use std::alloc::{AllocError, Global};

/// The first token of each place under the name of its port.
fn fields_of(
    alloc: Global,
    names: &Names,
    inputs: &Inputs<'_>,
) -> Result<Vec<(Text, Token)>, AllocError>
    ensures { IfOk result (λ pairs. map entry_of_pair pairs.items ≡ record_assembler.fields names.now inputs.now) }
{
    let names = names.as_slice();
    let mut pairs = Vec::with_capacity(alloc, names.len())?;
    for (place, name) in names.iter().enumerate() {
        push_field(alloc, &mut pairs, name, inputs, place)?;
    }
    Ok(pairs)
}

/// Puts the first token of a place behind other fields, under a name, if there is one.
fn push_field(
    alloc: Global,
    pairs: &mut Vec<(Text, Token)>,
    name: &Text,
    inputs: &Inputs<'_>,
    place: usize,
) -> Result<(), AllocError>
    ensures { OnOk result (map entry_of_pair pairs.new.items ≡ map entry_of_pair pairs.old.items ++ record_assembler.with_field name.now (token_at inputs.now place) []) }
{
    if let Some(token) = inputs.token_at(place) {
        pairs.push((name.copy(alloc)?, token.copy(alloc)?))?;
    }
    Ok(())
}

/// The record of some fields, where they make one.
fn assembled(alloc: Global, fields: Vec<(Text, Token)>) -> Step
    ensures { Tells (record_assembler.assembled (map entry_of_pair fields.items)) result }
{
    match Fields::of(alloc, fields) {
        Ok(fields) => sized(Token::Record(fields)),
        Err(FieldsFault::Memory) => Step::Memory,
        // The names of ports are names, and each stands once.
        Err(FieldsFault::Repeated(_)) => nothing(),
        Err(FieldsFault::Name(_)) => nothing(),
        Err(FieldsFault::Empty) => nothing(),
    }
}

pub(crate) fn give(alloc: Global, names: &Names, inputs: &Inputs<'_>) -> Step
    ensures { Tells (record_assembler.give names.now inputs.now) result }
{
    if !inputs.all_present() {
        return nothing();
    }
    match fields_of(alloc, names, inputs) {
        Ok(fields) => assembled(alloc, fields),
        Err(_) => Step::Memory,
    }
}
