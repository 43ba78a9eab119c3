// `RecordDisassembler`: each output gives the field of its name.
ghost use Rattle.std.specs.Prelude.{◌≡◌, option_map, map, IfOk};
ghost use Rattle.pt_lib_data.specs.Reply.{Tells};
ghost use Rattle.pt_lib_data.specs.RecordDisassembler as record_disassembler;

use pt_firing::{Inputs, Names, Outputs, Step, Tokens};
use pt_value::{Fields, Token};
use std::alloc::{AllocError, Global};

/// The field of a name, if there is one.
fn found<'a>(fields: &'a Fields, name: &str) -> Option<&'a Token>
    ensures { option_map (λ t. t.now) result ≡ record_disassembler.found fields.now name.now }
{
    fields.get(name)
}

/// The field of a name, as a list of one token, or of none where there is no such field.
fn field(alloc: Global, fields: &Fields, name: &str) -> Result<Tokens, AllocError>
    ensures { IfOk result (λ tokens. tokens ≡ record_disassembler.field fields.now name.now) }
{
    match found(fields, name) {
        Some(token) => Ok(Tokens::one(token.copy(alloc)?)),
        None => Ok(Tokens::new()),
    }
}

fn all_fields(alloc: Global, names: &Names, fields: &Fields) -> Result<Vec<Tokens>, AllocError>
    ensures { IfOk result (λ lists. lists.items ≡ map (record_disassembler.field fields.now) names.now) }
{
    let names = names.as_slice();
    let mut lists = Vec::with_capacity(alloc, names.len())?;
    for name in names {
        lists.push(field(alloc, fields, name.as_str())?)?;
    }
    Ok(lists)
}

pub(crate) fn give(alloc: Global, names: &Names, inputs: &Inputs<'_>) -> Step
    ensures { Tells (record_disassembler.give names.now inputs.now) result }
{
    match inputs.token_at(0) {
        Some(Token::Record(fields)) => match all_fields(alloc, names, fields) {
            Ok(lists) => Step::Done(Outputs::of(lists)),
            Err(_) => Step::Memory,
        },
        _ => Step::Done(Outputs::none(names.len())),
    }
}
