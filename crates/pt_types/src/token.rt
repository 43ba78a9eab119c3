ghost use Rattle.std.specs.Prelude.{◌≡◌, IfOk, IsTrue, true};
ghost use Rattle.pt_value.specs.Value.{values_of, named_of};
ghost use Rattle.pt_value.specs.Token.{value_of};
ghost use Rattle.pt_datatypes.specs.Datatype as datatype;
ghost use Rattle.pt_datatypes.specs.Datatype.{types_of};
ghost use Rattle.pt_datatypes.specs.Normal.{is_proper, normal};
ghost use Rattle.pt_datatypes.specs.Join as joins;
ghost use Rattle.pt_datatypes.specs.Order as order;
ghost use Rattle.pt_datatypes.specs.Token.{type_of_value, join_of, field_types, each_below, typed_fields};
ghost use Rattle.pt_types.specs.Ty.{entry_of, written, type_of};

use crate::record::{FieldTy, RecordTy};
use crate::ty::{Ty, join};
use pt_value::{Field, Fields, Items, Token};
use std::alloc::{AllocError, Global};

/// Whether a token is of a type: its own is that one, or below it. It takes no memory.
pub fn is_of(token: &Token, ty: &Ty) -> bool
    ensures { result ≡ order.is_below (type_of_value (value_of token.now)) (type_of ty.now) }
{
    match (token, ty) {
        (Token::Int(_), Ty::Int) | (Token::Bool(_), Ty::Boolean) | (Token::Text(_), Ty::Words) => {
            true
        }
        _ => !ty.is_proper() || is_within(token, ty),
    }
}

/// The same of a type that isn't general.
#[cycle(withins)]
fn is_within(token: &Token, ty: &Ty) -> bool
    requires { is_proper (written ty.now) ≡ true }
    ensures { result ≡ order.is_below (type_of_value (value_of token.now)) (written ty.now) }
{
    match (token, ty) {
        (Token::Int(_), Ty::Int) | (Token::Bool(_), Ty::Boolean) | (Token::Text(_), Ty::Words) => {
            true
        }
        (Token::Array(items), Ty::Array(element)) => are_within(items, element.get()),
        (Token::Record(fields), Ty::Record(types)) => fields_within(fields, types),
        _ => false,
    }
}

/// Whether each part of an array is of a type.
#[cycle(withins)]
fn are_within(items: &Items, ty: &Ty) -> bool
    requires { is_proper (written ty.now) ≡ true }
    ensures { result ≡ each_below (values_of items.now) (written ty.now) }
{
    for token in items.as_slice() {
        if !is_within(token, ty) {
            return false;
        }
    }
    true
}

/// Whether the fields have the names of a record type, in its order, and each value the type of its name.
#[cycle(withins)]
fn fields_within(fields: &Fields, types: &RecordTy) -> bool
    requires { is_proper (datatype.Record (types_of types.now)) ≡ true }
    ensures { result ≡ order.are_below (field_types (named_of fields.now)) (types_of types.now) }
{
    let fields = fields.as_slice();
    let types = types.as_slice();
    if fields.len() != types.len() {
        return false;
    }
    for index in 0..fields.len() {
        let field = &fields[index];
        let typed = &types[index];
        if field.name != typed.name || !is_within(&field.value, &typed.ty) {
            return false;
        }
    }
    true
}

/// The type of a token.
#[cycle(token_types)]
pub fn type_of_token(alloc: Global, token: &Token) -> Result<Ty, AllocError>
    ensures { IfOk result (λ t. written t ≡ type_of_value (value_of token.now)) }
{
    match token {
        Token::Int(_) => Ok(Ty::Int),
        Token::Bool(_) => Ok(Ty::Boolean),
        Token::Text(_) => Ok(Ty::Words),
        Token::Array(items) => Ty::array(alloc, join_of(alloc, items)?),
        Token::Record(fields) => Ok(Ty::record(types_of_fields(alloc, fields)?)),
    }
}

/// The join of the types of the parts of an array, from the last to the first.
#[cycle(token_types)]
fn join_of(alloc: Global, items: &Items) -> Result<Ty, AllocError>
    ensures { IfOk result (λ t. written t ≡ join_of (values_of items.now)) }
{
    let tokens = items.as_slice();
    let mut joined = Ty::Unknown;
    let mut left = tokens.len();
    while left > 0 {
        left -= 1;
        joined = joined_with(alloc, &tokens[left], &joined)?;
    }
    Ok(joined)
}

/// The join of the type of a token with a type.
#[cycle(token_types)]
fn joined_with(alloc: Global, token: &Token, ty: &Ty) -> Result<Ty, AllocError>
    ensures { IfOk result (λ t. written t ≡ joins.join (normal (type_of_value (value_of token.now))) (type_of ty.now)) }
{
    let next = type_of_token(alloc, token)?;
    join(alloc, &next, ty)
}

/// The fields of a token, which stand in order, with the types of their values.
#[cycle(token_types)]
fn types_of_fields(alloc: Global, fields: &Fields) -> Result<RecordTy, AllocError>
    ensures { IfOk result (λ types. types ≡ typed_fields fields.now) }
{
    let mut types = Vec::with_capacity(alloc, fields.len())?;
    for field in fields.as_slice() {
        let typed = typed_field(alloc, field)?;
        types.push(typed)?;
    }
    Ok(RecordTy::sorted(types))
}

/// A field with the type of its value.
#[cycle(token_types)]
fn typed_field(alloc: Global, field: &Field) -> Result<FieldTy, AllocError>
    ensures { IfOk result (λ typed. entry_of typed ≡ (field.now.name, type_of_value (value_of field.now.value))) }
{
    let name = field.name.copy(alloc)?;
    let ty = type_of_token(alloc, &field.value)?;
    Ok(FieldTy { name, ty })
}
