//! What each operator makes of the types of its operands.
ghost use Rattle.std.specs.Prelude.{◌≡◌, ◌⊎◌, IfOk, IfErr, map};
ghost use Rattle.pt_types.specs.Ty.{type_of, written};
ghost use Rattle.pt_datatypes.specs.Normal.{IsType};
ghost use Rattle.pt_datatypes.specs.Join.{join};
ghost use Rattle.pt_datatypes.specs.Datatype.{Record, types_of};
ghost use Rattle.pt_language.specs.declared.type_fault.TypeFault.TheVariants.{Memory};
ghost use Rattle.pt_language.specs.Answer.{Gives, Stops, judged};
ghost use Rattle.pt_types.specs.Entry.{typed_entry};
ghost use Rattle.pt_language.specs.TreeType as types;

use pt_language::{BinaryOp, TypeFault};
use pt_types::{RecordTy, Ty, below, join};
use pt_value::{FieldsFault, Text};
use std::alloc::Global;

/// An integer.
pub(crate) fn number(operand: Ty) -> Result<Ty, TypeFault>
    ensures ok { IfOk result (λ t. judged (types.number (type_of operand)) ≡ Gives (type_of t)) }
    ensures err { IfErr result (λ fault. judged (types.number (type_of operand)) ≡ Stops fault) }
{
    if below(&operand, &Ty::Int) {
        Ok(Ty::Int)
    } else {
        Err(TypeFault::Clash)
    }
}

/// A truth value.
pub(crate) fn truth(operand: Ty) -> Result<Ty, TypeFault>
    ensures ok { IfOk result (λ t. judged (types.truth (type_of operand)) ≡ Gives (type_of t)) }
    ensures err { IfErr result (λ fault. judged (types.truth (type_of operand)) ≡ Stops fault) }
{
    if below(&operand, &Ty::Boolean) {
        Ok(Ty::Boolean)
    } else {
        Err(TypeFault::Clash)
    }
}

/// What an operator between two operands gives.
pub(crate) fn operated(alloc: Global, op: BinaryOp, first: Ty, second: Ty) -> Result<Ty, TypeFault>
    ensures ok { IfOk result (λ t. judged (types.operated op (type_of first) (type_of second)) ≡ Gives (type_of t)) }
    ensures err { IfErr result (λ fault. (fault ≡ Memory) ⊎ (judged (types.operated op (type_of first) (type_of second)) ≡ Stops fault)) }
{
    match op {
        BinaryOp::Or | BinaryOp::And => decided(first, second),
        BinaryOp::Equal | BinaryOp::Unequal => compared(alloc, first, second),
        BinaryOp::Less | BinaryOp::LessEqual | BinaryOp::Greater | BinaryOp::GreaterEqual => {
            ordered(first, second)
        }
        BinaryOp::Add => summed(alloc, first, second),
        BinaryOp::Subtract | BinaryOp::Multiply | BinaryOp::Divide | BinaryOp::Remainder => {
            calculated(first, second)
        }
    }
}

/// Two truth values give one.
fn decided(first: Ty, second: Ty) -> Result<Ty, TypeFault>
    ensures ok { IfOk result (λ t. judged (types.decided (type_of first) (type_of second)) ≡ Gives (type_of t)) }
    ensures err { IfErr result (λ fault. judged (types.decided (type_of first) (type_of second)) ≡ Stops fault) }
{
    if below(&first, &Ty::Boolean) && below(&second, &Ty::Boolean) {
        Ok(Ty::Boolean)
    } else {
        Err(TypeFault::Clash)
    }
}

/// Two integers in order.
fn ordered(first: Ty, second: Ty) -> Result<Ty, TypeFault>
    ensures ok { IfOk result (λ t. judged (types.ordered (type_of first) (type_of second)) ≡ Gives (type_of t)) }
    ensures err { IfErr result (λ fault. judged (types.ordered (type_of first) (type_of second)) ≡ Stops fault) }
{
    if below(&first, &Ty::Int) && below(&second, &Ty::Int) {
        Ok(Ty::Boolean)
    } else {
        Err(TypeFault::Clash)
    }
}

/// Two integers give one.
pub(crate) fn calculated(first: Ty, second: Ty) -> Result<Ty, TypeFault>
    ensures ok { IfOk result (λ t. judged (types.calculated (type_of first) (type_of second)) ≡ Gives (type_of t)) }
    ensures err { IfErr result (λ fault. judged (types.calculated (type_of first) (type_of second)) ≡ Stops fault) }
{
    if below(&first, &Ty::Int) && below(&second, &Ty::Int) {
        Ok(Ty::Int)
    } else {
        Err(TypeFault::Clash)
    }
}

/// Whether two tokens of types with a join are equal.
fn compared(alloc: Global, first: Ty, second: Ty) -> Result<Ty, TypeFault>
    ensures ok { IfOk result (λ t. judged (types.compared (type_of first) (type_of second)) ≡ Gives (type_of t)) }
    ensures err { IfErr result (λ fault. (fault ≡ Memory) ⊎ (judged (types.compared (type_of first) (type_of second)) ≡ Stops fault)) }
{
    match join(alloc, &first, &second)? {
        Ty::Unknown | Ty::Int | Ty::Boolean | Ty::Words | Ty::Array(_) | Ty::Record(_) => {
            Ok(Ty::Boolean)
        }
        Ty::General => Err(TypeFault::Clash),
    }
}

/// Integers are added, and texts are joined.
fn summed(alloc: Global, first: Ty, second: Ty) -> Result<Ty, TypeFault>
    ensures ok { IfOk result (λ t. judged (types.summed (join (type_of first) (type_of second))) ≡ Gives (type_of t)) }
    ensures err { IfErr result (λ fault. (fault ≡ Memory) ⊎ (judged (types.summed (join (type_of first) (type_of second))) ≡ Stops fault)) }
{
    match join(alloc, &first, &second)? {
        Ty::Unknown => Ok(Ty::Unknown),
        Ty::Int => Ok(Ty::Int),
        Ty::Words => Ok(Ty::Words),
        Ty::Boolean | Ty::Array(_) | Ty::Record(_) | Ty::General => Err(TypeFault::Clash),
    }
}

/// What a condition chooses from.
pub(crate) fn chosen(alloc: Global, test: Ty, yes: Ty, no: Ty) -> Result<Ty, TypeFault>
    ensures ok { IfOk result (λ t. judged (types.chosen (type_of test) (type_of yes) (type_of no)) ≡ Gives (type_of t)) }
    ensures err { IfErr result (λ fault. (fault ≡ Memory) ⊎ (judged (types.chosen (type_of test) (type_of yes) (type_of no)) ≡ Stops fault)) }
{
    if below(&test, &Ty::Boolean) {
        Ok(join(alloc, &yes, &no)?)
    } else {
        Err(TypeFault::Clash)
    }
}

/// The element of an array at an index.
pub fn applied(alloc: Global, array: Ty, index: Ty) -> Result<Ty, TypeFault>
    ensures ok { IfOk result (λ t. judged (types.applied (type_of array) (type_of index)) ≡ Gives (type_of t)) }
    ensures err { IfErr result (λ fault. (fault ≡ Memory) ⊎ (judged (types.applied (type_of array) (type_of index)) ≡ Stops fault)) }
{
    if below(&index, &Ty::Int) {
        element(alloc, array.into_normal())
    } else {
        Err(TypeFault::Clash)
    }
}

/// What an array has as elements.
fn element(alloc: Global, array: Ty) -> Result<Ty, TypeFault>
    requires { IsType (written array) }
    ensures ok { IfOk result (λ t. judged (types.element (written array)) ≡ Gives (type_of t)) }
    ensures err { IfErr result (λ fault. (fault ≡ Memory) ⊎ (judged (types.element (written array)) ≡ Stops fault)) }
{
    match array {
        Ty::Unknown => Ok(Ty::Unknown),
        Ty::Array(element) => Ok(element.get().copy(alloc)?),
        Ty::Int | Ty::Boolean | Ty::Words | Ty::Record(_) | Ty::General => Err(TypeFault::Clash),
    }
}

/// The length of an array or a text.
pub(crate) fn length_of(operand: Ty) -> Result<Ty, TypeFault>
    ensures ok { IfOk result (λ t. judged (types.length_of (type_of operand)) ≡ Gives (type_of t)) }
    ensures err { IfErr result (λ fault. judged (types.length_of (type_of operand)) ≡ Stops fault) }
{
    match operand.into_normal() {
        Ty::Unknown | Ty::Words | Ty::Array(_) => Ok(Ty::Int),
        Ty::Int | Ty::Boolean | Ty::Record(_) | Ty::General => Err(TypeFault::Clash),
    }
}

/// The field of a record under a name.
pub fn field(alloc: Global, operand: Ty, name: &str) -> Result<Ty, TypeFault>
    ensures ok { IfOk result (λ t. judged (types.field name.now (type_of operand)) ≡ Gives (type_of t)) }
    ensures err { IfErr result (λ fault. (fault ≡ Memory) ⊎ (judged (types.field name.now (type_of operand)) ≡ Stops fault)) }
{
    match operand.into_normal() {
        Ty::Unknown => Ok(Ty::Unknown),
        Ty::Record(fields) => field_in(alloc, &fields, name),
        Ty::Int | Ty::Boolean | Ty::Words | Ty::Array(_) | Ty::General => Err(TypeFault::Clash),
    }
}

/// The type under a name among the fields of a record.
fn field_in(alloc: Global, fields: &RecordTy, name: &str) -> Result<Ty, TypeFault>
    requires { IsType (Record (types_of fields.now)) }
    ensures ok { IfOk result (λ t. judged (types.type_in (types_of fields.now) name.now) ≡ Gives (type_of t)) }
    ensures err { IfErr result (λ fault. (fault ≡ Memory) ⊎ (judged (types.type_in (types_of fields.now) name.now) ≡ Stops fault)) }
{
    for field in fields.as_slice() {
        if field.name.as_str() == name {
            return Ok(field.ty.copy(alloc)?);
        }
    }
    Err(TypeFault::Clash)
}

/// The record of some fields, in whichever order they stand.
pub fn record_of(alloc: Global, fields: Vec<(Text, Ty)>) -> Result<Ty, TypeFault>
    ensures ok { IfOk result (λ t. judged (types.recorded (map typed_entry fields.items)) ≡ Gives (type_of t)) }
    ensures err { IfErr result (λ fault. (fault ≡ Memory) ⊎ (judged (types.recorded (map typed_entry fields.items)) ≡ Stops fault)) }
{
    match RecordTy::of(alloc, fields) {
        Ok(fields) => Ok(Ty::record(fields)),
        Err(FieldsFault::Memory) => Err(TypeFault::Memory),
        Err(FieldsFault::Empty) => Err(TypeFault::Clash),
        Err(FieldsFault::Repeated(_)) => Err(TypeFault::Clash),
        Err(FieldsFault::Name(_)) => Err(TypeFault::Clash),
    }
}
