// Ports and Variables with their types.
ghost use Rattle.std.specs.Prelude.{◌≡◌, ◌++◌, IfOk, OnOk, map, option_map, option_to_list, slice_get};
ghost use Rattle.pt_value.specs.Token.{value_of};
ghost use Rattle.pt_datatypes.specs.Token.{type_of_value};
ghost use Rattle.pt_document.specs.View.{port_view, property_view, properties_view};
ghost use Rattle.pt_document.specs.Document.{property_name};
ghost use Rattle.pt_types.specs.Entry.{typed_entry};
ghost use Rattle.pt_typing.specs.Least.{assignment};
ghost use Rattle.pt_typing.specs.declared.variable.Variable.TheVariants.{Port as PortOf};
ghost use Rattle.pt_machine.specs.Typed as spec;
ghost use Rattle.pt_machine.specs.Typed.{typed_if};

use crate::names::is_along;
use pt_document::{Direction, Port, Property};
use pt_scopes::name_of;
use pt_types::{Ty, type_of_token};
use pt_typing::{Typing, Variable};
use pt_value::{Text, Token};
use std::alloc::{AllocError, Global};

/// A port with its type.
fn typed_port(
    alloc: Global,
    typing: &Typing,
    entity: usize,
    number: usize,
    port: &Port,
) -> Result<(Text, Ty), AllocError>
    ensures { IfOk result (λ entry. typed_entry entry ≡ (port.now.name, (assignment typing.now).types (PortOf entity number))) }
{
    let ty = typing.ty(alloc, Variable::Port(entity, number))?;
    let name = port.name.copy(alloc)?;
    Ok((name, ty))
}

/// Adds a port with its type, if it has this direction.
fn add_port(
    alloc: Global,
    direction: Direction,
    typing: &Typing,
    entity: usize,
    number: usize,
    port: &Port,
    list: &mut Vec<(Text, Ty)>,
) -> Result<(), AllocError>
    ensures { OnOk result (map typed_entry list.new.items ≡ map typed_entry list.old.items ++ option_to_list (typed_if direction (assignment typing.now) entity (number, port_view port.now))) }
{
    if !is_along(direction, port) {
        return Ok(());
    }
    let entry = typed_port(alloc, typing, entity, number, port)?;
    list.push(entry)?;
    Ok(())
}

/// The ports of a direction of the entity of this number in its net, each with its type.
pub fn typed_along(
    alloc: Global,
    direction: Direction,
    typing: &Typing,
    entity: usize,
    ports: &[Port],
) -> Result<Vec<(Text, Ty)>, AllocError>
    ensures { IfOk result (λ list. map typed_entry list.items ≡ spec.typed_along direction (assignment typing.now) entity (map port_view ports.now)) }
{
    let mut list = Vec::new(alloc);
    for (number, port) in ports.iter().enumerate() {
        add_port(alloc, direction, typing, entity, number, port, &mut list)?;
    }
    Ok(list)
}

/// The value of this number, if there is one.
fn value_at(values: &[Token], number: usize) -> Option<&Token>
    ensures { option_map (λ v. value_of v.now) result ≡ slice_get (map value_of values.now) number }
{
    values.get(number)
}

/// A Variable with the type of its value.
fn typed_variable(
    alloc: Global,
    variable: &Property,
    value: &Token,
) -> Result<(Text, Ty), AllocError>
    ensures { IfOk result (λ entry. typed_entry entry ≡ (property_name (property_view variable.now), type_of_value (value_of value.now))) }
{
    let ty = type_of_token(alloc, value)?;
    let name = Text::of(alloc, name_of(variable))?;
    Ok((name, ty))
}

/// Adds a Variable with the type of its value, if it has one.
fn add_variable(
    alloc: Global,
    variable: &Property,
    value: Option<&Token>,
    list: &mut Vec<(Text, Ty)>,
) -> Result<(), AllocError>
    ensures { OnOk result (map typed_entry list.new.items ≡ map typed_entry list.old.items ++ option_to_list (option_map (λ v. (property_name (property_view variable.now), type_of_value (value_of v.now))) value.entry)) }
{
    match value {
        Some(value) => {
            let entry = typed_variable(alloc, variable, value)?;
            list.push(entry)?;
            Ok(())
        }
        None => Ok(()),
    }
}

/// The Variables, each with the type of its first value.
pub fn typed_variables(
    alloc: Global,
    values: &[Token],
    variables: &[Property],
) -> Result<Vec<(Text, Ty)>, AllocError>
    ensures { IfOk result (λ list. map typed_entry list.items ≡ spec.typed_variables (map value_of values.now) (properties_view variables.now)) }
{
    let mut list = Vec::with_capacity(alloc, variables.len())?;
    for (number, variable) in variables.iter().enumerate() {
        add_variable(alloc, variable, value_at(values, number), &mut list)?;
    }
    Ok(list)
}
