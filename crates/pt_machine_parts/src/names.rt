// What a Modal entity names, as lists of names.
ghost use Rattle.std.specs.Prelude.{◌≡◌, IfOk, map};
ghost use Rattle.pt_document.specs.View.{port_view, properties_view};
ghost use Rattle.pt_document.specs.Document.{property_name};
ghost use Rattle.pt_net.specs.Net.{entity_view};
ghost use Rattle.pt_net.specs.Inside.{is_inward};
ghost use Rattle.pt_machine.specs.Names as spec;
ghost use Rattle.pt_machine.specs.Names.{state_name, path_of};
ghost use Rattle.pt_machine_parts.specs.Texts.{texts};
ghost use Rattle.pt_machine_parts.specs.Views.{kids_view};

use pt_document::{Direction, Port, Property, State};
use pt_net::NetEntity;
use pt_scopes::name_of;
use std::alloc::{AllocError, Global};

fn is_input(direction: Direction) -> bool
    ensures { result ≡ is_inward direction }
{
    match direction {
        Direction::Input => true,
        Direction::Output => false,
    }
}

/// Whether a port has a direction.
pub(crate) fn is_along(direction: Direction, port: &Port) -> bool
    ensures { result ≡ spec.is_along direction (port_view port.now) }
{
    match direction {
        Direction::Input => is_input(port.direction),
        Direction::Output => !is_input(port.direction),
    }
}

fn names_of_states<'a>(alloc: Global, states: &'a [State]) -> Result<Vec<&'a str>, AllocError>
    ensures { IfOk result (λ found. texts found.items ≡ map state_name states.now) }
{
    let mut found = Vec::with_capacity(alloc, states.len())?;
    for state in states {
        found.push(state.name.as_str())?;
    }
    Ok(found)
}

fn names_of_variables<'a>(
    alloc: Global,
    variables: &'a [Property],
) -> Result<Vec<&'a str>, AllocError>
    ensures { IfOk result (λ found. texts found.items ≡ map property_name (properties_view variables.now)) }
{
    let mut found = Vec::with_capacity(alloc, variables.len())?;
    for variable in variables {
        found.push(name_of(variable))?;
    }
    Ok(found)
}

fn names_of_ports<'a>(
    alloc: Global,
    direction: Direction,
    ports: &'a [Port],
) -> Result<Vec<&'a str>, AllocError>
    ensures { IfOk result (λ found. texts found.items ≡ spec.names_along direction (map port_view ports.now)) }
{
    let mut found = Vec::with_capacity(alloc, ports.len())?;
    for port in ports {
        if is_along(direction, port) {
            found.push(port.name.as_str())?;
        }
    }
    Ok(found)
}

/// The names of the states of an entity.
pub(crate) fn state_names<'a>(
    alloc: Global,
    entity: &'a NetEntity,
) -> Result<Vec<&'a str>, AllocError>
    ensures { IfOk result (λ found. texts found.items ≡ spec.state_names (entity_view entity.now)) }
{
    names_of_states(alloc, &entity.states)
}

/// The names of its Variables.
pub(crate) fn variable_names<'a>(
    alloc: Global,
    entity: &'a NetEntity,
) -> Result<Vec<&'a str>, AllocError>
    ensures { IfOk result (λ found. texts found.items ≡ spec.variable_names (entity_view entity.now)) }
{
    names_of_variables(alloc, &entity.variables)
}

/// The names of its ports of a direction.
pub(crate) fn names_along<'a>(
    alloc: Global,
    direction: Direction,
    entity: &'a NetEntity,
) -> Result<Vec<&'a str>, AllocError>
    ensures { IfOk result (λ found. texts found.items ≡ spec.names_along direction (entity_view entity.now).ports) }
{
    names_of_ports(alloc, direction, &entity.ports)
}

/// The paths of entities.
pub(crate) fn paths<'a>(
    alloc: Global,
    entities: &[&'a NetEntity],
) -> Result<Vec<&'a str>, AllocError>
    ensures { IfOk result (λ found. texts found.items ≡ map path_of (kids_view entities.now)) }
{
    let mut found = Vec::with_capacity(alloc, entities.len())?;
    for entity in entities {
        found.push(entity.path.as_str())?;
    }
    Ok(found)
}
