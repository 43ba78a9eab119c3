ghost use Rattle.std.specs.Prelude.{◌≡◌, ◌++◌, [], ◌∷◌, map, filter, not, option_map, unwrap_or, IfOk, IfErr, OnOk};
ghost use Rattle.std.specs.List.{find};
ghost use Rattle.pt_document.specs.declared.refusal.DocFault.TheVariants.{Memory};
ghost use Rattle.pt_document.specs.Document.{parts};
ghost use Rattle.pt_document.specs.Classes.{port_of};
ghost use Rattle.pt_document.specs.View as view;
ghost use Rattle.pt_net.specs.Standing.{is_director, is_kept};
ghost use Rattle.pt_survey.specs.Survey.{placed_view, table_view};
ghost use Rattle.pt_net.specs.Net as net;

use crate::copies::{optional_text, parameters, port, states, text, transitions, variables};
use pt_document::{
    ClassPort, Direction, DocFault, Entity, Kind, Port, Property, State, Transition, kind_named,
};
use pt_net::{NetDirector, NetEntity, Transparent};
use pt_survey::{Placed, is_director, number};
use pt_value::Text;
use std::alloc::{AllocError, Global};

fn optional_number(n: Option<usize>) -> Result<Option<u32>, DocFault>
    ensures ok { IfOk result (λ m. m ≡ n) }
    ensures err { IfErr result (λ e. e ≡ Memory) }
{
    match n {
        Some(n) => Ok(Some(number(n)?)),
        None => Ok(None),
    }
}

fn class_of(alloc: Global, class: &Option<Text>) -> Result<Text, AllocError>
    ensures { IfOk result (λ t. t ≡ unwrap_or class.now []) }
{
    match class {
        Some(class) => text(alloc, class),
        None => Text::of(alloc, ""),
    }
}

fn director_of(alloc: Global, property: &Property) -> Result<NetDirector, AllocError>
    ensures { IfOk result (λ director. net.director_view director ≡ net.director_tree (view.property_view property.now)) }
{
    Ok(NetDirector {
        class: class_of(alloc, &property.class)?,
        parameters: parameters(alloc, &property.properties)?,
    })
}

/// The director among these properties.
fn director(alloc: Global, properties: &[Property]) -> Result<Option<NetDirector>, AllocError>
    ensures { IfOk result (λ director. option_map net.director_view director ≡ option_map net.director_tree (find is_director (view.properties_view properties.now))) }
{
    for property in properties {
        if is_director(property) {
            return Ok(Some(director_of(alloc, property)?));
        }
    }
    Ok(None)
}

fn add_declared(alloc: Global, ports: &mut Vec<Port>, declared: &[Port]) -> Result<(), AllocError>
    ensures { OnOk result (map view.port_view ports.new.items ≡ map view.port_view ports.old.items ++ map view.port_view declared.now) }
{
    ports.reserve_exact(declared.len())?;
    for item in declared {
        ports.push(port(alloc, item)?)?;
    }
    Ok(())
}

fn row_port(alloc: Global, row: &ClassPort) -> Result<Port, AllocError>
    ensures { IfOk result (λ port. view.port_view port ≡ net.row_port (port_of row.now)) }
{
    Ok(Port {
        name: Text::of(alloc, row.name)?,
        direction: row.direction,
        declared: None,
        properties: Vec::new(alloc),
    })
}

fn add_rows(alloc: Global, ports: &mut Vec<Port>, rows: &[ClassPort]) -> Result<(), AllocError>
    ensures { OnOk result (map view.port_view ports.new.items ≡ map view.port_view ports.old.items ++ map net.row_port (map port_of rows.now)) }
{
    ports.reserve_exact(rows.len())?;
    for row in rows {
        ports.push(row_port(alloc, row)?)?;
    }
    Ok(())
}

/// The ports of an entity, in the order in which they are numbered.
fn ports(alloc: Global, entity: &Entity) -> Result<Vec<Port>, AllocError>
    ensures { IfOk result (λ ports. map view.port_view ports.items ≡ net.net_ports (parts (view.entity_view entity.now))) }
{
    let mut ports = Vec::new(alloc);
    match kind_named(entity.class.as_str()) {
        Some(Kind::Actor(class)) => match class.declares {
            Some(Direction::Output) => {
                add_rows(alloc, &mut ports, class.ports)?;
                add_declared(alloc, &mut ports, &entity.ports)?;
            }
            Some(Direction::Input) | None => {
                add_declared(alloc, &mut ports, &entity.ports)?;
                add_rows(alloc, &mut ports, class.ports)?;
            }
        },
        Some(Kind::Composite) | Some(Kind::Modal) | None => {
            add_declared(alloc, &mut ports, &entity.ports)?;
        }
    }
    Ok(ports)
}

/// What an entity of the net is called, and its director.
#[derive(Drop)]
struct Title {
    path: Text,
    class: Text,
    director: Option<NetDirector>,
}

fn named(alloc: Global, placed: &Placed) -> Result<Title, AllocError>
    ensures path { IfOk result (λ named. named.path ≡ placed.now.path) }
    ensures class { IfOk result (λ named. named.class ≡ (parts (view.entity_view placed.now.entity.now)).class) }
    ensures director { IfOk result (λ named. option_map net.director_view named.director ≡ option_map net.director_tree (find is_director (parts (view.entity_view placed.now.entity.now)).properties)) }
{
    let entity = placed.entity;
    Ok(Title {
        path: text(alloc, &placed.path)?,
        class: text(alloc, &entity.class)?,
        director: director(alloc, &entity.properties)?,
    })
}

/// The ports of an entity of the net, its parameters and its Variables.
#[derive(Drop)]
struct Contents {
    ports: Vec<Port>,
    parameters: Vec<Property>,
    variables: Vec<Property>,
}

fn given(alloc: Global, entity: &Entity) -> Result<Contents, AllocError>
    ensures ports { IfOk result (λ given. map view.port_view given.ports.items ≡ net.net_ports (parts (view.entity_view entity.now))) }
    ensures parameters { IfOk result (λ given. view.properties_view given.parameters.items ≡ filter net.is_parameter (parts (view.entity_view entity.now)).properties) }
    ensures variables { IfOk result (λ given. view.properties_view given.variables.items ≡ filter net.is_variable (parts (view.entity_view entity.now)).properties) }
{
    Ok(Contents {
        ports: ports(alloc, entity)?,
        parameters: parameters(alloc, &entity.properties)?,
        variables: variables(alloc, &entity.properties)?,
    })
}

/// The states of an entity of the net, and its transitions.
#[derive(Drop)]
struct Behavior {
    states: Vec<State>,
    initial: Option<Text>,
    transitions: Vec<Transition>,
}

fn modes(alloc: Global, entity: &Entity) -> Result<Behavior, AllocError>
    ensures states { IfOk result (λ modes. modes.states.items ≡ (parts (view.entity_view entity.now)).states) }
    ensures initial { IfOk result (λ modes. modes.initial ≡ (parts (view.entity_view entity.now)).initial) }
    ensures transitions { IfOk result (λ modes. map view.transition_view modes.transitions.items ≡ (parts (view.entity_view entity.now)).transitions) }
{
    Ok(Behavior {
        states: states(alloc, &entity.states)?,
        initial: optional_text(alloc, &entity.initial)?,
        transitions: transitions(alloc, &entity.transitions)?,
    })
}

fn add_entity(alloc: Global, entities: &mut Vec<NetEntity>, placed: &Placed) -> Result<(), DocFault>
    ensures ok { OnOk result (map net.entity_view entities.new.items ≡ map net.entity_view entities.old.items ++ net.entity_tree (placed_view placed.now) ∷ []) }
    ensures err { IfErr result (λ e. e ≡ Memory) }
{
    let parent = optional_number(placed.round.parent)?;
    let within = optional_number(placed.round.within)?;
    let named = named(alloc, placed)?;
    let given = given(alloc, placed.entity)?;
    let modes = modes(alloc, placed.entity)?;
    entities.push(NetEntity {
        path: named.path,
        class: named.class,
        director: named.director,
        parent,
        within,
        ports: given.ports,
        parameters: given.parameters,
        variables: given.variables,
        states: modes.states,
        initial: modes.initial,
        transitions: modes.transitions,
    })?;
    Ok(())
}

/// The entities that stay in the net.
pub fn net_entities(alloc: Global, table: &[Placed]) -> Result<Vec<NetEntity>, DocFault>
    ensures ok { IfOk result (λ entities. map net.entity_view entities.items ≡ map net.entity_tree (filter is_kept (table_view table.now))) }
    ensures err { IfErr result (λ e. e ≡ Memory) }
{
    let mut entities = Vec::with_capacity(alloc, table.len())?;
    for placed in table {
        if placed.is_kept() {
            add_entity(alloc, &mut entities, placed)?;
        }
    }
    Ok(entities)
}

fn transparent(alloc: Global, placed: &Placed) -> Result<Transparent, DocFault>
    ensures ok { IfOk result (λ entity. net.transparent_view entity ≡ net.transparent_tree (placed_view placed.now)) }
    ensures err { IfErr result (λ e. e ≡ Memory) }
{
    let parent = optional_number(placed.round.parent)?;
    let within = optional_number(placed.round.within)?;
    Ok(Transparent {
        path: text(alloc, &placed.path)?,
        parent,
        within,
        ports: ports(alloc, placed.entity)?,
        parameters: parameters(alloc, &placed.entity.properties)?,
    })
}

fn add_transparent(
    alloc: Global,
    entities: &mut Vec<Transparent>,
    placed: &Placed,
) -> Result<(), DocFault>
    ensures ok { OnOk result (map net.transparent_view entities.new.items ≡ map net.transparent_view entities.old.items ++ net.transparent_tree (placed_view placed.now) ∷ []) }
    ensures err { IfErr result (λ e. e ≡ Memory) }
{
    let entity = transparent(alloc, placed)?;
    entities.push(entity)?;
    Ok(())
}

/// The transparent composites.
pub fn transparent_composites(alloc: Global, table: &[Placed]) -> Result<Vec<Transparent>, DocFault>
    ensures ok { IfOk result (λ entities. map net.transparent_view entities.items ≡ map net.transparent_tree (filter (λ s. not (is_kept s)) (table_view table.now))) }
    ensures err { IfErr result (λ e. e ≡ Memory) }
{
    let mut entities = Vec::new(alloc);
    for placed in table {
        if !placed.is_kept() {
            add_transparent(alloc, &mut entities, placed)?;
        }
    }
    Ok(entities)
}
