// The inequalities of refinements of Modal entities.
ghost use Rattle.std.specs.Prelude.{◌≡◌, IfOk, OnOk, List, ℕ, map, option_map, slice_get};
ghost use Rattle.pt_document.specs.View.{port_view};
ghost use Rattle.pt_net.specs.Net.{entity_view};
ghost use Rattle.pt_inequalities.specs.ModalScopes.{is_modal};
ghost use Rattle.pt_inequalities.specs.Modals.{of_like, of_refinement, modal_ports, of_round, of_child, of_children, refined};
ghost use Rattle.pt_frames.specs.Views.{port_numbers};
ghost use Rattle.pt_places.specs.Views.{IsAdded};

use crate::place::add;
use pt_document::{Direction, Port};
use pt_frames::{PortNumbers, has_modal, is_modal};
use pt_net::NetEntity;
use pt_typing::{Inequality, Term, Variable};
use std::alloc::{AllocError, Global};

/// The ports of an entity that refinements share.
fn modal_ports(alloc: Global, entity: &NetEntity) -> Result<PortNumbers, AllocError>
    ensures { IfOk result (λ ports. (name : List ℕ) → port_numbers ports name ≡ modal_ports (entity_view entity.now) name) }
{
    if is_modal(entity) {
        PortNumbers::of_ports(alloc, &entity.ports)
    } else {
        Ok(PortNumbers::new(alloc))
    }
}

/// For each entity the ports that refinements share.
fn port_tables(alloc: Global, entities: &[NetEntity]) -> Result<Vec<PortNumbers>, AllocError>
    ensures { IfOk result (λ tables. map port_numbers tables.items ≡ map modal_ports (map entity_view entities.now)) }
{
    let mut tables = Vec::with_capacity(alloc, entities.len())?;
    for entity in entities {
        tables.push(modal_ports(alloc, entity)?)?;
    }
    Ok(tables)
}

/// What passes at a port of a refinement and at the port of its name outside.
fn add_like(
    modal: u32,
    entity: usize,
    index: usize,
    direction: Direction,
    port: Option<usize>,
    inequalities: &mut Vec<Inequality>,
) -> Result<(), AllocError>
    ensures { OnOk result (IsAdded inequalities.old.items inequalities.new.items (of_like modal entity index direction port)) }
{
    let Some(port) = port else {
        return Ok(());
    };
    let inner = Variable::Port(entity, index);
    let outer = Variable::Port(modal as usize, port);
    match direction {
        Direction::Input => add(inequalities, inner, Term::Same(outer)),
        Direction::Output => add(inequalities, outer, Term::Same(inner)),
    }
}

/// What passes at the ports of a refinement and at those of the Modal entity of this number.
fn add_refinement(
    table: &PortNumbers,
    modal: u32,
    entity: usize,
    ports: &[Port],
    inequalities: &mut Vec<Inequality>,
) -> Result<(), AllocError>
    ensures { OnOk result (IsAdded inequalities.old.items inequalities.new.items (of_refinement (port_numbers table.now) modal entity 0 (map port_view ports.now))) }
{
    for (index, port) in ports.iter().enumerate() {
        let outer = table.get(port.name.as_str());
        add_like(modal, entity, index, port.direction, outer, inequalities)?;
    }
    Ok(())
}

/// The ports of the entity of this number, if it is there.
fn table_at(tables: &[PortNumbers], number: u32) -> Option<&PortNumbers>
    ensures { option_map (λ t. port_numbers t.now) result ≡ slice_get (map port_numbers tables.now) number }
{
    tables.get(number as usize)
}

/// What passes at the ports of an entity within a Modal one.
fn add_within(
    tables: &[PortNumbers],
    modal: u32,
    entity: usize,
    ports: &[Port],
    inequalities: &mut Vec<Inequality>,
) -> Result<(), AllocError>
    ensures { OnOk result (IsAdded inequalities.old.items inequalities.new.items (of_round (slice_get (map port_numbers tables.now) modal) modal entity (map port_view ports.now))) }
{
    match table_at(tables, modal) {
        Some(table) => add_refinement(table, modal, entity, ports, inequalities),
        None => Ok(()),
    }
}

/// What passes at the ports of an entity, where it is a refinement.
fn add_child(
    tables: &[PortNumbers],
    number: usize,
    entity: &NetEntity,
    inequalities: &mut Vec<Inequality>,
) -> Result<(), AllocError>
    ensures { OnOk result (IsAdded inequalities.old.items inequalities.new.items (of_child (map port_numbers tables.now) number (entity_view entity.now).ports entity.now.within entity.now.parent)) }
{
    match (entity.within, entity.parent) {
        (None, Some(modal)) => add_within(tables, modal, number, &entity.ports, inequalities),
        (Some(_), _) | (None, None) => Ok(()),
    }
}

/// What passes at the ports of refinements.
fn add_children(
    tables: &[PortNumbers],
    entities: &[NetEntity],
    inequalities: &mut Vec<Inequality>,
) -> Result<(), AllocError>
    ensures { OnOk result (IsAdded inequalities.old.items inequalities.new.items (of_children (map port_numbers tables.now) 0 (map entity_view entities.now))) }
{
    for (number, entity) in entities.iter().enumerate() {
        add_child(tables, number, entity, inequalities)?;
    }
    Ok(())
}

/// The inequalities of the refinements of a net. Where no entity is Modal there are none, and no tables are made.
pub fn add_refinements(
    alloc: Global,
    entities: &[NetEntity],
    inequalities: &mut Vec<Inequality>,
) -> Result<(), AllocError>
    ensures { OnOk result (IsAdded inequalities.old.items inequalities.new.items (refined (map entity_view entities.now))) }
{
    if !has_modal(entities) {
        return Ok(());
    }
    let tables = port_tables(alloc, entities)?;
    add_children(&tables, entities, inequalities)
}
