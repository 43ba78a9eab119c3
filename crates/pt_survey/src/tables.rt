ghost use Rattle.std.specs.Prelude.{◌≡◌, ◌++◌, [], ◌∷◌, map, IfOk, OnOk};
ghost use Rattle.pt_document.specs.Document.{parts};
ghost use Rattle.pt_document.specs.Classes.{port_of};
ghost use Rattle.pt_document.specs.View.{entity_view, port_view};
ghost use Rattle.pt_survey.specs.Survey.{placed_view, table_view, port_at, ports_view, relations_view, links_view, tables_view};
ghost use Rattle.pt_net.specs.Standing.{is_opaque, is_kept};
ghost use Rattle.pt_net.specs.Table as spec;
ghost use Rattle.pt_net.specs.Wires as wires;
ghost use Rattle.pt_net.specs.Stands as stands;

use crate::surveying::Placed;
use pt_document::{Arity, ClassPort, Direction, Entity, Kind, Link, Port, PortRow, kind_named};
use std::alloc::{AllocError, Global};

/// A port, with its entity and its number there.
#[derive(Clone, Copy)]
pub struct PlacedPort<'t, 'a> {
    pub entity: usize,
    pub placed: &'t Placed<'a>,
    pub number: usize,
    pub port: PortRow<&'a str>,
}

/// A relation, with its composite.
#[derive(Clone, Copy)]
pub struct PlacedRelation<'t, 'a> {
    pub composite: usize,
    pub placed: &'t Placed<'a>,
    pub name: &'a str,
}

/// A link, with its composite.
#[derive(Clone, Copy)]
pub struct PlacedLink<'t, 'a> {
    pub composite: usize,
    pub placed: &'t Placed<'a>,
    pub link: &'a Link,
}

/// The entities, ports, relations and links of a job, in the order of the document.
#[derive(Drop)]
pub struct Tables<'t, 'a> {
    pub entities: &'t [Placed<'a>],
    pub ports: Vec<PlacedPort<'t, 'a>>,
    pub relations: Vec<PlacedRelation<'t, 'a>>,
    pub links: Vec<PlacedLink<'t, 'a>>,
}

fn is_inward(direction: Direction) -> bool
    ensures { result ≡ wires.is_inward direction }
{
    match direction {
        Direction::Input => true,
        Direction::Output => false,
    }
}

fn has_one_at_most(arity: Arity) -> bool
    ensures { result ≡ stands.has_one_at_most arity }
{
    match arity {
        Arity::Single | Arity::Optional => true,
        Arity::Many | Arity::ManyOrNone => false,
    }
}

fn has_one(arity: Arity) -> bool
    ensures { result ≡ stands.has_one arity }
{
    match arity {
        Arity::Single => true,
        Arity::Optional | Arity::Many | Arity::ManyOrNone => false,
    }
}

fn has_one_at_least(arity: Arity) -> bool
    ensures { result ≡ stands.has_one_at_least arity }
{
    match arity {
        Arity::Many => true,
        Arity::Single | Arity::Optional | Arity::ManyOrNone => false,
    }
}

impl PlacedPort<'_, '_> {
    pub fn is_input(&self) -> bool
        ensures { result ≡ wires.is_input (port_at self.now) }
    {
        is_inward(self.port.direction)
    }

    /// Whether the entity of the port stays in the net.
    pub fn is_kept(&self) -> bool
        ensures { result ≡ is_kept (port_at self.now).standing }
    {
        self.placed.is_kept()
    }

    /// Whether the entity of the port is opaque.
    pub fn is_opaque(&self) -> bool
        ensures { result ≡ is_opaque (port_at self.now).standing }
    {
        self.placed.is_opaque()
    }

    /// Whether the port has one channel at most.
    pub fn is_single(&self) -> bool
        ensures { result ≡ stands.is_single (port_at self.now) }
    {
        has_one_at_most(self.port.arity)
    }

    /// Whether the port is a multiport with one channel at least.
    pub fn is_many(&self) -> bool
        ensures { result ≡ stands.is_many (port_at self.now) }
    {
        has_one_at_least(self.port.arity)
    }

    /// Whether the port has to have a link outside.
    pub fn needs_link(&self) -> bool
        ensures { result ≡ stands.needs_link (port_at self.now) }
    {
        self.is_input()
            && has_one(self.port.arity)
            && self.is_kept()
            && self.placed.round.outer.is_some()
            && !self.placed.round.is_refinement
    }

    /// Whether the port has to have a link inside.
    pub fn needs_link_inside(&self) -> bool
        ensures { result ≡ stands.needs_link_inside (port_at self.now) }
    {
        self.placed.entity.class.as_str() == "Composite" && self.placed.is_directed
    }
}

fn add_declared<'a>(
    ports: &mut Vec<PortRow<&'a str>>,
    declared: &'a [Port],
) -> Result<(), AllocError>
    ensures { OnOk result (map port_of ports.new.items ≡ map port_of ports.old.items ++ map spec.declared_port (map port_view declared.now)) }
{
    for port in declared {
        ports.push(PortRow {
            name: port.name.as_str(),
            direction: port.direction,
            arity: Arity::Single,
        })?;
    }
    Ok(())
}

fn add_rows<'a>(ports: &mut Vec<PortRow<&'a str>>, rows: &[ClassPort]) -> Result<(), AllocError>
    ensures { OnOk result (map port_of ports.new.items ≡ map port_of ports.old.items ++ map port_of rows.now) }
{
    ports.extend_from_slice(rows)
}

/// Lists the ports of an entity, those of its class and those that it declares, in place of what the list had.
#[tactic(auto, unfolding(pt_net::specs::Table::ports_of))]
fn list_ports<'a>(ports: &mut Vec<PortRow<&'a str>>, entity: &'a Entity) -> Result<(), AllocError>
    ensures { OnOk result (map port_of ports.new.items ≡ spec.ports_of (parts (entity_view entity.now))) }
{
    ports.clear();
    match kind_named(entity.class.as_str()) {
        Some(Kind::Actor(class)) => match class.declares {
            Some(Direction::Output) => {
                add_rows(ports, class.ports)?;
                add_declared(ports, &entity.ports)?;
            }
            Some(Direction::Input) | None => {
                add_declared(ports, &entity.ports)?;
                add_rows(ports, class.ports)?;
            }
        },
        Some(Kind::Composite) | Some(Kind::Modal) | None => {
            add_declared(ports, &entity.ports)?;
        }
    }
    Ok(())
}

/// Adds these ports of an entity.
fn add_listed<'t, 'a>(
    table: &mut Vec<PlacedPort<'t, 'a>>,
    entity: usize,
    placed: &'t Placed<'a>,
    ports: &[PortRow<&'a str>],
) -> Result<(), AllocError>
    ensures { OnOk result (ports_view table.new.items ≡ ports_view table.old.items ++ spec.numbered_ports entity (placed_view placed.now) 0 (map port_of ports.now)) }
{
    for (number, port) in ports.iter().enumerate() {
        table.push(PlacedPort {
            entity,
            placed,
            number,
            port: *port,
        })?;
    }
    Ok(())
}

/// Adds the ports of an entity. The room is for their list, so that none is made for each entity.
fn add_ports<'t, 'a>(
    room: &mut Vec<PortRow<&'a str>>,
    table: &mut Vec<PlacedPort<'t, 'a>>,
    entity: usize,
    placed: &'t Placed<'a>,
) -> Result<(), AllocError>
    ensures { OnOk result (ports_view table.new.items ≡ ports_view table.old.items ++ spec.numbered_ports entity (placed_view placed.now) 0 (spec.ports_of (parts (placed_view placed.now).tree))) }
{
    list_ports(room, placed.entity)?;
    add_listed(table, entity, placed, room.as_slice())
}

fn add_relations<'t, 'a>(
    table: &mut Vec<PlacedRelation<'t, 'a>>,
    composite: usize,
    placed: &'t Placed<'a>,
) -> Result<(), AllocError>
    ensures { OnOk result (relations_view table.new.items ≡ relations_view table.old.items ++ spec.relations_in composite (placed_view placed.now)) }
{
    for relation in &placed.entity.relations {
        table.push(PlacedRelation {
            composite,
            placed,
            name: relation.name.as_str(),
        })?;
    }
    Ok(())
}

fn add_link<'t, 'a>(
    table: &mut Vec<PlacedLink<'t, 'a>>,
    composite: usize,
    placed: &'t Placed<'a>,
    link: &'a Link,
) -> Result<(), AllocError>
    ensures { OnOk result (links_view table.new.items ≡ links_view table.old.items ++ record { composite = composite; standing = placed_view placed.now; link = link.now } ∷ []) }
{
    table.push(PlacedLink {
        composite,
        placed,
        link,
    })?;
    Ok(())
}

fn add_links<'t, 'a>(
    table: &mut Vec<PlacedLink<'t, 'a>>,
    composite: usize,
    placed: &'t Placed<'a>,
) -> Result<(), AllocError>
    ensures { OnOk result (links_view table.new.items ≡ links_view table.old.items ++ spec.links_in composite (placed_view placed.now)) }
{
    for link in &placed.entity.links {
        add_link(table, composite, placed, link)?;
    }
    Ok(())
}

impl<'t, 'a> Tables<'t, 'a> {
    /// Adds the ports, relations and links of the entity of this number.
    fn add(
        &mut self,
        room: &mut Vec<PortRow<&'a str>>,
        number: usize,
        placed: &'t Placed<'a>,
    ) -> Result<(), AllocError>
        ensures entities { OnOk result (self.new.entities.now ≡ self.old.entities.now) }
        ensures ports { OnOk result (ports_view self.new.ports.items ≡ ports_view self.old.ports.items ++ spec.numbered_ports number (placed_view placed.now) 0 (spec.ports_of (parts (placed_view placed.now).tree))) }
        ensures relations { OnOk result (relations_view self.new.relations.items ≡ relations_view self.old.relations.items ++ spec.relations_in number (placed_view placed.now)) }
        ensures links { OnOk result (links_view self.new.links.items ≡ links_view self.old.links.items ++ spec.links_in number (placed_view placed.now)) }
    {
        add_ports(room, &mut self.ports, number, placed)?;
        add_relations(&mut self.relations, number, placed)?;
        add_links(&mut self.links, number, placed)
    }
}

/// The tables of a job with these entities.
pub fn tables_of<'t, 'a>(
    alloc: Global,
    entities: &'t [Placed<'a>],
) -> Result<Tables<'t, 'a>, AllocError>
    ensures { IfOk result (λ tables. tables_view tables ≡ spec.tables_from (table_view entities.now)) }
{
    let mut tables = Tables {
        entities,
        ports: Vec::new(alloc),
        relations: Vec::new(alloc),
        links: Vec::new(alloc),
    };
    let mut room = Vec::new(alloc);
    for (number, placed) in entities.iter().enumerate() {
        tables.add(&mut room, number, placed)?;
    }
    Ok(tables)
}
