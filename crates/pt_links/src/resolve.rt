ghost use Rattle.std.specs.Prelude.{◌≡◌, ◌++◌, ◌∷◌, [], ℕ, List, length, map, Some, true, position, IfOk, IfErr, OnOk, option_map};
ghost use Rattle.std.specs.Borrow.{Bor};
ghost use Rattle.indexmap.specs.IndexMap.{get};
ghost use Rattle.pt_document.specs.declared.code.Code.TheVariants as code;
ghost use Rattle.std.specs.List.{All, Contains};
ghost use Rattle.std.specs.Map.{lookup};
ghost use Rattle.pt_links.specs.Resolve.{Name, pair_eq, child_eq, outside_text, is_marked, HasLinks, IsNames};
ghost use Rattle.pt_net.specs.Table.{PortAt, LinkAt};
ghost use Rattle.pt_survey.specs.Survey.{port_at, ports_view, relations_view, links_view, tables_view, link_at};
ghost use Rattle.pt_net.specs.Wires as wires;
ghost use Rattle.pt_net.specs.Stands.{IsTold, IsLinkFault};

use crate::names::{Places, first_numbers, first_places};
use crate::refusal::refused_link;
use pt_document::{DocFault, Link};
use pt_net::Wire;
use pt_survey::{PlacedLink, PlacedPort, PlacedRelation, Tables};
use pt_value::Text;
use std::alloc::{AllocError, Global};

/// The numbers of ports and relations by the texts of links: of a composite's own ports, of the ports of its children,
/// and of its relations.
#[derive(Drop)]
struct Names<'k, 't, 'a> {
    tables: &'k Tables<'t, 'a>,
    inside: Places<(usize, &'k str)>,
    outside: Places<(Option<usize>, &'k str)>,
    relations: Places<(usize, &'k str)>,
}

/// The text of each port, seen from outside.
fn outside_texts(alloc: Global, ports: &[PlacedPort]) -> Result<Vec<Text>, AllocError>
    ensures { IfOk result (λ texts. texts.items ≡ map outside_text (ports_view ports.now)) }
{
    let mut texts = Vec::with_capacity(alloc, ports.len())?;
    for port in ports {
        let entity = port.placed.entity.name.as_str();
        texts.push(Text::joined(alloc, entity, port.port.name)?)?;
    }
    Ok(texts)
}

/// Whether an entity may have links, by these marks.
fn is_marked(marks: &[bool], entity: usize) -> bool
    ensures { result ≡ is_marked marks.now entity }
{
    match marks.get(entity) {
        Some(is_marked) => *is_marked,
        None => true,
    }
}

/// Marks an entity that has links.
fn mark(marks: &mut Vec<bool>, entity: usize)
    ensures marked { is_marked marks.new.items entity ≡ true }
    ensures kept { (other : ℕ) → is_marked marks.old.items other ≡ true → is_marked marks.new.items other ≡ true }
{
    if entity < marks.len() {
        marks[entity] = true;
    }
}

/// Which of so many entities have links.
fn marks_of(alloc: Global, count: usize, links: &[PlacedLink]) -> Result<Vec<bool>, AllocError>
    ensures { IfOk result (λ marks. All (λ link. is_marked marks.items link.composite ≡ true) links.now) }
{
    let mut marks = vec![in alloc; false; count]?;
    for link in links {
        mark(&mut marks, link.composite);
    }
    Ok(marks)
}

/// Adds a port by its name within its entity, if that is marked.
fn add_inside<'k>(
    pairs: &mut Vec<((usize, &'k str), usize)>,
    marks: &[bool],
    number: usize,
    port: &'k PlacedPort,
) -> Result<(), AllocError>
    ensures { OnOk result ((c : ℕ) (text : Name) (ports : List PortAt) → is_marked marks.now c ≡ true → length ports ≡ number → lookup (pair_eq (c, text)) pairs.old.items ≡ position (wires.names_inside c text.now) ports → lookup (pair_eq (c, text)) pairs.new.items ≡ position (wires.names_inside c text.now) (ports ++ port_at port.now ∷ [])) }
{
    if is_marked(marks, port.entity) {
        pairs.push(((port.entity, port.port.name), number))?;
    }
    Ok(())
}

/// The numbers of ports by their names within marked entities.
fn marked_places<'k>(
    alloc: Global,
    ports: &'k [PlacedPort],
    marks: &[bool],
) -> Result<Places<(usize, &'k str)>, AllocError>
    ensures { IfOk result (λ places. (c : ℕ) (text : Bor (List ℕ)) → is_marked marks.now c ≡ true → get pair_eq places.numbers (c, text) ≡ position (wires.names_inside c text.now) (ports_view ports.now)) }
{
    let mut pairs = Vec::new(alloc);
    for (number, port) in ports.iter().enumerate() {
        add_inside(&mut pairs, marks, number, port)?;
    }
    first_numbers(alloc, &pairs)
}

/// The numbers of ports by their names within entities that have links. No link names another port from inside.
fn inside_places<'k>(
    alloc: Global,
    tables: &'k Tables,
) -> Result<Places<(usize, &'k str)>, AllocError>
    ensures { IfOk result (λ places. (c : ℕ) (text : Bor (List ℕ)) → HasLinks (tables_view tables.now).links c → get pair_eq places.numbers (c, text) ≡ position (wires.names_inside c text.now) (tables_view tables.now).ports) }
{
    let marks = marks_of(alloc, tables.entities.len(), &tables.links)?;
    let places = marked_places(alloc, &tables.ports, &marks)?;
    Ok(places)
}

fn outside_places<'k>(
    alloc: Global,
    ports: &[PlacedPort],
    texts: &'k [Text],
) -> Result<Places<(Option<usize>, &'k str)>, AllocError>
    requires texts { texts.now ≡ map outside_text (ports_view ports.now) }
    ensures { IfOk result (λ places. (c : ℕ) (text : Bor (List ℕ)) → get child_eq places.numbers (Some c, text) ≡ position (wires.names_outside c text.now) (ports_view ports.now)) }
{
    let mut keys = Vec::with_capacity(alloc, ports.len())?;
    for (number, port) in ports.iter().enumerate() {
        keys.push((port.placed.round.outer, texts[number].as_str()))?;
    }
    first_places(alloc, &keys)
}

fn relation_places<'k>(
    alloc: Global,
    relations: &'k [PlacedRelation],
) -> Result<Places<(usize, &'k str)>, AllocError>
    ensures { IfOk result (λ places. (c : ℕ) (text : Bor (List ℕ)) → get pair_eq places.numbers (c, text) ≡ position (wires.names_relation c text.now) (relations_view relations.now)) }
{
    let mut keys = Vec::with_capacity(alloc, relations.len())?;
    for relation in relations {
        keys.push((relation.composite, relation.name))?;
    }
    first_places(alloc, &keys)
}

impl<'k, 't, 'a> Names<'k, 't, 'a> {
    /// The names of these tables, whose ports have these texts from outside.
    fn of(
        alloc: Global,
        tables: &'k Tables<'t, 'a>,
        texts: &'k [Text],
    ) -> Result<Names<'k, 't, 'a>, AllocError>
        requires texts { texts.now ≡ map outside_text (tables_view tables.now).ports }
        ensures tables { IfOk result (λ names. names.tables.now ≡ tables.now) }
        ensures names { IfOk result IsNames }
    {
        let inside = inside_places(alloc, tables)?;
        let outside = match outside_places(alloc, &tables.ports, texts) {
            Ok(outside) => outside,
            Err(fault) => {
                drop(inside);
                return Err(fault);
            }
        };
        match relation_places(alloc, &tables.relations) {
            Ok(relations) => Ok(Names {
                tables,
                inside,
                outside,
                relations,
            }),
            Err(fault) => {
                drop(inside);
                drop(outside);
                Err(fault)
            }
        }
    }

    fn port_inside(&self, composite: usize, text: &str) -> Option<usize>
        requires names { IsNames self.now }
        requires linked { HasLinks (tables_view self.now.tables.now).links composite }
        ensures { result ≡ position (wires.names_inside composite text.now) (tables_view self.now.tables.now).ports }
    {
        self.inside.get(&(composite, text))
    }

    fn port_outside(&self, composite: usize, text: &str) -> Option<usize>
        requires { IsNames self.now }
        ensures { result ≡ position (wires.names_outside composite text.now) (tables_view self.now.tables.now).ports }
    {
        self.outside.get(&(Some(composite), text))
    }

    fn relation(&self, composite: usize, text: &str) -> Option<usize>
        requires { IsNames self.now }
        ensures { result ≡ wires.relation_named (tables_view self.now.tables.now).ports (tables_view self.now.tables.now).relations composite text.now }
    {
        self.relations.get(&(composite, text))
    }

    /// What a link joins, or `None` where it names no port or no relation.
    fn wire(&self, link: &PlacedLink) -> Option<Wire>
        requires names { IsNames self.now }
        requires link { Contains (tables_view self.now.tables.now).links (link_at link.now) }
        ensures { result ≡ wires.wire_of (tables_view self.now.tables.now).ports (tables_view self.now.tables.now).relations (link_at link.now) }
    {
        let composite = link.composite;
        match link.link {
            Link::Port { port, relation } => {
                let inside = self.port_inside(composite, port.as_str());
                let outside = self.port_outside(composite, port.as_str());
                let relation = self.relation(composite, relation.as_str())?;
                match (inside, outside) {
                    (Some(port), _) => Some(Wire::Inside { port, relation }),
                    (None, Some(port)) => Some(Wire::Outside { port, relation }),
                    (None, None) => None,
                }
            }
            Link::Relations { first, second } => Some(Wire::Bond {
                first: self.relation(composite, first.as_str())?,
                second: self.relation(composite, second.as_str())?,
            }),
        }
    }

    /// What the links join, in the order of the document. Refuses the first link that names no port or no relation.
    fn wires(&self, alloc: Global) -> Result<Vec<Wire>, DocFault>
        requires { IsNames self.now }
        ensures ok { IfOk result (λ joined. map (wires.wire_of (tables_view self.now.tables.now).ports (tables_view self.now.tables.now).relations) (tables_view self.now.tables.now).links ≡ map Some joined.items) }
        ensures told { IfErr result (IsTold code.Link (IsLinkFault (tables_view self.now.tables.now))) }
    {
        let mut joined = Vec::with_capacity(alloc, self.tables.links.len())?;
        for link in &self.tables.links {
            match self.wire(link) {
                Some(wire) => joined.push(wire)?,
                None => return Err(refused_link(alloc, link)),
            }
        }
        Ok(joined)
    }
}

/// What the links of these tables join, whose ports have these texts from outside.
fn wires_among(alloc: Global, tables: &Tables, texts: &[Text]) -> Result<Vec<Wire>, DocFault>
    requires texts { texts.now ≡ map outside_text (tables_view tables.now).ports }
    ensures ok { IfOk result (λ joined. map (wires.wire_of (tables_view tables.now).ports (tables_view tables.now).relations) (tables_view tables.now).links ≡ map Some joined.items) }
    ensures told { IfErr result (IsTold code.Link (IsLinkFault (tables_view tables.now))) }
{
    let names = Names::of(alloc, tables, texts)?;
    let joined = names.wires(alloc);
    drop(names);
    joined
}

/// What the links of these tables join, in the order of the document. Refuses a link that names no port or no relation.
pub fn wires_of(alloc: Global, tables: &Tables) -> Result<Vec<Wire>, DocFault>
    ensures ok { IfOk result (λ joined. map (wires.wire_of (tables_view tables.now).ports (tables_view tables.now).relations) (tables_view tables.now).links ≡ map Some joined.items) }
    ensures told { IfErr result (IsTold code.Link (IsLinkFault (tables_view tables.now))) }
{
    let texts = outside_texts(alloc, &tables.ports)?;
    let joined = wires_among(alloc, tables, &texts);
    drop(texts);
    joined
}
