ghost use Rattle.pt_document.specs.Names.{below};
ghost use Rattle.pt_document.specs.Outcome.{IsRefusal};
ghost use Rattle.pt_document.specs.declared.code.Code.TheVariants as code;
ghost use Rattle.pt_net.specs.Table as table;
ghost use Rattle.pt_survey.specs.Survey.{port_at, relation_at, link_at, placed_view};

use pt_document::{Code, DocFault, Link, Refusal};
use pt_net::shown;
use pt_survey::{Placed, PlacedLink, PlacedPort, PlacedRelation, path_below};
use pt_value::Text;
use std::alloc::Global;

/// A refusal for this cause at this path.
pub fn refused_at(alloc: Global, code: Code, path: &str) -> DocFault
    ensures { IsRefusal result code path.now }
{
    match Text::of(alloc, path) {
        Ok(path) => DocFault::Refused(Refusal { code, path }),
        Err(_) => DocFault::Memory,
    }
}

/// A refusal for this cause at what has this name in the entity of that path.
fn refused_below(alloc: Global, code: Code, path: &str, name: &str) -> DocFault
    ensures { IsRefusal result code (below path.now name.now) }
{
    match path_below(alloc, path, name) {
        Ok(path) => DocFault::Refused(Refusal { code, path }),
        Err(_) => DocFault::Memory,
    }
}

/// A refusal of a port.
pub fn refused_port(alloc: Global, port: &PlacedPort) -> DocFault
    ensures { IsRefusal result code.Link (table.port_path (port_at port.now)) }
{
    refused_below(alloc, Code::Link, port.placed.path.as_str(), port.port.name)
}

/// A refusal of an entity.
pub fn refused_entity(alloc: Global, entity: &Placed) -> DocFault
    ensures { IsRefusal result code.Link (placed_view entity.now).path }
{
    refused_at(alloc, Code::Link, entity.path.as_str())
}

/// A refusal of a relation.
pub fn refused_relation(alloc: Global, relation: &PlacedRelation) -> DocFault
    ensures { IsRefusal result code.TwoSources (table.relation_path (relation_at relation.now)) }
{
    refused_below(
        alloc,
        Code::TwoSources,
        relation.placed.path.as_str(),
        relation.name,
    )
}

/// A refusal of a link.
pub fn refused_link(alloc: Global, link: &PlacedLink) -> DocFault
    ensures { IsRefusal result code.Link (table.link_path (link_at link.now)) }
{
    let text = match link.link {
        Link::Port { port, relation: _ } => port.as_str(),
        Link::Relations { first, second: _ } => first.as_str(),
    };
    refused_below(alloc, Code::Link, link.placed.path.as_str(), shown(text))
}
