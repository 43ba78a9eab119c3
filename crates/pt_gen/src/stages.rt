// The stages of a generated model.
ghost use Rattle.std.specs.Prelude.{◌≡◌, ◌≤◌, ◌++◌, [], ◌∷◌, map, codes, IfOk, OnOk};
ghost use Rattle.pt_document.specs.View.{port_view, entity_view, entities_view};
ghost use Rattle.pt_gen.specs.Generated as generated;

use crate::actors::scale;
use crate::parts::{Inside, empty_composite, filled, numbered, port};
use pt_document::{Direction, Entity, Link, Port, Relation};
use pt_value::Text;
use std::alloc::{AllocError, Global};

fn stage_ports(alloc: Global) -> Result<Vec<Port>, AllocError>
    ensures { IfOk result (λ ps. map port_view ps.items ≡ generated.stage_ports) }
{
    let input = port(alloc, "input", Direction::Input)?;
    let output = port(alloc, "output", Direction::Output)?;
    Ok(vec![in alloc; input, output]?)
}

fn relation(alloc: Global, name: &str) -> Result<Relation, AllocError>
    ensures { IfOk result (λ r. r.name ≡ name.now) }
{
    Ok(Relation {
        name: Text::of(alloc, name)?,
    })
}

fn stage_relations(alloc: Global) -> Result<Vec<Relation>, AllocError>
    ensures { IfOk result (λ rs. rs.items ≡ generated.stage_relations) }
{
    let first = relation(alloc, "a")?;
    let second = relation(alloc, "b")?;
    Ok(vec![in alloc; first, second]?)
}

fn link(alloc: Global, port: &str, relation: &str) -> Result<Link, AllocError>
    ensures { IfOk result (λ l. l ≡ Link.Port port.now relation.now) }
{
    let port = Text::of(alloc, port)?;
    let relation = Text::of(alloc, relation)?;
    Ok(Link::Port { port, relation })
}

/// The links of two ports to one relation.
fn add_joint(
    alloc: Global,
    links: &mut Vec<Link>,
    from: &str,
    to: &str,
    relation: &str,
) -> Result<(), AllocError>
    ensures { OnOk result (links.new.items
        ≡ links.old.items ++ Link.Port from.now relation.now ∷ Link.Port to.now relation.now ∷ []) }
{
    links.push(link(alloc, from, relation)?)?;
    links.push(link(alloc, to, relation)?)?;
    Ok(())
}

fn stage_links(alloc: Global) -> Result<Vec<Link>, AllocError>
    ensures { IfOk result (λ ls. ls.items ≡ generated.stage_links) }
{
    let mut links = Vec::new(alloc);
    add_joint(alloc, &mut links, "input", "k.input", "a")?;
    add_joint(alloc, &mut links, "k.output", "output", "b")?;
    Ok(links)
}

/// What is in a composite stage.
fn stage_inside(alloc: Global, i: u32) -> Result<Inside, AllocError>
    ensures entities { IfOk result (λ s. entities_view s.entities.items ≡ generated.scale (codes "k") i ∷ []) }
    ensures relations { IfOk result (λ s. s.relations.items ≡ generated.stage_relations) }
    ensures links { IfOk result (λ s. s.links.items ≡ generated.stage_links) }
{
    let relations = stage_relations(alloc)?;
    let links = stage_links(alloc)?;
    let name = Text::of(alloc, "k")?;
    let scale = scale(alloc, name, i)?;
    let entities = vec![in alloc; scale]?;
    Ok(Inside {
        entities,
        relations,
        links,
    })
}

/// A stage that is an SDF composite around its scale.
fn composite_stage(alloc: Global, i: u32) -> Result<Entity, AllocError>
    ensures { IfOk result (λ e. entity_view e ≡ generated.composite_stage i) }
{
    let name = numbered(alloc, "s", i)?;
    let ports = stage_ports(alloc)?;
    let empty = empty_composite(alloc, name, "SDF", ports)?;
    match stage_inside(alloc, i) {
        Ok(inside) => Ok(filled(empty, inside)),
        Err(fault) => {
            drop(empty);
            Err(fault)
        }
    }
}

/// Stage `i`.
fn stage(alloc: Global, i: u32) -> Result<Entity, AllocError>
    ensures { IfOk result (λ e. entity_view e ≡ generated.stage i) }
{
    if i % 10 == 0 {
        composite_stage(alloc, i)
    } else {
        let name = numbered(alloc, "s", i)?;
        scale(alloc, name, i)
    }
}

/// Adds stages 1 to `n`.
pub fn add_stages(alloc: Global, entities: &mut Vec<Entity>, n: u32) -> Result<(), AllocError>
    requires { n ≤ 9000 }
    ensures { OnOk result (entities_view entities.new.items
        ≡ entities_view entities.old.items ++ generated.stages n) }
{
    for i in 0..n {
        entities.push(stage(alloc, i + 1)?)?;
    }
    Ok(())
}
