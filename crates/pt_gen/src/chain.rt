// The relations and links that join the stages in a chain.
ghost use Rattle.std.specs.Prelude.{◌≡◌, ◌≤◌, ◌++◌, IfOk, OnOk};
ghost use Rattle.pt_gen.specs.Generated as generated;

use crate::parts::numbered;
use pt_document::{Link, Relation};
use pt_value::Text;
use std::alloc::{AllocError, Global};

/// The port of stage `i` of this name, as a link names it.
pub fn stage_port(alloc: Global, i: u32, port: &str) -> Result<Text, AllocError>
    ensures { IfOk result (λ t. t ≡ generated.port_of (generated.stage_name i) port.now) }
{
    let name = numbered(alloc, "s", i)?;
    Text::joined(alloc, name.as_str(), port)
}

/// The port at which relation `i` begins.
fn begin(alloc: Global, i: u32) -> Result<Text, AllocError>
    ensures { IfOk result (λ t. t ≡ generated.begin i) }
{
    if i == 0 {
        Text::of(alloc, "src.output")
    } else {
        stage_port(alloc, i, "output")
    }
}

/// The port at which relation `i` of a chain of `n` stages ends.
fn end(alloc: Global, n: u32, i: u32) -> Result<Text, AllocError>
    requires { i ≤ 9000 }
    ensures { IfOk result (λ t. t ≡ generated.end n i) }
{
    if i == n {
        Text::of(alloc, "sink.input")
    } else {
        stage_port(alloc, i + 1, "input")
    }
}

/// The link of a port to relation `i`.
fn link(alloc: Global, port: Text, i: u32) -> Result<Link, AllocError>
    ensures { IfOk result (λ l. l ≡ Link.Port port (generated.relation_name i)) }
{
    let relation = numbered(alloc, "r", i)?;
    Ok(Link::Port { port, relation })
}

/// Adds the two links of relation `i`.
fn add_joint(alloc: Global, links: &mut Vec<Link>, n: u32, i: u32) -> Result<(), AllocError>
    requires { i ≤ 9000 }
    ensures { OnOk result (links.new.items ≡ links.old.items ++ generated.joint n i) }
{
    let begin = begin(alloc, i)?;
    links.push(link(alloc, begin, i)?)?;
    let end = end(alloc, n, i)?;
    links.push(link(alloc, end, i)?)?;
    Ok(())
}

/// The links of relations 0 to `n`.
pub fn links(alloc: Global, n: u32) -> Result<Vec<Link>, AllocError>
    requires { n ≤ 9000 }
    ensures { IfOk result (λ ls. ls.items ≡ generated.links n) }
{
    let mut links = Vec::new(alloc);
    for i in 0..n + 1 {
        add_joint(alloc, &mut links, n, i)?;
    }
    Ok(links)
}

/// Relations 0 to `n`.
pub fn relations(alloc: Global, n: u32) -> Result<Vec<Relation>, AllocError>
    requires { n ≤ 9000 }
    ensures { IfOk result (λ rs. rs.items ≡ generated.relations n) }
{
    let mut relations = Vec::new(alloc);
    for i in 0..n + 1 {
        let name = numbered(alloc, "r", i)?;
        relations.push(Relation { name })?;
    }
    Ok(relations)
}
