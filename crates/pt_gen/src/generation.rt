ghost use Rattle.std.specs.Prelude.{◌≡◌, ◌≤◌, ◌∷◌, [], ◌++◌, IfOk};
ghost use Rattle.pt_document.specs.View.{entity_view, entities_view, job_view};
ghost use Rattle.pt_gen.specs.Generated as generated;

use crate::actors::{sink, source};
use crate::chain::{links, relations, stage_port};
use crate::parts::{Inside, empty_composite, filled};
use crate::stages::add_stages;
use pt_document::{Entity, Job};
use pt_value::Text;
use std::alloc::{AllocError, Global};

/// The source, the stages and the sink.
fn actors(alloc: Global, n: u32) -> Result<Vec<Entity>, AllocError>
    requires { n ≤ 9000 }
    ensures { IfOk result (λ es. entities_view es.items
        ≡ generated.source ∷ (generated.stages n ++ generated.sink ∷ [])) }
{
    let mut entities = Vec::new(alloc);
    entities.push(source(alloc)?)?;
    add_stages(alloc, &mut entities, n)?;
    entities.push(sink(alloc)?)?;
    Ok(entities)
}

/// What is in the top.
fn inside(alloc: Global, n: u32) -> Result<Inside, AllocError>
    requires { n ≤ 9000 }
    ensures entities { IfOk result (λ s. entities_view s.entities.items
        ≡ generated.source ∷ (generated.stages n ++ generated.sink ∷ [])) }
    ensures relations { IfOk result (λ s. s.relations.items ≡ generated.relations n) }
    ensures links { IfOk result (λ s. s.links.items ≡ generated.links n) }
{
    let relations = relations(alloc, n)?;
    let links = links(alloc, n)?;
    let entities = actors(alloc, n)?;
    Ok(Inside {
        entities,
        relations,
        links,
    })
}

/// The top, a process network.
fn top(alloc: Global, n: u32) -> Result<Entity, AllocError>
    requires { n ≤ 9000 }
    ensures { IfOk result (λ e. entity_view e ≡ generated.top n) }
{
    let name = Text::of(alloc, "gen")?;
    let empty = empty_composite(alloc, name, "PN", Vec::new(alloc))?;
    match inside(alloc, n) {
        Ok(inside) => Ok(filled(empty, inside)),
        Err(fault) => {
            drop(empty);
            Err(fault)
        }
    }
}

/// The generated job of `n`: a process network in which a ramp gives 100 integers, `n` stages in a chain scale them,
/// and a sink takes them. Each tenth stage is an SDF composite around its scale.
pub fn job(alloc: Global, n: u32) -> Result<Job, AllocError>
    requires positive { 1 ≤ n }
    requires within { n ≤ 9000 }
    ensures { IfOk result (λ j. job_view j ≡ generated.generated n) }
{
    let record = stage_port(alloc, n, "output")?;
    let records = vec![in alloc; record]?;
    match top(alloc, n) {
        Ok(model) => Ok(Job {
            model,
            inputs: Vec::new(alloc),
            records,
        }),
        Err(fault) => {
            drop(records);
            Err(fault)
        }
    }
}
