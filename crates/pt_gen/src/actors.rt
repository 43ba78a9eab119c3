// The library actors of a generated model.
ghost use Rattle.std.specs.Prelude.{◌≡◌, IfOk};
ghost use Rattle.pt_document.specs.View.{entity_view};
ghost use Rattle.pt_gen.specs.Generated as generated;

use crate::parts::{actor, parameter};
use pt_document::Entity;
use pt_value::Text;
use std::alloc::{AllocError, Global};

/// The ramp, which gives 0 to 99.
pub fn source(alloc: Global) -> Result<Entity, AllocError>
    ensures { IfOk result (λ e. entity_view e ≡ generated.source) }
{
    let name = Text::of(alloc, "src")?;
    let limit = parameter(alloc, "firingCountLimit", "100")?;
    let parameters = vec![in alloc; limit]?;
    actor(alloc, name, "Ramp", parameters)
}

/// The actor that takes what comes.
pub fn sink(alloc: Global) -> Result<Entity, AllocError>
    ensures { IfOk result (λ e. entity_view e ≡ generated.sink) }
{
    let name = Text::of(alloc, "sink")?;
    actor(alloc, name, "Discard", Vec::new(alloc))
}

fn factor(i: u32) -> &'static str
    ensures { result.now ≡ generated.factor i }
{
    if i % 3 == 0 { "-1" } else { "1" }
}

/// The scale of stage `i`, under this name.
pub fn scale(alloc: Global, name: Text, i: u32) -> Result<Entity, AllocError>
    ensures { IfOk result (λ e. entity_view e ≡ generated.scale name i) }
{
    let factor = parameter(alloc, "factor", factor(i))?;
    let parameters = vec![in alloc; factor]?;
    actor(alloc, name, "Scale", parameters)
}
