ghost use Rattle.std.specs.Prelude.{◌≡◌, IfOk, map, count_by};
ghost use Rattle.pt_core.specs.Source.{source_of};
ghost use Rattle.pt_wiring.specs.Channels.{source_view};
ghost use Rattle.pt_net.specs.Inside.{is_input, is_output};

use pt_document::{Direction, Port};
use pt_wiring::Source;
use std::alloc::{AllocError, Global};

/// A number as a director has it. One that is greater names what no memory holds.
fn narrow(number: usize) -> Result<u32, AllocError>
    ensures { IfOk result (λ narrowed. narrowed ≡ number) }
{
    match u32::try_from(number) {
        Ok(narrowed) => Ok(narrowed),
        Err(_) => Err(AllocError),
    }
}

/// A source as a director has it.
fn narrow_source(source: Source) -> Result<pt_core::Source, AllocError>
    ensures { IfOk result (λ narrowed. source_of narrowed ≡ source_view source) }
{
    Ok(match source {
        Source::Own(port) => pt_core::Source::Own(narrow(port)?),
        Source::Output { child, port } => pt_core::Source::Output(narrow(child)?, narrow(port)?),
    })
}

/// Sources as a director has them.
pub fn narrow_sources(alloc: Global, sources: &[Source]) -> Result<Vec<pt_core::Source>, AllocError>
    ensures { IfOk result (λ narrowed. map source_of narrowed.items ≡ map source_view sources.now) }
{
    let mut narrowed = Vec::with_capacity(alloc, sources.len())?;
    for source in sources {
        narrowed.push(narrow_source(*source)?)?;
    }
    Ok(narrowed)
}

fn is_input(port: &Port) -> bool
    ensures { result ≡ is_input port.now }
{
    match port.direction {
        Direction::Input => true,
        Direction::Output => false,
    }
}

/// How many of the ports are inputs.
pub fn inputs_of(ports: &[Port]) -> Result<u32, AllocError>
    ensures { IfOk result (λ count. count ≡ count_by is_input ports.now) }
{
    narrow(ports.iter().filter(|port| is_input(port)).count())
}

/// How many of the ports are outputs.
pub fn outputs_of(ports: &[Port]) -> Result<u32, AllocError>
    ensures { IfOk result (λ count. count ≡ count_by is_output ports.now) }
{
    narrow(ports.iter().filter(|port| !is_input(port)).count())
}
