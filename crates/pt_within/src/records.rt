ghost use Rattle.std.specs.Prelude.{◌≡◌, IfOk, map, slice_get};
ghost use Rattle.pt_wiring.specs.Ports.{ArePortNumbers};
ghost use Rattle.pt_trees.specs.Recorded.{recorded_at, port_in, text_in};

use pt_net::{Net, NetEntity};
use pt_past::{Recorded, Records};
use pt_value::Text;
use pt_wiring::{Numbers, number_at, port_numbers};
use std::alloc::{AllocError, Global};

/// The number that the port has which the net records under this number.
fn port_at(net: &Net, number: usize) -> usize
    ensures { result ≡ port_in (slice_get net.now.recorded.items number) }
{
    match net.recorded.get(number) {
        Some(port) => port.port as usize,
        None => 0,
    }
}

fn text_at(alloc: Global, net: &Net, number: usize) -> Result<Text, AllocError>
    ensures { IfOk result (λ text. text ≡ text_in (slice_get net.now.records.items number)) }
{
    match net.records.get(number) {
        Some(text) => text.copy(alloc),
        None => Text::of(alloc, ""),
    }
}

/// The recorded output of an entity under a number, where its ports have these numbers.
fn recorded_at(
    alloc: Global,
    net: &Net,
    entity: &NetEntity,
    outputs: &Numbers,
    number: usize,
) -> Result<Recorded, AllocError>
    requires { ArePortNumbers entity.now.ports.items outputs.now }
    ensures { IfOk result (λ recorded. recorded ≡ recorded_at net.now entity.now number) }
{
    let port = number_at(outputs.as_slice(), port_at(net, number));
    let text = text_at(alloc, net, number)?;
    Ok(Recorded::new(alloc, port, number, text))
}

/// The recorded outputs of an entity, by their numbers in the report.
pub fn records_of(
    alloc: Global,
    net: &Net,
    entity: &NetEntity,
    numbers: &[usize],
) -> Result<Records, AllocError>
    ensures { IfOk result (λ records. records ≡ map (recorded_at net.now entity.now) numbers.now) }
{
    if numbers.is_empty() {
        return Ok(Records::of(Vec::new(alloc)));
    }
    let outputs = port_numbers(alloc, &entity.ports)?;
    let mut ports = Vec::new(alloc);
    for number in numbers {
        ports.push(recorded_at(alloc, net, entity, &outputs, *number)?)?;
    }
    Ok(Records::of(ports))
}
