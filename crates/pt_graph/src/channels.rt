ghost use Rattle.std.specs.Prelude.{◌≡◌, ◌≢◌, ℕ, ◌<◌, ◌≤◌, ◌++◌, [], ◌∷◌, length, Some, IsTrue, not, ◌↔◌, IfOk, IfErr, OnOk, slice_get};
ghost use Rattle.std.specs.List.{Contains, AllZip};
ghost use Rattle.pt_document.specs.declared.code.Code.TheVariants as code;
ghost use Rattle.pt_document.specs.declared.refusal.DocFault.TheVariants.{Memory};
ghost use Rattle.pt_net.specs.Standing.{is_opaque, is_kept};
ghost use Rattle.pt_survey.specs.Survey.{tables_view, port_at};
ghost use Rattle.pt_net.specs.Wires as wires;
ghost use Rattle.pt_net.specs.Net as net;
ghost use Rattle.pt_net.specs.Stands.{IsTold, IsLinkFault, most_channels};
ghost use Rattle.pt_graph.specs.Origins.{AreTrue};
ghost use Rattle.pt_graph.specs.ChannelTable.{IsGoodChannel, Adds, IsPlaceAt, AddsAt, places_on, side_among};

use crate::origins::Origins;
use pt_document::DocFault;
use pt_links::refused_port;
use pt_net::{Channel, End};
use pt_survey::{PlacedPort, number};
use std::alloc::Global;

fn end(entity: usize, port: usize, index: usize) -> Result<End, DocFault>
    ensures ok { IfOk result (λ end. end ≡ record { entity = entity; port = port; index = index }) }
    ensures err { IfErr result (λ e. e ≡ Memory) }
{
    Ok(End {
        entity: number(entity)?,
        port: number(port)?,
        index: number(index)?,
    })
}

fn end_at(port: &PlacedPort, index: usize) -> Result<End, DocFault>
    ensures ok { IfOk result (λ end. end ≡ net.end_at (port_at port.now) index) }
    ensures err { IfErr result (λ e. e ≡ Memory) }
{
    end(port.placed.number, port.number, index)
}

/// The composite of a channel to this port.
fn composite_of(port: &PlacedPort) -> usize
    ensures { result ≡ net.composite_of (port_at port.now) }
{
    if port.is_input() {
        port.placed.round.parent.unwrap_or(0)
    } else {
        port.placed.number
    }
}

fn channel(from: &PlacedPort, to: &PlacedPort, index: usize) -> Result<Channel, DocFault>
    ensures ok { IfOk result (λ channel. (g r : ℕ) → channel ≡ net.channel (port_at from.now) (record { port = g; at = port_at to.now; index = index; relation = r })) }
    ensures err { IfErr result (λ e. e ≡ Memory) }
{
    Ok(Channel {
        composite: number(composite_of(to))?,
        from: end_at(from, 0)?,
        to: end_at(to, index)?,
    })
}

/// Whether an own input reaches an own output of the same opaque composite.
fn is_passed_on(from: &PlacedPort, to: &PlacedPort) -> bool
    ensures { IsTrue result ↔ (IsTrue (is_opaque (port_at to.now).standing) × IsTrue (not (wires.is_input (port_at to.now))) × IsTrue (wires.is_input (port_at from.now)) × (from.now.entity ≡ to.now.entity)) }
{
    to.is_opaque() && !to.is_input() && from.is_input() && from.entity == to.entity
}

/// Adds the channel to a place: the link of this index at the port of this number. Refuses a place without a source, and
/// an own output of an opaque composite that an own input reaches.
fn add_channel(
    alloc: Global,
    origins: &Origins,
    channels: &mut Vec<Channel>,
    number: usize,
    index: usize,
    relation: usize,
) -> Result<(), DocFault>
    requires origins { AreTrue origins.now }
    requires relation { relation < length (tables_view origins.now.wiring.now.tables.now).relations }
    requires number { number < length (tables_view origins.now.wiring.now.tables.now).ports }
    requires place { IsPlaceAt (tables_view origins.now.wiring.now.tables.now) number index relation }
    ensures ok { OnOk result (AddsAt (tables_view origins.now.wiring.now.tables.now) number index relation channels.old.items channels.new.items) }
    ensures told { IfErr result (IsTold code.Link (IsLinkFault (tables_view origins.now.wiring.now.tables.now))) }
{
    let port = &origins.wiring.tables.ports[number];
    let source = match origins.source(relation) {
        Some(source) => source,
        None => return Err(refused_port(alloc, port)),
    };
    let from = &origins.wiring.tables.ports[source];
    if is_passed_on(from, port) {
        return Err(refused_port(alloc, port));
    }
    channels.push(channel(from, port, index)?)?;
    Ok(())
}

/// Adds the channels to the places of a port that stays in the net.
fn add_places(
    alloc: Global,
    origins: &Origins,
    channels: &mut Vec<Channel>,
    number: usize,
    port: &PlacedPort,
) -> Result<(), DocFault>
    requires origins { AreTrue origins.now }
    requires number { slice_get (tables_view origins.now.wiring.now.tables.now).ports number ≡ Some (port_at port.now) }
    requires kept { IsTrue (is_kept (port_at port.now).standing) }
    ensures ok { OnOk result (Adds (tables_view origins.now.wiring.now.tables.now) (wires.places_along number (port_at port.now) 0 (wires.taken_from (net.wires (tables_view origins.now.wiring.now.tables.now)) number (port_at port.now))) channels.old.items channels.new.items) }
    ensures told { IfErr result (IsTold code.Link (IsLinkFault (tables_view origins.now.wiring.now.tables.now))) }
{
    let relations = origins.wiring.taken(number, port);
    for (index, relation) in relations.iter().enumerate() {
        add_channel(alloc, origins, channels, number, index, *relation)?;
    }
    Ok(())
}

/// Adds the channels to a port, if it is an input, or if it is an output.
fn add_port(
    alloc: Global,
    origins: &Origins,
    channels: &mut Vec<Channel>,
    inputs: bool,
    number: usize,
    port: &PlacedPort,
) -> Result<(), DocFault>
    requires origins { AreTrue origins.now }
    requires number { slice_get (tables_view origins.now.wiring.now.tables.now).ports number ≡ Some (port_at port.now) }
    ensures ok { OnOk result (Adds (tables_view origins.now.wiring.now.tables.now) (places_on (net.wires (tables_view origins.now.wiring.now.tables.now)) inputs (number, port_at port.now)) channels.old.items channels.new.items) }
    ensures told { IfErr result (IsTold code.Link (IsLinkFault (tables_view origins.now.wiring.now.tables.now))) }
{
    if port.is_input() == inputs && port.is_kept() {
        add_places(alloc, origins, channels, number, port)
    } else {
        Ok(())
    }
}

/// Adds the channels to all inputs, or to all outputs.
fn add_side(
    alloc: Global,
    origins: &Origins,
    channels: &mut Vec<Channel>,
    inputs: bool,
) -> Result<(), DocFault>
    requires origins { AreTrue origins.now }
    ensures ok { OnOk result (Adds (tables_view origins.now.wiring.now.tables.now) (side_among (net.wires (tables_view origins.now.wiring.now.tables.now)) inputs (tables_view origins.now.wiring.now.tables.now).ports) channels.old.items channels.new.items) }
    ensures told { IfErr result (IsTold code.Link (IsLinkFault (tables_view origins.now.wiring.now.tables.now))) }
{
    for (number, port) in origins.wiring.tables.ports.iter().enumerate() {
        add_port(alloc, origins, channels, inputs, number, port)?;
    }
    Ok(())
}

/// The channels, in the order of their places. Refuses a place without a source, and an own output of an opaque composite
/// that an own input reaches.
pub fn channels_of(alloc: Global, origins: &Origins) -> Result<Vec<Channel>, DocFault>
    requires { AreTrue origins.now }
    ensures ok { IfOk result (λ channels. AllZip (IsGoodChannel (tables_view origins.now.wiring.now.tables.now)) (net.all_places (tables_view origins.now.wiring.now.tables.now)) channels.items) }
    ensures told { IfErr result (IsTold code.Link (IsLinkFault (tables_view origins.now.wiring.now.tables.now))) }
{
    let mut channels = Vec::new(alloc);
    add_side(alloc, origins, &mut channels, true)?;
    add_side(alloc, origins, &mut channels, false)?;
    Ok(channels)
}
