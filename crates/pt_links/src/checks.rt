ghost use Rattle.std.specs.Prelude.{◌≡◌, ℕ, ◌+◌, ◌<◌, length, Some, slice_get, IfOk, IfErr, OnOk};
ghost use Rattle.pt_document.specs.declared.code.Code.TheVariants as code;
ghost use Rattle.pt_net.specs.Table.{PortAt};
ghost use Rattle.pt_survey.specs.Survey.{tables_view, placed_view, port_at};
ghost use Rattle.pt_net.specs.Stands as stands;
ghost use Rattle.pt_net.specs.Stands.{IsTold, IsLinkFault};
ghost use Rattle.pt_net.specs.Net as net;
ghost use Rattle.pt_links.specs.Wiring as spec;
ghost use Rattle.pt_links.specs.Wiring.{IsWiring, IsFine, AreFine, AreCounts, HaveChannels};

use crate::refusal::{refused_entity, refused_port};
use crate::wiring::Wiring;
use pt_document::{DocFault, Kind, kind_named};
use pt_survey::{Placed, PlacedPort};
use std::alloc::{AllocError, Global};

/// Whether a port with so many links outside and inside lacks one.
fn lacks_link(port: &PlacedPort, outside: usize, inside: usize) -> bool
    ensures { result ≡ spec.lacks_link (port_at port.now) outside inside }
{
    (port.needs_link() && outside == 0) || (port.needs_link_inside() && inside == 0)
}

/// Whether a port with so many links outside and inside lacks one, or has too many.
fn is_amiss(port: &PlacedPort, outside: usize, inside: usize) -> bool
    ensures { result ≡ spec.is_amiss (port_at port.now) outside inside }
{
    (port.is_single() && 1 < outside) || 1 < inside || lacks_link(port, outside, inside)
}

/// Whether a multiport with so many links has too few.
fn lacks_channel(port: &PlacedPort, outside: usize) -> bool
    ensures { result ≡ spec.lacks_channel (port_at port.now) outside }
{
    port.is_input() && port.is_many() && outside == 0
}

/// Refuses a port that lacks a link, or that has more links than it may have.
fn check_port(alloc: Global, wiring: &Wiring, number: usize) -> Result<(), DocFault>
    requires wiring { IsWiring wiring.now }
    requires number { number < length (tables_view wiring.now.tables.now).ports }
    ensures ok { OnOk result ((p : PortAt) → slice_get (tables_view wiring.now.tables.now).ports number ≡ Some p → IsFine (tables_view wiring.now.tables.now) number p) }
    ensures told { IfErr result (IsTold code.Link (IsLinkFault (tables_view wiring.now.tables.now))) }
{
    let port = &wiring.tables.ports[number];
    let outside = wiring.outside(number).len();
    let inside = wiring.inside(number).len();
    if is_amiss(port, outside, inside) {
        return Err(refused_port(alloc, port));
    }
    if lacks_channel(port, outside) {
        return Err(refused_entity(alloc, port.placed));
    }
    Ok(())
}

/// Refuses a port that lacks a link, or that has more links than it may have.
pub fn check_ports(alloc: Global, wiring: &Wiring) -> Result<(), DocFault>
    requires wiring { IsWiring wiring.now }
    ensures ok { OnOk result (AreFine (tables_view wiring.now.tables.now)) }
    ensures told { IfErr result (IsTold code.Link (IsLinkFault (tables_view wiring.now.tables.now))) }
{
    for number in 0..wiring.tables.ports.len() {
        check_port(alloc, wiring, number)?;
    }
    Ok(())
}

/// The channels to an input of this number, or none.
fn input_channels(wiring: &Wiring, number: usize, port: &PlacedPort) -> usize
    requires wiring { IsWiring wiring.now }
    requires number { number < length (tables_view wiring.now.tables.now).ports }
    ensures { result ≡ stands.input_channels (net.wires (tables_view wiring.now.tables.now)) (number, port_at port.now) }
{
    if port.is_input() {
        wiring.outside(number).len()
    } else {
        0
    }
}

/// Counts the channels to one more port.
fn count_port(counts: &mut Vec<usize>, wiring: &Wiring, number: usize)
    requires wiring { IsWiring wiring.now }
    requires number { number < length (tables_view wiring.now.tables.now).ports }
    requires counts { AreCounts (tables_view wiring.now.tables.now) number counts.old.items }
    ensures { AreCounts (tables_view wiring.now.tables.now) (number + 1) counts.new.items }
{
    let port = &wiring.tables.ports[number];
    let channels = input_channels(wiring, number, port);
    counts[port.entity] = counts[port.entity].saturating_add(channels);
}

/// The channels to the inputs of each entity.
fn channel_counts(alloc: Global, wiring: &Wiring) -> Result<Vec<usize>, AllocError>
    requires { IsWiring wiring.now }
    ensures { IfOk result (λ counts. AreCounts (tables_view wiring.now.tables.now) (length (tables_view wiring.now.tables.now).ports) counts.items) }
{
    let mut counts = vec![in alloc; 0usize; wiring.tables.entities.len()]?;
    for number in 0..wiring.tables.ports.len() {
        count_port(&mut counts, wiring, number);
    }
    Ok(counts)
}

/// The least number of channels to the inputs of an entity together.
fn least_channels(placed: &Placed) -> usize
    ensures value { result ≡ stands.least_channels (placed_view placed.now) }
    ensures small { result < 256 }
{
    match kind_named(placed.entity.class.as_str()) {
        Some(Kind::Actor(class)) => usize::from(class.least_channels),
        Some(Kind::Composite) | Some(Kind::Modal) | None => 0,
    }
}

/// Refuses an actor that has fewer channels than its class says.
pub fn check_counts(alloc: Global, wiring: &Wiring) -> Result<(), DocFault>
    requires { IsWiring wiring.now }
    ensures ok { OnOk result (HaveChannels (tables_view wiring.now.tables.now)) }
    ensures told { IfErr result (IsTold code.Link (IsLinkFault (tables_view wiring.now.tables.now))) }
{
    let counts = channel_counts(alloc, wiring)?;
    for (number, placed) in wiring.tables.entities.iter().enumerate() {
        if counts[number] < least_channels(placed) {
            return Err(refused_entity(alloc, placed));
        }
    }
    Ok(())
}
