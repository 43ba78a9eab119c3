ghost use Rattle.std.specs.Prelude.{◌≡◌, IfOk, Some, map, nat_lt};
ghost use Rattle.std.specs.List.{list_all};
ghost use Rattle.pt_document.specs.View.{port_view};
ghost use Rattle.pt_net.specs.Net.{director_view, entity_view};
ghost use Rattle.pt_scopes.specs.Scopes.{net_view};
ghost use Rattle.pt_stated.specs.Networks as spec;
ghost use Rattle.pt_stated.specs.Networks.{AreStated};

use crate::capacities::{Capacities, capacity};
use crate::rates::rates_along;
use crate::stated::Stated;
use pt_document::{Direction, Port};
use pt_firing::Counts;
use pt_net::{Net, NetDirector, NetEntity};
use pt_scopes::{EntityValues, Values};
use std::alloc::{AllocError, Global};

/// Whether a composite of this director is a process network, whose channels hold tokens.
fn is_network(director: &NetDirector) -> bool
    ensures { result ≡ spec.is_network (director_view director.now) }
{
    director.class.as_str() == "PN"
}

/// Whether its children are processes: those of a network, or those that meet.
fn has_processes(director: &NetDirector) -> bool
    ensures { result ≡ spec.has_processes (director_view director.now) }
{
    is_network(director) || director.class.as_str() == "Rendezvous"
}

/// The capacities of its channels, where it is a process network.
fn capacities_of(director: &NetDirector, values: &EntityValues) -> Option<Capacities>
    ensures { result ≡ spec.capacities_of (director_view director.now) values.now }
{
    if is_network(director) {
        Some(Capacities {
            initial: capacity(director, &values.director, "initialQueueCapacity"),
            maximum: capacity(director, &values.director, "maximumQueueCapacity"),
        })
    } else {
        None
    }
}

/// The numbers of a composite with this director and these ports.
fn numbers_of(
    alloc: Global,
    director: &NetDirector,
    ports: &[Port],
    values: &EntityValues,
) -> Result<Stated, AllocError>
    ensures { IfOk result (λ stated. stated ≡ spec.numbers_of (director_view director.now) (map port_view ports.now) values.now) }
{
    let takes = rates_along(alloc, Direction::Input, ports, &values.rates)?;
    let gives = rates_along(alloc, Direction::Output, ports, &values.rates)?;
    Ok(Stated {
        takes: Counts::of(takes),
        gives: Counts::of(gives),
        capacities: capacities_of(director, values),
    })
}

/// Whether there is room for a token in each channel, and the initial capacity is at most the maximum one.
fn are_lawful(capacities: Option<Capacities>) -> bool
    ensures { result ≡ spec.are_lawful capacities }
{
    match capacities {
        Some(room) => 0 < room.initial && room.initial <= room.maximum,
        None => true,
    }
}

fn are_positive(counts: &Counts) -> bool
    ensures { result ≡ list_all (nat_lt 0) counts.now }
{
    counts.as_slice().iter().all(|count| 0 < *count)
}

/// Whether the capacities are lawful, where there are some, and each rate is 1 or more.
fn is_lawful(stated: &Stated) -> bool
    ensures { result ≡ spec.is_lawful stated.now }
{
    are_lawful(stated.capacities) && are_positive(&stated.takes) && are_positive(&stated.gives)
}

fn lawful(stated: Stated) -> Option<Stated>
    ensures { result ≡ spec.lawful stated }
{
    if is_lawful(&stated) {
        Some(stated)
    } else {
        None
    }
}

fn stated_by(
    alloc: Global,
    director: &NetDirector,
    ports: &[Port],
    values: &EntityValues,
) -> Result<Option<Stated>, AllocError>
    ensures { IfOk result (λ stated. stated ≡ spec.stated_by (Some (director_view director.now)) (map port_view ports.now) (Some values.now)) }
{
    if has_processes(director) {
        Ok(lawful(numbers_of(alloc, director, ports, values)?))
    } else {
        Ok(None)
    }
}

/// What the entity of this number states.
fn stated_of(
    alloc: Global,
    values: &Values,
    number: usize,
    entity: &NetEntity,
) -> Result<Option<Stated>, AllocError>
    ensures { IfOk result (λ stated. stated ≡ spec.stated_of values.now number (entity_view entity.now)) }
{
    match &entity.director {
        Some(director) => match values.entities.get(number) {
            Some(values) => stated_by(alloc, director, &entity.ports, values),
            None => Ok(None),
        },
        None => Ok(None),
    }
}

fn stated_among(
    alloc: Global,
    entities: &[NetEntity],
    values: &Values,
) -> Result<Vec<Option<Stated>>, AllocError>
    ensures { IfOk result (λ stated. stated.items ≡ spec.stated_among values.now (map entity_view entities.now)) }
{
    let mut stated = Vec::with_capacity(alloc, entities.len())?;
    for (number, entity) in entities.iter().enumerate() {
        stated.push(stated_of(alloc, values, number, entity)?)?;
    }
    Ok(stated)
}

/// For each entity of a net what it states, where it is a composite of processes whose numbers are lawful: the values of its
/// parameters, or what stands for them where they aren't given.
pub fn stated_in(
    alloc: Global,
    net: &Net,
    values: &Values,
) -> Result<Vec<Option<Stated>>, AllocError>
    ensures { IfOk result (λ stated. AreStated (net_view net.now) values.now stated.items) }
{
    stated_among(alloc, &net.entities, values)
}
