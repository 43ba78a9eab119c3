ghost use Rattle.std.specs.Prelude.{◌≡◌, ℕ, ◌<◌, ◌^◌, ◌++◌, ◌∷◌, [], List, length, map, get_or, IfOk, OnOk};
ghost use Rattle.pt_net.specs.declared.net.Channel.{Channel};
ghost use Rattle.pt_net.specs.declared.net.NetEntity.{NetEntity};
ghost use Rattle.pt_net.specs.Inside.{AreInsides, ports_at};
ghost use Rattle.pt_wiring.specs.Ports.{ArePortNumbers};
ghost use Rattle.pt_wiring.specs.Children.{AreChildren};
ghost use Rattle.pt_wiring.specs.Channels.{AreNumbers, AreSources, AreArrivals, counts_at};

use crate::children::Children;
use crate::numbers::Numbers;
use crate::ports::port_numbers;
use crate::source::{Numbering, Sources, number_at};
use pt_net::{Channel, Net, NetEntity};
use std::alloc::{AllocError, Global};

/// What is within each entity of a net, by the number of the entity: the numbers of its children in the net, how many places
/// each child has, and where each channel begins. Channels are numbered by the places where they end: those of the children
/// in order, then the own outputs. A library actor has nothing within.
#[derive(Drop)]
pub struct Insides {
    pub children: Vec<Numbers>,
    pub places: Vec<Numbers>,
    pub sources: Vec<Sources>,
}

/// The numbers of the ports of each entity.
fn rows_of(alloc: Global, entities: &[NetEntity]) -> Result<Vec<Numbers>, AllocError>
    ensures counted { IfOk result (λ rows. length rows.items ≡ length entities.now) }
    ensures each { IfOk result (λ rows. (i : ℕ) → i < length entities.now → ArePortNumbers (ports_at entities.now i) (get_or rows.items i [])) }
{
    let mut rows = Vec::with_capacity(alloc, entities.len())?;
    for entity in entities {
        rows.push(port_numbers(alloc, &entity.ports)?)?;
    }
    Ok(rows)
}

fn no_sources(alloc: Global, count: usize) -> Result<Vec<Sources>, AllocError>
    ensures counted { IfOk result (λ sources. length sources.items ≡ count) }
    ensures empty { IfOk result (λ sources. (c : ℕ) → get_or sources.items c [] ≡ []) }
{
    let mut sources = Vec::with_capacity(alloc, count)?;
    for _ in 0..count {
        sources.push(Sources::new(alloc))?;
    }
    Ok(sources)
}

/// Puts the source of a channel behind those of its composite.
fn add_source(
    numbering: &Numbering,
    sources: &mut Vec<Sources>,
    channel: &Channel,
) -> Result<(), AllocError>
    ensures { OnOk result ((es : List NetEntity) (ks : List Channel) → AreNumbers es numbering.now.children.items numbering.now.ports.items
        → AreSources es ks sources.old.items → AreSources es (ks ++ channel.now ∷ []) sources.new.items) }
{
    let composite = channel.composite as usize;
    if composite < sources.len() {
        sources[composite].push(numbering.source(channel))?;
    }
    Ok(())
}

/// Where the channels of each composite begin.
fn sources_of(
    alloc: Global,
    numbering: &Numbering,
    channels: &[Channel],
) -> Result<Vec<Sources>, AllocError>
    ensures { IfOk result (λ sources. (es : List NetEntity) → AreNumbers es numbering.now.children.items numbering.now.ports.items → AreSources es channels.now sources.items) }
{
    let mut sources = no_sources(alloc, numbering.children.len())?;
    for channel in channels {
        add_source(numbering, &mut sources, channel)?;
    }
    Ok(sources)
}

/// Counts the channel at the entity where it ends, unless it ends at an own output.
fn add_arrival(arrivals: &mut Vec<usize>, channel: &Channel)
    requires { (i : ℕ) → get_or arrivals.old.items i 0 < 2 ^ 63 }
    ensures { (count : ℕ) (ks : List Channel) → AreArrivals count ks arrivals.old.items → AreArrivals count (ks ++ channel.now ∷ []) arrivals.new.items }
{
    let entity = channel.to.entity as usize;
    if channel.composite != channel.to.entity && entity < arrivals.len() {
        arrivals[entity] += 1;
    }
}

/// How many channels end at the places of each entity.
fn arrivals_at(alloc: Global, count: usize, channels: &[Channel]) -> Result<Vec<usize>, AllocError>
    requires { length channels.now < 2 ^ 63 }
    ensures { IfOk result (λ arrivals. AreArrivals count channels.now arrivals.items) }
{
    let mut arrivals = vec![in alloc; 0usize; count]?;
    for channel in channels {
        add_arrival(&mut arrivals, channel);
    }
    Ok(arrivals)
}

/// How many channels end at the places of each child.
fn counts(alloc: Global, children: &[usize], arrivals: &[usize]) -> Result<Numbers, AllocError>
    ensures { IfOk result (λ counts. counts ≡ counts_at arrivals.now children.now) }
{
    let mut counts = Numbers::new(alloc);
    for child in children {
        counts.push(number_at(arrivals, *child))?;
    }
    Ok(counts)
}

/// How many places the children of each entity have.
fn places_of(
    alloc: Global,
    lists: &[Numbers],
    arrivals: &[usize],
) -> Result<Vec<Numbers>, AllocError>
    ensures counted { IfOk result (λ places. length places.items ≡ length lists.now) }
    ensures each { IfOk result (λ places. (c : ℕ) → c < length lists.now → get_or places.items c [] ≡ counts_at arrivals.now (get_or lists.now c [])) }
{
    let mut places = Vec::with_capacity(alloc, lists.len())?;
    for children in lists {
        places.push(counts(alloc, children.as_slice(), arrivals)?)?;
    }
    Ok(places)
}

impl Insides {
    /// The insides of the entities of a net.
    pub fn of(alloc: Global, net: &Net) -> Result<Insides, AllocError>
        ensures { IfOk result (λ insides. AreInsides net.now.entities.items net.now.channels.items insides.children.items insides.places.items insides.sources.items) }
    {
        let children = Children::of(alloc, &net.entities)?;
        let numbering = Numbering {
            children: children.numbers,
            ports: rows_of(alloc, &net.entities)?,
        };
        let sources = sources_of(alloc, &numbering, &net.channels)?;
        let arrivals = arrivals_at(alloc, net.entities.len(), &net.channels)?;
        let places = places_of(alloc, &children.lists, &arrivals)?;
        Ok(Insides {
            children: children.lists,
            places,
            sources,
        })
    }
}
