ghost use Rattle.std.specs.Prelude.{◌≡◌, ◌+◌, ◌≤◌, ◌<◌, ◌++◌, IfOk, OnOk, All, length, replicate, get_or};
ghost use Rattle.pt_plan.specs.Inside.{IsInside, IsThere};
ghost use Rattle.pt_plan.specs.Channels.{nodes_of, owners, end_of, taken_at, start_of, put_at, channel_at, channels_of};

use crate::inside::Inside;
use pt_core::Source;
use pt_rates::Edge;
use pt_sched::SchedEdge;
use std::alloc::{AllocError, Global};

/// The channels of a composite, between its children and its own ports.
pub(crate) fn channels_of(alloc: Global, inside: &Inside) -> Result<Vec<SchedEdge>, AllocError>
    requires inside { IsInside inside.now }
    requires nodes { nodes_of inside.now ≤ 1000000 }
    ensures { IfOk result (λ channels. channels.items ≡ channels_of inside.now) }
{
    let children = owners_of(alloc, inside.places.as_slice())?;
    let mut channels = Vec::with_capacity(alloc, inside.sources.len())?;
    for (number, source) in inside.sources.iter().enumerate() {
        channels.push(channel_at(inside, &children, number, source))?;
    }
    Ok(channels)
}

/// The child of each place.
fn owners_of(alloc: Global, places: &[usize]) -> Result<Vec<u32>, AllocError>
    requires { length places.now ≤ 1000000 }
    ensures { IfOk result (λ list. list.items ≡ owners 0 places.now) }
{
    let mut list = Vec::new(alloc);
    for (child, count) in places.iter().enumerate() {
        add_places(&mut list, child as u32, *count)?;
    }
    Ok(list)
}

/// Adds so many places of a child.
fn add_places(list: &mut Vec<u32>, child: u32, count: usize) -> Result<(), AllocError>
    ensures { OnOk result (list.new.items ≡ list.old.items ++ replicate count child) }
{
    for _ in 0..count {
        list.push(child)?;
    }
    Ok(())
}

/// Channel `number`, where `children` has the child of each place.
fn channel_at(inside: &Inside, children: &[u32], number: usize, source: &Source) -> SchedEdge
    requires inside { IsInside inside.now }
    requires nodes { nodes_of inside.now ≤ 1000000 }
    requires children { children.now ≡ owners 0 inside.now.places }
    requires number { number < length inside.now.sources.items }
    requires source { source.now ≡ get_or inside.now.sources.items number source.now }
    ensures { result ≡ channel_at inside.now number source.now }
{
    let (from, produced) = start_of(inside, source);
    let (to, consumed) = end_of(inside, children, number);
    SchedEdge {
        edge: Edge {
            from,
            produced,
            to,
            consumed,
        },
        initial: inside.first.as_slice()[number] as u64,
    }
}

/// Where a channel begins, and how many tokens a repetition puts there.
fn start_of(inside: &Inside, source: &Source) -> (u32, u64)
    requires nodes { nodes_of inside.now ≤ 1000000 }
    requires there { IsThere inside.now source.now }
    ensures start { result.0 ≡ start_of inside.now source.now }
    ensures rate { result.1 ≡ put_at inside.now source.now }
{
    match *source {
        Source::Own(port) => (inside.places.len() as u32 + port, 1),
        Source::Output(child, port) => {
            let rates = inside.rates[child as usize].as_slice();
            (child, rates[port as usize] as u64)
        }
    }
}

/// Where channel `number` ends, and how many tokens a repetition takes there.
fn end_of(inside: &Inside, children: &[u32], number: usize) -> (u32, u64)
    requires inside { IsInside inside.now }
    requires nodes { nodes_of inside.now ≤ 1000000 }
    requires children { children.now ≡ owners 0 inside.now.places }
    requires number { number < length inside.now.sources.items }
    ensures end { result.0 ≡ end_of inside.now number }
    ensures need { result.1 ≡ taken_at inside.now number }
{
    let needs = inside.needs.as_slice();
    if number < needs.len() {
        (children[number], needs[number] as u64)
    } else {
        let first = inside.places.len() as u32 + inside.inputs;
        (first + (number - needs.len()) as u32, 1)
    }
}
