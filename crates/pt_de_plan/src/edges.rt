ghost use Rattle.std.specs.Prelude.{◌≡◌, ◌≤◌, ◌<◌, ◌^◌, ◌++◌, IfOk, OnOk, length, map};
ghost use Rattle.pt_meaning.specs.Running.{total};
ghost use Rattle.pt_core.specs.Source.{source_of};
ghost use Rattle.pt_de_plan.specs.Edges.{edge_of, edges_from, edges_to};

use pt_core::Source;
use std::alloc::{AllocError, Global};

/// The edges from children to those that they feed at the same tag: one for each channel from a child to a place that is no delay.
pub(crate) fn edges_of(
    alloc: Global,
    places: &[usize],
    sources: &[Source],
    delayed: &[bool],
) -> Result<Vec<(u32, u32)>, AllocError>
    requires few { length places.now < 2 ^ 32 }
    requires channels { total places.now ≤ length sources.now }
    requires delayed { length delayed.now ≡ length sources.now }
    ensures { IfOk result (λ edges. edges.items ≡ edges_from 0 places.now (map source_of sources.now) delayed.now) }
{
    let mut edges = Vec::with_capacity(alloc, sources.len())?;
    let mut first = 0usize;
    for (child, count) in places.iter().enumerate() {
        let end = first + *count;
        add_edges(
            &mut edges,
            child as u32,
            &sources[first..end],
            &delayed[first..end],
        )?;
        first = end;
    }
    Ok(edges)
}

/// Adds those of channels that all end at this child.
fn add_edges(
    edges: &mut Vec<(u32, u32)>,
    child: u32,
    sources: &[Source],
    delayed: &[bool],
) -> Result<(), AllocError>
    requires { length delayed.now ≡ length sources.now }
    ensures { OnOk result (edges.new.items ≡ edges.old.items ++ edges_to child (map source_of sources.now) delayed.now) }
{
    for (number, source) in sources.iter().enumerate() {
        add_edge(edges, child, *source, delayed[number])?;
    }
    Ok(())
}

/// Adds that of one channel.
fn add_edge(
    edges: &mut Vec<(u32, u32)>,
    child: u32,
    source: Source,
    delayed: bool,
) -> Result<(), AllocError>
    ensures { OnOk result (edges.new.items ≡ edges.old.items ++ edge_of child (source_of source) delayed) }
{
    if let Source::Output(feeder, _) = source
        && !delayed
    {
        edges.push((feeder, child))?;
    }
    Ok(())
}
