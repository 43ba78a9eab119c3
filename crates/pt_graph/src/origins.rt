ghost use Rattle.std.specs.Prelude.{◌≡◌, ℕ, ◌<◌, ◌++◌, length, true, Some, None, All, IfOk, OnOk, MatchOption, slice_get};
ghost use Rattle.std.specs.List.{filter_map};
ghost use Rattle.pt_survey.specs.Survey.{tables_view, port_at};
ghost use Rattle.pt_net.specs.Net as net;
ghost use Rattle.pt_graph.specs.Sources as sources;
ghost use Rattle.pt_graph.specs.Origins as spec;
ghost use Rattle.pt_graph.specs.Origins.{IsSourceOf, HasNoSource, AreOrigins, AreTrue};
ghost use Rattle.pt_net.specs.Joined.{IsGrouping};
ghost use Rattle.pt_links.specs.Wiring.{IsWiring, AreFine};

use crate::groups::group;
use crate::sources::{bonds, gifts};
use pt_links::Wiring;
use pt_survey::PlacedPort;
use std::alloc::{AllocError, Global};

/// The relations in classes of those that paths join, and the source of each class.
#[derive(Drop)]
pub struct Origins<'o, 'w, 't, 'a> {
    pub wiring: &'o Wiring<'w, 't, 'a>,
    class: Vec<usize>,
    sources: Vec<Option<usize>>,
}

fn add_pair(
    ways: &mut Vec<(usize, usize)>,
    outside: &[usize],
    inside: &[usize],
) -> Result<(), AllocError>
    ensures { OnOk result (ways.new.items ≡ ways.old.items ++ spec.first_pair outside.now inside.now) }
{
    if let (Some(first), Some(second)) = (outside.first(), inside.first()) {
        ways.push((*first, *second))?;
    }
    Ok(())
}

/// Adds the relations that a port joins, if it is one of a transparent composite.
fn add_crossing(
    ways: &mut Vec<(usize, usize)>,
    wiring: &Wiring,
    number: usize,
    port: &PlacedPort,
) -> Result<(), AllocError>
    requires wiring { IsWiring wiring.now }
    requires number { number < length (tables_view wiring.now.tables.now).ports }
    ensures { OnOk result (ways.new.items ≡ ways.old.items ++ spec.crossing (net.wires (tables_view wiring.now.tables.now)) (number, port_at port.now)) }
{
    if port.is_kept() {
        Ok(())
    } else {
        add_pair(ways, wiring.outside(number), wiring.inside(number))
    }
}

/// All that joins relations: links of two relations, and ports of transparent composites.
fn ways(alloc: Global, wiring: &Wiring) -> Result<Vec<(usize, usize)>, AllocError>
    requires { IsWiring wiring.now }
    ensures { IfOk result (λ ways. ways.items ≡ spec.ways (tables_view wiring.now.tables.now)) }
{
    let mut ways = bonds(alloc, &wiring.wires)?;
    for (number, port) in wiring.tables.ports.iter().enumerate() {
        add_crossing(&mut ways, wiring, number, port)?;
    }
    Ok(ways)
}

/// One of the givers of each class.
fn class_sources(
    alloc: Global,
    class: &[usize],
    gifts: &[(usize, usize)],
) -> Result<Vec<Option<usize>>, AllocError>
    requires classes { All (λ c. c < length class.now) class.now }
    requires relations { All (λ gift. gift.1 < length class.now) gifts.now }
    ensures { IfOk result (λ sources. AreOrigins (length class.now) (length gifts.now) class.now gifts.now sources.items) }
{
    let mut sources = vec![in alloc; None; class.len()]?;
    for (giver, relation) in gifts {
        sources[class[*relation]] = Some(*giver);
    }
    Ok(sources)
}

/// The classes of relations that are joined.
fn classes(alloc: Global, wiring: &Wiring) -> Result<Vec<usize>, AllocError>
    requires wiring { IsWiring wiring.now }
    requires fine { AreFine (tables_view wiring.now.tables.now) }
    ensures { IfOk result (λ class. IsGrouping (length (tables_view wiring.now.tables.now).relations) (spec.ways (tables_view wiring.now.tables.now)) class.items) }
{
    let ways = ways(alloc, wiring)?;
    let class = group(alloc, wiring.tables.relations.len(), &ways);
    drop(ways);
    class
}

/// One of the sources of each of these classes.
fn sources_of(
    alloc: Global,
    wiring: &Wiring,
    class: &[usize],
) -> Result<Vec<Option<usize>>, AllocError>
    requires wiring { IsWiring wiring.now }
    requires relations { length class.now ≡ length (tables_view wiring.now.tables.now).relations }
    requires classes { All (λ c. c < length class.now) class.now }
    ensures { IfOk result (λ found. AreOrigins (length class.now) (length (sources.gifts (tables_view wiring.now.tables.now) true)) class.now (sources.gifts (tables_view wiring.now.tables.now) true) found.items) }
{
    let gifts = gifts(alloc, wiring, true)?;
    let sources = class_sources(alloc, class, &gifts);
    drop(gifts);
    sources
}

impl<'o, 'w, 't, 'a> Origins<'o, 'w, 't, 'a> {
    /// The sources of these wires.
    pub fn of(
        alloc: Global,
        wiring: &'o Wiring<'w, 't, 'a>,
    ) -> Result<Origins<'o, 'w, 't, 'a>, AllocError>
        requires wiring { IsWiring wiring.now }
        requires fine { AreFine (tables_view wiring.now.tables.now) }
        ensures wiring { IfOk result (λ origins. origins.wiring.now ≡ wiring.now) }
        ensures origins { IfOk result AreTrue }
    {
        let class = classes(alloc, wiring)?;
        match sources_of(alloc, wiring, &class) {
            Ok(sources) => Ok(Origins {
                wiring,
                class,
                sources,
            }),
            Err(fault) => {
                drop(class);
                Err(fault)
            }
        }
    }

    /// The port of which the tokens of a relation come, if it has a source.
    pub fn source(&self, relation: usize) -> Option<usize>
        requires origins { AreTrue self.now }
        requires relation { relation < length (tables_view self.now.wiring.now.tables.now).relations }
        ensures { MatchOption result (HasNoSource (tables_view self.now.wiring.now.tables.now) relation) (λ source. IsSourceOf (tables_view self.now.wiring.now.tables.now) relation source) }
    {
        self.sources[self.class[relation]]
    }
}
