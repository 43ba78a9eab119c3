ghost use Rattle.std.specs.Prelude.{◌≡◌, ◌≢◌, ℕ, ◌<◌, ◌++◌, map, length, Some, None, All, IfOk, IfErr, OnOk, MatchOption, slice_get, slice_index_or, slice_set};
ghost use Rattle.std.specs.Bool.{OnTrue, OnFalse};
ghost use Rattle.pt_survey.specs.Survey.{tables_view, port_at};
ghost use Rattle.pt_net.specs.Net as net;
ghost use Rattle.pt_graph.specs.Sources as spec;
ghost use Rattle.pt_graph.specs.Sources.{HasOneGiver, HasTwoGivers, HaveOneSource};
ghost use Rattle.std.specs.List.{filter_map};
ghost use Rattle.pt_document.specs.declared.code.Code.TheVariants as code;
ghost use Rattle.pt_net.specs.Stands.{IsTold, IsTwoSources};
ghost use Rattle.pt_links.specs.Wiring.{IsWiring};

use crate::groups::group;
use pt_document::DocFault;
use pt_links::{Wiring, refused_relation};
use pt_net::Wire;
use pt_survey::PlacedPort;
use std::alloc::{AllocError, Global};

/// The relations to which a port gives tokens, or none if its entity doesn't stay in the net and only those are asked for.
fn giving<'w>(wiring: &'w Wiring, number: usize, port: &PlacedPort, kept_only: bool) -> &'w [usize]
    requires wiring { IsWiring wiring.now }
    requires number { number < length (tables_view wiring.now.tables.now).ports }
    ensures { result.now ≡ spec.giving (net.wires (tables_view wiring.now.tables.now)) kept_only (number, port_at port.now) }
{
    if !kept_only || port.is_kept() {
        wiring.given(number, port)
    } else {
        &[]
    }
}

fn add_gifts(
    gifts: &mut Vec<(usize, usize)>,
    giver: usize,
    relations: &[usize],
) -> Result<(), AllocError>
    ensures { OnOk result (gifts.new.items ≡ gifts.old.items ++ map (λ relation. (giver, relation)) relations.now) }
{
    for relation in relations {
        gifts.push((giver, *relation))?;
    }
    Ok(())
}

/// Each port with each relation to which it gives tokens.
pub fn gifts(
    alloc: Global,
    wiring: &Wiring,
    kept_only: bool,
) -> Result<Vec<(usize, usize)>, AllocError>
    requires { IsWiring wiring.now }
    ensures { IfOk result (λ gifts. gifts.items ≡ spec.gifts (tables_view wiring.now.tables.now) kept_only) }
{
    let mut gifts = Vec::new(alloc);
    for (number, port) in wiring.tables.ports.iter().enumerate() {
        add_gifts(&mut gifts, number, giving(wiring, number, port, kept_only))?;
    }
    Ok(gifts)
}

/// Makes this the giver of a group, unless another one is.
fn claim(givers: &mut [Option<usize>], group: usize, giver: usize) -> bool
    requires { group < length givers.old }
    ensures made { OnTrue result (givers.new ≡ slice_set givers.old group (Some giver)) }
    ensures free { OnTrue result ((other : ℕ) → slice_index_or givers.old group None ≡ Some other → other ≡ giver) }
    ensures other { OnFalse result ((other : ℕ) × (slice_index_or givers.old group None ≡ Some other) × (other ≢ giver)) }
{
    match givers[group] {
        Some(other) if other != giver => false,
        _ => {
            givers[group] = Some(giver);
            true
        }
    }
}

/// A relation to whose group two ports give tokens, if there is one.
pub fn doubly_given(
    alloc: Global,
    group: &[usize],
    gifts: &[(usize, usize)],
) -> Result<Option<usize>, AllocError>
    requires groups { All (λ c. c < length group.now) group.now }
    requires relations { All (λ gift. gift.1 < length group.now) gifts.now }
    ensures { IfOk result (λ found. MatchOption found (HasOneGiver group.now gifts.now) (λ relation. HasTwoGivers group.now gifts.now relation)) }
{
    let mut givers = vec![in alloc; None; group.len()]?;
    for (giver, relation) in gifts {
        if !claim(&mut givers, group[*relation], *giver) {
            return Ok(Some(*relation));
        }
    }
    Ok(None)
}

fn bond_of(wire: &Wire) -> Option<(usize, usize)>
    ensures { result ≡ spec.bond_of wire.now }
{
    match *wire {
        Wire::Bond { first, second } => Some((first, second)),
        Wire::Outside { .. } | Wire::Inside { .. } => None,
    }
}

/// The pairs of relations that are linked to each other.
pub fn bonds(alloc: Global, wires: &[Wire]) -> Result<Vec<(usize, usize)>, AllocError>
    ensures { IfOk result (λ bonds. bonds.items ≡ filter_map spec.bond_of wires.now) }
{
    wires.iter().filter_map(|wire| bond_of(wire)).collect(alloc)
}

/// Refuses a relation group with two sources.
pub fn check_groups(alloc: Global, wiring: &Wiring) -> Result<(), DocFault>
    requires { IsWiring wiring.now }
    ensures ok { OnOk result (HaveOneSource (tables_view wiring.now.tables.now)) }
    ensures told { IfErr result (IsTold code.TwoSources (IsTwoSources (tables_view wiring.now.tables.now))) }
{
    let relations = &wiring.tables.relations;
    let group = group(alloc, relations.len(), &bonds(alloc, &wiring.wires)?)?;
    let gifts = gifts(alloc, wiring, false)?;
    match doubly_given(alloc, &group, &gifts)? {
        Some(relation) => Err(refused_relation(alloc, &relations[relation])),
        None => Ok(()),
    }
}
