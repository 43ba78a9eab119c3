ghost use Rattle.std.specs.Prelude.{◌≡◌, IfOk, length, map};
ghost use Rattle.pt_net.specs.Net.{entity_view};
ghost use Rattle.pt_scopes.specs.Valued as valued;
ghost use Rattle.pt_typing.specs.Views.{inequality_view};
ghost use Rattle.pt_typing.specs.Least.{assignment};
ghost use Rattle.pt_inequalities.specs.Passing as passing;
ghost use Rattle.pt_inequalities.specs.Frames.{frames_of};
ghost use Rattle.pt_inequalities.specs.Modals.{AreCharts};
ghost use Rattle.pt_resolve.specs.AllInequalities.{AreAll};
ghost use Rattle.pt_inequalities.specs.Typing.{IsTyping};
ghost use Rattle.pt_places.specs.Views.{port_lists};
ghost use Rattle.pt_frames.specs.Views.{frames_view};
ghost use Rattle.pt_charts.specs.Views.{chart_view};

use crate::actions::add_charts;
use crate::declared::add_declared;
use pt_charts::{Chart, charts_of};
use pt_document::Port;
use pt_frames::Frames;
use pt_net::Net;
use pt_places::{add_passing, add_refinements, all_ports, inequalities_of, port_counts};
use pt_scopes::Values;
use pt_typing::{Inequality, Typing, least_typing};
use std::alloc::{AllocError, Global};

/// The inequalities of a net with these frames, ports and charts.
fn inequalities_with(
    alloc: Global,
    frames: &Frames,
    net: &Net,
    values: &Values,
    lists: &[&[Port]],
    charts: &[Chart],
) -> Result<Vec<Inequality>, AllocError>
    requires frames { frames_view frames.now ≡ frames_of net.now values.now }
    requires lists { port_lists lists.now ≡ passing.all_ports net.now }
    requires charts { AreCharts (frames_of net.now values.now) (map entity_view net.now.entities.items) (map valued.entity_view values.now.entities.items) (length (map entity_view net.now.entities.items)) (map chart_view charts.now) }
    ensures { IfOk result (λ qs. AreAll net.now values.now (map inequality_view qs.items)) }
{
    let mut inequalities = inequalities_of(alloc, frames, net, values)?;
    add_declared(alloc, lists, &mut inequalities)?;
    add_refinements(alloc, &net.entities, &mut inequalities)?;
    add_charts(alloc, charts, &mut inequalities)?;
    add_passing(net, &mut inequalities)?;
    Ok(inequalities)
}

/// The inequalities of a net with these frames and ports, with those of the types that ports declare, those of Modal entities, and those
/// between ports and relations.
fn all_inequalities(
    alloc: Global,
    frames: &Frames,
    net: &Net,
    values: &Values,
    lists: &[&[Port]],
) -> Result<Vec<Inequality>, AllocError>
    requires frames { frames_view frames.now ≡ frames_of net.now values.now }
    requires lists { port_lists lists.now ≡ passing.all_ports net.now }
    ensures { IfOk result (λ qs. AreAll net.now values.now (map inequality_view qs.items)) }
{
    let charts = charts_of(alloc, frames, &net.entities, &values.entities)?;
    let made = inequalities_with(alloc, frames, net, values, lists, &charts);
    drop(charts);
    made
}

/// The least types at these ports that meet all inequalities.
fn typing_at(
    alloc: Global,
    frames: &Frames,
    net: &Net,
    values: &Values,
    lists: &[&[Port]],
    counts: &[u32],
) -> Result<Typing, AllocError>
    requires frames { frames_view frames.now ≡ frames_of net.now values.now }
    requires lists { port_lists lists.now ≡ passing.all_ports net.now }
    requires counts { counts.now ≡ passing.port_counts net.now }
    ensures { IfOk result (λ t. IsTyping net.now values.now (assignment t)) }
{
    let inequalities = all_inequalities(alloc, frames, net, values, lists)?;
    let typing = least_typing(alloc, counts, inequalities.as_slice());
    drop(inequalities);
    typing
}

/// The typing of a net with these frames: the least types of its ports, rows and relations that meet all inequalities, are above what ports
/// declare, and are what Modal entities ask for.
pub fn net_typing(
    alloc: Global,
    frames: &Frames,
    net: &Net,
    values: &Values,
) -> Result<Typing, AllocError>
    requires { frames_view frames.now ≡ frames_of net.now values.now }
    ensures { IfOk result (λ t. IsTyping net.now values.now (assignment t)) }
{
    let lists = all_ports(alloc, net)?;
    let counts = port_counts(alloc, &lists, net.relation_count)?;
    let typing = typing_at(alloc, frames, net, values, &lists, counts.as_slice());
    drop(counts);
    drop(lists);
    typing
}
