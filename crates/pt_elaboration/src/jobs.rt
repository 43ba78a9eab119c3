// What a job asks of the top of a net whose actors are started, by the director that the top has.
ghost use Rattle.std.specs.Prelude.{◌≡◌, ℕ, List, Some, true, false, IsSome, IsOk, IfOk, IfErr};
ghost use Rattle.pt_typing.specs.Least.{assignment};
ghost use Rattle.pt_scopes.specs.Scopes.{net_view};
ghost use Rattle.pt_agenda.specs.Events.{AllAscend};
ghost use Rattle.pt_job.specs.Inputs.{AreSupplied, may_lack, is_timed, IsInputFault};
ghost use Rattle.pt_job.specs.Iterations as spec;
ghost use Rattle.pt_node.specs.Shown.{Shown};
ghost use Rattle.pt_trees.specs.declared.top.Top.TheVariants as top;
ghost use Rattle.pt_trees.specs.Built.{IsBuilt};
ghost use Rattle.pt_trees.specs.Top.{supply_of};
ghost use Rattle.pt_elaboration.specs.Begun.{starts_in};
ghost use Rattle.pt_elaboration.specs.Resolved.{IsStarted};
ghost use Rattle.pt_elaboration.specs.Refused.{FaultStands};
ghost use Rattle.pt_elaboration.specs.Asked.{HasTags, Lasts};

use crate::started::Started;
use pt_document::DocFault;
use pt_firing::Counts;
use pt_job::{iterations, stop_time, supply, supply_events, supply_ticks};
use pt_net::Net;
use pt_trees::{DeJob, OnceJob, SdfJob, SrJob};
use std::alloc::Global;

/// The number of iterations or ticks of a top that has one.
fn stated(net: &Net, started: &Started) -> u64
    requires { IsSome (spec.iterations (net_view net.now) started.now.values) }
    ensures { spec.iterations (net_view net.now) started.now.values ≡ Some result }
{
    let Some(iterations) = iterations(net, &started.values) else {
        unreachable!()
    };
    iterations
}

/// What a job asks of an SDF top that takes so many tokens in an iteration.
pub fn sdf_job(
    alloc: Global,
    net: &Net,
    started: &Started,
    takes: &Counts,
) -> Result<SdfJob, DocFault>
    requires started { IsStarted net.now started.now.values (assignment started.now.typing) (starts_in started.now) }
    requires built { (top : Shown) × IsBuilt net.now (starts_in started.now) 0 top }
    requires present { may_lack (net_view net.now) ≡ false }
    requires iterates { IsSome (spec.iterations (net_view net.now) started.now.values) }
    ensures accepted { IsOk result → (path : List ℕ) → IsInputFault (net_view net.now) path → ⊥ }
    ensures supplied { IfOk result (λ job. AreSupplied (net_view net.now) started.now.values (supply_of (top.Sdf job))) }
    ensures lasts { IfOk result (λ job. Lasts (net_view net.now) started.now.values (top.Sdf job)) }
    ensures takes { IfOk result (λ job. job.takes ≡ takes.now) }
    ensures stands { IfErr result (FaultStands net.now) }
{
    let inputs = supply(alloc, net, &started.values)?;
    let takes = takes.copy(alloc)?;
    Ok(SdfJob {
        iterations: stated(net, started),
        takes,
        inputs,
    })
}

/// What a job asks of an SR top.
pub fn sr_job(alloc: Global, net: &Net, started: &Started) -> Result<SrJob, DocFault>
    requires started { IsStarted net.now started.now.values (assignment started.now.typing) (starts_in started.now) }
    requires built { (top : Shown) × IsBuilt net.now (starts_in started.now) 0 top }
    requires iterates { IsSome (spec.iterations (net_view net.now) started.now.values) }
    ensures accepted { IsOk result → (path : List ℕ) → IsInputFault (net_view net.now) path → ⊥ }
    ensures supplied { IfOk result (λ job. AreSupplied (net_view net.now) started.now.values (supply_of (top.Sr job))) }
    ensures lasts { IfOk result (λ job. Lasts (net_view net.now) started.now.values (top.Sr job)) }
    ensures stands { IfErr result (FaultStands net.now) }
{
    let inputs = supply_ticks(alloc, net, &started.values)?;
    Ok(SrJob {
        iterations: stated(net, started),
        inputs,
    })
}

/// What a job asks of a DE top.
pub fn de_job(alloc: Global, net: &Net, started: &Started) -> Result<DeJob, DocFault>
    requires started { IsStarted net.now started.now.values (assignment started.now.typing) (starts_in started.now) }
    requires built { (top : Shown) × IsBuilt net.now (starts_in started.now) 0 top }
    requires timed { is_timed (net_view net.now) ≡ true }
    ensures accepted { IsOk result → (path : List ℕ) → IsInputFault (net_view net.now) path → ⊥ }
    ensures supplied { IfOk result (λ job. AreSupplied (net_view net.now) started.now.values (supply_of (top.De job))) }
    ensures tags { IfOk result (λ job. HasTags (net_view net.now) (top.De job)) }
    ensures lasts { IfOk result (λ job. Lasts (net_view net.now) started.now.values (top.De job)) }
    ensures ascend { IfOk result (λ job. AllAscend job.inputs.items) }
    ensures stands { IfErr result (FaultStands net.now) }
{
    let inputs = supply_events(alloc, net, &started.values)?;
    Ok(DeJob {
        stop: stop_time(net, &started.values),
        inputs,
    })
}

/// What a job asks of a top that fires once.
pub fn once_job(alloc: Global, net: &Net, started: &Started) -> Result<OnceJob, DocFault>
    requires started { IsStarted net.now started.now.values (assignment started.now.typing) (starts_in started.now) }
    requires built { (top : Shown) × IsBuilt net.now (starts_in started.now) 0 top }
    requires present { may_lack (net_view net.now) ≡ false }
    ensures accepted { IsOk result → (path : List ℕ) → IsInputFault (net_view net.now) path → ⊥ }
    ensures supplied { IfOk result (λ job. AreSupplied (net_view net.now) started.now.values (supply_of (top.Once job))) }
    ensures stands { IfErr result (FaultStands net.now) }
{
    let inputs = supply(alloc, net, &started.values)?;
    Ok(OnceJob { inputs })
}
