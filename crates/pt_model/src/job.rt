ghost use Rattle.std.specs.Prelude.{List, ℕ, IsOk, IfOk, IfErr};
ghost use Rattle.pt_typing.specs.Least.{assignment};
ghost use Rattle.pt_scopes.specs.Scopes.{net_view};
ghost use Rattle.pt_job.specs.Inputs.{AreSupplied, IsInputFault};
ghost use Rattle.pt_node.specs.Shown.{shown_node};
ghost use Rattle.pt_node.specs.View.{node_of};
ghost use Rattle.pt_trees.specs.Built.{IsBuilt};
ghost use Rattle.pt_trees.specs.Top.{supply_of, IsJobFor};
ghost use Rattle.pt_order.specs.Laws.{IsNetOfDocument};
ghost use Rattle.pt_elaboration.specs.Begun.{starts_in};
ghost use Rattle.pt_elaboration.specs.Resolved.{IsStarted};
ghost use Rattle.pt_elaboration.specs.Refused.{FaultStands};
ghost use Rattle.pt_elaboration.specs.Asked.{HasTags, Lasts};

use crate::tree::director_of;
use pt_core::Either;
use pt_document::DocFault;
use pt_elaboration::{Started, de_job, once_job, sdf_job, sr_job};
use pt_net::Net;
use pt_node::Node;
use pt_trees::Top;
use std::alloc::Global;

/// What a job asks of the top of its net, by the director of the top: how long it lasts, and what it supplies.
pub(crate) fn job_of(
    alloc: Global,
    net: &Net,
    started: &Started,
    top: &Node,
) -> Result<Top, DocFault>
    requires document { IsNetOfDocument net.now }
    requires started { IsStarted net.now started.now.values (assignment started.now.typing) (starts_in started.now) }
    requires built { IsBuilt net.now (starts_in started.now) 0 (shown_node top.now) }
    ensures accepted { IsOk result → (path : List ℕ) → IsInputFault (net_view net.now) path → ⊥ }
    ensures supplied { IfOk result (λ job. AreSupplied (net_view net.now) started.now.values (supply_of job)) }
    ensures tags { IfOk result (HasTags (net_view net.now)) }
    ensures lasts { IfOk result (Lasts (net_view net.now) started.now.values) }
    ensures fits { IfOk result (λ job. IsJobFor job (node_of (shown_node top.now))) }
    ensures stands { IfErr result (FaultStands net.now) }
{
    match director_of(top) {
        Either::First(core) => {
            let job = sdf_job(alloc, net, started, core.takes())?;
            Ok(Top::Sdf(job))
        }
        Either::Other(other) => match other {
            Either::First(_) => {
                let job = sr_job(alloc, net, started)?;
                Ok(Top::Sr(job))
            }
            Either::Other(later) => match later {
                Either::First(_) => {
                    let job = de_job(alloc, net, started)?;
                    Ok(Top::De(job))
                }
                Either::Other(last) => match last {
                    Either::First(_) => {
                        let job = once_job(alloc, net, started)?;
                        Ok(Top::Once(job))
                    }
                    Either::Other(end) => match end {
                        // The top has a director, so it is no Modal entity.
                        Either::First(_) => unreachable!(),
                        Either::Other(_) => {
                            let job = once_job(alloc, net, started)?;
                            Ok(Top::Once(job))
                        }
                    },
                },
            },
        },
    }
}
