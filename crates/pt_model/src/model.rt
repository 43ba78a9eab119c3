ghost use Rattle.std.specs.Prelude.{◌≡◌, length, Ok, Err, IfOk, IfErr};
ghost use Rattle.pt_typing.specs.Least.{assignment};
ghost use Rattle.pt_trees.specs.Fresh.{IsFresh};
ghost use Rattle.pt_node.specs.Shown.{shown_node};
ghost use Rattle.pt_trees.specs.Built.{IsBuilt};
ghost use Rattle.pt_trees.specs.Start.{IsRunnable};
ghost use Rattle.pt_trees.specs.Ports.{AreNumbered};
ghost use Rattle.pt_order.specs.Laws.{IsNetOfDocument};
ghost use Rattle.pt_model.specs.Model.{IsModel};
ghost use Rattle.pt_elaboration.specs.Begun.{starts_in};
ghost use Rattle.pt_elaboration.specs.Resolved.{IsStarted};
ghost use Rattle.pt_elaboration.specs.Refused.{FaultStands};

use crate::job::job_of;
use crate::tree::tree_of;
use pt_cover::ports_are_numbered;
use pt_document::DocFault;
use pt_elaboration::Started;
use pt_net::Net;
use pt_node::Node;
use pt_trees::Top;
use std::alloc::Global;
use std::mem::ManuallyDrop;

/// The model of a net: the tree of its nodes at their start, and what the job asks of the top.
#[derive(Drop)]
pub struct Model {
    pub top: Node,
    pub job: Top,
}

/// The model of this tree, where the job could be asked for. A tree is let go by a call, which keeps what that takes out of the proof.
fn with_job(top: Node, job: Result<Top, DocFault>) -> Result<Model, DocFault>
    ensures ok { IfOk result (λ model. (model.top ≡ top) × (job ≡ Ok model.job)) }
    ensures fault { IfErr result (λ fault. job ≡ Err fault) }
{
    match job {
        Ok(job) => Ok(Model { top, job }),
        Err(fault) => {
            drop(top);
            Err(fault)
        }
    }
}

/// The model of a net whose entities start as these.
pub(crate) fn model_with(alloc: Global, net: &Net, started: &Started) -> Result<Model, DocFault>
    requires document { IsNetOfDocument net.now }
    requires started { IsStarted net.now started.now.values (assignment started.now.typing) (starts_in started.now) }
    // The types of the model are those of the start.
    ensures model { IfOk result (λ model. (is : IsModel net.now (shown_node model.top) model.job) × (is.typing ≡ assignment started.now.typing)) }
    ensures built { IfOk result (λ model. IsBuilt net.now (starts_in started.now) 0 (shown_node model.top)) }
    ensures fresh { IfOk result (λ model. IsFresh (shown_node model.top)) }
    ensures stands { IfErr result (FaultStands net.now) }
{
    let top = tree_of(alloc, net, started)?;
    let job = job_of(alloc, net, started, &top);
    with_job(top, job)
}

/// The model of the net of a document: its texts are evaluated, its types found, its actors started, its composites planned, and what the job supplies is put to the
/// inputs of the top. Refuses a net for the first kind of fault that stands: values, guards and actions, types, places, plans, inputs. In the document no link is at
/// fault. What its entities started from is kept to the end of the program, as its document is.
pub fn model_of(alloc: Global, net: &Net) -> Result<Model, DocFault>
    requires { IsNetOfDocument net.now }
    ensures model { IfOk result (λ model. IsModel net.now (shown_node model.top) model.job) }
    ensures runnable { IfOk result (λ model. IsRunnable model.job (shown_node model.top)) }
    ensures numbered { IfOk result (λ model. AreNumbered (length net.now.recorded.items) (shown_node model.top)) }
    ensures stands { IfErr result (FaultStands net.now) }
{
    ports_are_numbered();
    let started = Started::of(alloc, net)?;
    let model = model_with(alloc, net, &started);
    let _kept = ManuallyDrop::new(started);
    model
}
