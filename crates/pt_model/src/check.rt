ghost use Rattle.std.specs.Prelude.{IfOk, IfErr};
ghost use Rattle.pt_typing.specs.Least.{assignment};
ghost use Rattle.pt_node.specs.Shown.{shown_node};
ghost use Rattle.pt_check.specs.Facts.{AreFacts};
ghost use Rattle.pt_order.specs.Laws.{IsNetOfDocument};
ghost use Rattle.pt_elaboration.specs.Refused.{FaultStands};
ghost use Rattle.pt_model.specs.Checked.{AreFactsOf};

use crate::model::{Model, model_with};
use pt_check::facts_of;
use pt_document::DocFault;
use pt_elaboration::Started;
use pt_facts::Facts;
use pt_net::Net;
use pt_typing::Typing;
use std::alloc::Global;

/// The facts of a net with these types and this model, which is let go by a call.
fn facts_with(alloc: Global, net: &Net, typing: &Typing, model: Model) -> Result<Facts, DocFault>
    ensures facts { IfOk result (AreFacts net.now (assignment typing.now) (shown_node model.top)) }
    ensures stands { IfErr result (FaultStands net.now) }
{
    let facts = facts_of(alloc, net, typing, &model.top);
    drop(model);
    match facts {
        Ok(facts) => Ok(facts),
        Err(_) => Err(DocFault::Memory),
    }
}

/// What a check tells of the net of a document: the types of its ports, and the repetitions and the depths that its model plans. It
/// refuses a net as [`model_of`](crate::model_of) does, and runs nothing. In the document no link is at fault.
pub fn check_net(alloc: Global, net: &Net) -> Result<Facts, DocFault>
    requires { IsNetOfDocument net.now }
    ensures facts { IfOk result (AreFactsOf net.now) }
    ensures stands { IfErr result (FaultStands net.now) }
{
    let started = Started::of(alloc, net)?;
    let model = model_with(alloc, net, &started)?;
    facts_with(alloc, net, &started.typing, model)
}
