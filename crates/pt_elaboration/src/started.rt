ghost use Rattle.std.specs.Prelude.{IfOk, IfErr};
ghost use Rattle.pt_document.specs.Document.{JobTree};
ghost use Rattle.pt_net.specs.Net.{IsNetOf};
ghost use Rattle.pt_scopes.specs.Scopes.{net_view};
ghost use Rattle.pt_typing.specs.Least.{Assignment, assignment};
ghost use Rattle.pt_start.specs.Nested.{IsNested};
ghost use Rattle.pt_cover.specs.Leaves.{ActorsAreLeaves};
ghost use Rattle.pt_elaboration.specs.Begun.{starts_in};
ghost use Rattle.pt_elaboration.specs.Resolved.{IsResolved, IsPlaced, IsStarted};
ghost use Rattle.pt_elaboration.specs.Refused.{FaultStands};

use crate::machines::machines_of;
use crate::refusal::refusal_of_entity;
use crate::resolved::{typing_in, values_in};
use crate::starts::starts_of;
use pt_chart::Written;
use pt_cover::nets_are_nested;
use pt_document::DocFault;
use pt_library::LibraryActor;
use pt_net::Net;
use pt_scopes::Values;
use pt_start::misplaced;
use pt_stated::{Stated, stated_in};
use pt_typing::Typing;
use std::alloc::Global;

/// What the texts of a net come to, its types, what its entities start as, what its process networks state and the machines of its Modal entities, where no fault of
/// its texts, its types, its places or its states stands.
#[derive(Drop)]
pub struct Started {
    pub values: Values,
    pub typing: Typing,
    pub starts: Vec<Option<LibraryActor>>,
    pub stated: Vec<Option<Stated>>,
    pub machines: Vec<Option<Written>>,
}

/// Refuses an entity that may not stand where it stands.
fn check_places(alloc: Global, net: &Net, values: &Values) -> Result<(), DocFault>
    requires nested { IsNested (net_view net.now) }
    requires resolved { (typing : Assignment) × IsResolved net.now values.now typing }
    ensures placed { IfOk result (λ _. IsPlaced net.now values.now) }
    ensures stands { IfErr result (FaultStands net.now) }
{
    match misplaced(net, values) {
        Some((code, number)) => Err(refusal_of_entity(alloc, code, net, number)),
        None => Ok(()),
    }
}

impl Started {
    /// Evaluates the texts of the net of a job, finds its types and its machines, and starts its actors.
    pub fn of(alloc: Global, net: &Net) -> Result<Started, DocFault>
        requires { (job : JobTree) × ActorsAreLeaves job × IsNetOf job net.now }
        ensures started { IfOk result (λ s. IsStarted net.now s.values (assignment s.typing) (starts_in s)) }
        ensures stands { IfErr result (FaultStands net.now) }
    {
        nets_are_nested();
        let values = values_in(alloc, net)?;
        let typing = typing_in(alloc, net, &values)?;
        check_places(alloc, net, &values)?;
        let machines = machines_of(alloc, net, &values, &typing)?;
        let starts = starts_of(alloc, net, &values, &typing)?;
        let stated = stated_in(alloc, net, &values)?;
        Ok(Started {
            values,
            typing,
            starts,
            stated,
            machines,
        })
    }
}
