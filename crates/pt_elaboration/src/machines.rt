ghost use Rattle.std.specs.Prelude.{IfOk, IfErr, map, option_map};
ghost use Rattle.pt_chart.specs.Views.{machine_of};
ghost use Rattle.pt_machine.specs.Machines.{AreMachines};
ghost use Rattle.pt_typing.specs.Least.{assignment};
ghost use Rattle.pt_elaboration.specs.Resolved.{IsResolved};
ghost use Rattle.pt_elaboration.specs.Refused.{FaultStands};

use crate::refusal::refusal_of_entity;
use pt_chart::Written;
use pt_document::{Code, DocFault};
use pt_machines::{NetFault, machines_in};
use pt_net::Net;
use pt_scopes::Values;
use pt_typing::Typing;
use std::alloc::Global;

/// The machine of each Modal entity of a net, or a refusal of one whose states, transitions and refinements don't agree.
pub(crate) fn machines_of(
    alloc: Global,
    net: &Net,
    values: &Values,
    typing: &Typing,
) -> Result<Vec<Option<Written>>, DocFault>
    requires { IsResolved net.now values.now (assignment typing.now) }
    ensures machines { IfOk result (λ machines. AreMachines net.now values.now (assignment typing.now) (map (option_map machine_of) machines.items)) }
    ensures stands { IfErr result (FaultStands net.now) }
{
    match machines_in(alloc, net, values, typing) {
        Ok(machines) => Ok(machines),
        Err(NetFault::Refused(_why, number)) => {
            Err(refusal_of_entity(alloc, Code::States, net, number))
        }
        Err(NetFault::Memory) => Err(DocFault::Memory),
    }
}
