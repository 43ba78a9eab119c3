ghost use Rattle.std.specs.Prelude.{◌≡◌, IfOk, IfErr, Some, map, option_map, slice_get, true};
ghost use Rattle.pt_net.specs.Net.{entity_view};
ghost use Rattle.pt_scopes.specs.Scopes.{net_view};
ghost use Rattle.pt_scopes.specs.Valued.{IsValued};
ghost use Rattle.pt_typing.specs.Least.{assignment};
ghost use Rattle.pt_charts.specs.Readable.{AreReadable};
ghost use Rattle.pt_chart.specs.Views.{machine_of};
ghost use Rattle.pt_inequalities.specs.ModalScopes.{is_modal};
ghost use Rattle.pt_machine.specs.Machines.{IsMachineIn, IsMachineOf, AreMachines};
ghost use Rattle.pt_machine.specs.Causes.{IsFaultIn};
ghost use Rattle.pt_machine_parts.specs.Told.{IsTold};
ghost use Rattle.pt_machines.specs.Grounds.{IsReady, IsNetTold};

use crate::fault::NetFault;
use crate::ground::Ground;
use crate::machine::machine;
use crate::modals::no_machines;
use pt_chart::Written;
use pt_frames::{has_modal, is_modal};
use pt_machine_parts::ModalFault;
use pt_net::{Net, NetEntity};
use pt_scopes::Values;
use pt_typing::Typing;
use std::alloc::Global;

/// The machine of the Modal entity of this number.
fn machine_at(
    alloc: Global,
    ground: &Ground,
    number: usize,
    entity: &NetEntity,
) -> Result<Written, ModalFault>
    requires ready { IsReady ground.now }
    requires entity { slice_get ground.now.net.now.entities.items number ≡ Some entity.now }
    requires modal { is_modal (entity_view entity.now) ≡ true }
    ensures machine { IfOk result (λ w. IsMachineIn ground.now.net.now ground.now.values.now (assignment ground.now.typing.now) number (machine_of w)) }
    ensures told { IfErr result (IsTold (IsFaultIn ground.now.net.now number)) }
{
    let site = ground.site_of(alloc, number, entity)?;
    let made = machine(alloc, &site);
    drop(site);
    made
}

/// The machine of an entity, if it is Modal.
fn machine_if_modal(
    alloc: Global,
    ground: &Ground,
    number: usize,
    entity: &NetEntity,
) -> Result<Option<Written>, NetFault>
    requires ready { IsReady ground.now }
    requires entity { slice_get ground.now.net.now.entities.items number ≡ Some entity.now }
    ensures machine { IfOk result (λ w. IsMachineOf ground.now.net.now ground.now.values.now (assignment ground.now.typing.now) number (entity_view entity.now) (option_map machine_of w)) }
    ensures told { IfErr result (IsNetTold ground.now.net.now) }
{
    if !is_modal(entity) {
        return Ok(None);
    }
    match machine_at(alloc, ground, number, entity) {
        Ok(made) => Ok(Some(made)),
        Err(ModalFault::Refused(why)) => Err(NetFault::Refused(why, number)),
        Err(ModalFault::Memory) => Err(NetFault::Memory),
    }
}

/// The machines of all entities.
fn machines_on(alloc: Global, ground: &Ground) -> Result<Vec<Option<Written>>, NetFault>
    requires { IsReady ground.now }
    ensures machines { IfOk result (λ ws. AreMachines ground.now.net.now ground.now.values.now (assignment ground.now.typing.now) (map (option_map machine_of) ws.items)) }
    ensures told { IfErr result (IsNetTold ground.now.net.now) }
{
    let entities = ground.net.entities.as_slice();
    let mut machines = Vec::with_capacity(alloc, entities.len())?;
    for (number, entity) in entities.iter().enumerate() {
        let made = machine_if_modal(alloc, ground, number, entity)?;
        machines.push(made)?;
    }
    Ok(machines)
}

/// For each entity of a net its machine, where it is Modal: of such texts as come to these values, guards and actions that
/// are readable, and these types. Or a Modal entity that has none, with the cause.
pub fn machines_in(
    alloc: Global,
    net: &Net,
    values: &Values,
    typing: &Typing,
) -> Result<Vec<Option<Written>>, NetFault>
    requires valued { IsValued (net_view net.now) values.now }
    requires readable { AreReadable net.now values.now }
    ensures machines { IfOk result (λ ws. AreMachines net.now values.now (assignment typing.now) (map (option_map machine_of) ws.items)) }
    ensures told { IfErr result (IsNetTold net.now) }
{
    let entities = net.entities.as_slice();
    if !has_modal(entities) {
        let none = no_machines(alloc, net.entities.len())?;
        return Ok(none);
    }
    let ground = Ground::of(alloc, net, values, typing)?;
    let made = machines_on(alloc, &ground);
    drop(ground);
    made
}
