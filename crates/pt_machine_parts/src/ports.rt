ghost use Rattle.std.specs.Prelude.{◌≡◌, IfOk, IfErr, map};
ghost use Rattle.std.specs.List.{AllZip, Contains};
ghost use Rattle.pt_document.specs.declared.job.Direction.TheVariants.{Output};
ghost use Rattle.pt_net.specs.Net.{entity_view};
ghost use Rattle.pt_chart.specs.Views.{ports_view};
ghost use Rattle.pt_machine.specs.Numbers.{number_of};
ghost use Rattle.pt_machine.specs.Names as spec;
ghost use Rattle.pt_machine.specs.Machines.{IsPortMap};
ghost use Rattle.pt_machine_parts.specs.Texts.{texts};
ghost use Rattle.pt_machine_parts.specs.Told.{IsTold};
ghost use Rattle.pt_machine_parts.specs.Numbered.{numbers_view, some_numbers, IsStrange};
ghost use Rattle.pt_machine_parts.specs.Own.{entity_of, kids_of, IsNumbered, IsFaultOf};

use crate::fault::ModalFault;
use crate::modal::ModalEntity;
use crate::names::names_along;
use crate::numbers::Numbers;
use pt_chart::Ports;
use pt_document::Direction;
use pt_machine::Cause;
use pt_net::NetEntity;
use std::alloc::{AllocError, Global};

/// The numbers of names, each of which has one.
fn all_numbers(alloc: Global, numbers: &Numbers, names: &[&str]) -> Result<Vec<u32>, ModalFault>
    ensures ok { IfOk result (λ found. some_numbers found.items ≡ map (numbers_view numbers.now) (texts names.now)) }
    ensures told { IfErr result (IsTold (IsStrange (numbers_view numbers.now) (texts names.now))) }
{
    let mut found = Vec::with_capacity(alloc, names.len())?;
    for name in names {
        let number = numbers.number(name, Cause::Port)?;
        found.push(number)?;
    }
    Ok(found)
}

/// The numbers of names, where they have one.
fn numbers_of(
    alloc: Global,
    numbers: &Numbers,
    names: &[&str],
) -> Result<Vec<Option<u32>>, AllocError>
    ensures { IfOk result (λ found. found.items ≡ map (numbers_view numbers.now) (texts names.now)) }
{
    let mut found = Vec::with_capacity(alloc, names.len())?;
    for name in names {
        found.push(numbers.get(name))?;
    }
    Ok(found)
}

/// For each port of this direction of a refinement the own port of its name.
fn numbers_along(
    alloc: Global,
    numbers: &Numbers,
    direction: Direction,
    child: &NetEntity,
) -> Result<Vec<u32>, ModalFault>
    ensures ok { IfOk result (λ found. some_numbers found.items ≡ map (numbers_view numbers.now) (spec.names_along direction (entity_view child.now).ports)) }
    ensures told { IfErr result (IsTold (IsStrange (numbers_view numbers.now) (spec.names_along direction (entity_view child.now).ports))) }
{
    let names = names_along(alloc, direction, child)?;
    all_numbers(alloc, numbers, &names)
}

/// For each own output the output of a refinement that has its name, if there is one.
fn gives_of(
    alloc: Global,
    output_names: &[&str],
    child: &NetEntity,
) -> Result<Vec<Option<u32>>, AllocError>
    ensures { IfOk result (λ gives. gives.items ≡ map (number_of (spec.names_along Output (entity_view child.now).ports)) (texts output_names.now)) }
{
    let names = names_along(alloc, Direction::Output, child)?;
    let numbers = Numbers::of(alloc, &names)?;
    numbers_of(alloc, &numbers, output_names)
}

/// The ports of a refinement by those of the Modal entity.
fn ports_of(alloc: Global, modal: &ModalEntity, child: &NetEntity) -> Result<Ports, ModalFault>
    requires own { IsNumbered modal.now }
    requires there { Contains (kids_of modal.now) (entity_view child.now) }
    ensures ok { IfOk result (λ ports. IsPortMap (entity_of modal.now) (entity_view child.now) (ports_view ports)) }
    ensures told { IfErr result (IsTold (IsFaultOf modal.now)) }
{
    let own = &modal.own.ports;
    let inputs = numbers_along(alloc, &own.inputs, Direction::Input, child)?;
    // No number of an own output is kept: this refuses an output that the entity hasn't.
    numbers_along(alloc, &own.outputs, Direction::Output, child)?;
    let outputs = gives_of(alloc, &own.output_names, child)?;
    Ok(Ports { inputs, outputs })
}

/// The ports of each refinement of a Modal entity. Refuses one with a port that the entity hasn't.
pub fn all_ports(alloc: Global, modal: &ModalEntity) -> Result<Vec<Ports>, ModalFault>
    requires { IsNumbered modal.now }
    ensures ok { IfOk result (λ ports. AllZip (IsPortMap (entity_of modal.now)) (kids_of modal.now) (map ports_view ports.items)) }
    ensures told { IfErr result (IsTold (IsFaultOf modal.now)) }
{
    let children = modal.children.as_slice();
    let mut ports = Vec::with_capacity(alloc, children.len())?;
    for child in children {
        let made = ports_of(alloc, modal, child)?;
        ports.push(made)?;
    }
    Ok(ports)
}
