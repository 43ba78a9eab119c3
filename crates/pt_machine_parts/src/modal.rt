ghost use Rattle.std.specs.Prelude.{◌≡◌, IfOk, map};
ghost use Rattle.pt_document.specs.declared.job.Direction.TheVariants.{Input};
ghost use Rattle.pt_net.specs.Net.{entity_view};
ghost use Rattle.pt_machine.specs.Names as spec;
ghost use Rattle.pt_machine.specs.Names.{path_of};
ghost use Rattle.pt_machine_parts.specs.Views.{kids_view};
ghost use Rattle.pt_machine_parts.specs.Numbered.{AreNumbersOf};

use crate::names::{names_along, paths, state_names, variable_names};
use crate::numbers::Numbers;
use pt_document::Direction;
use pt_net::NetEntity;
use std::alloc::{AllocError, Global};

/// The own ports of a Modal entity by their names, each direction numbered for itself, and the names of its outputs in order.
pub struct OwnPorts<'a> {
    pub inputs: Numbers,
    pub outputs: Numbers,
    pub output_names: Vec<&'a str>,
}

/// What a Modal entity names: its ports, its states and its Variables by their names, and what stands in it by its path.
pub struct Own<'a> {
    pub ports: OwnPorts<'a>,
    pub states: Numbers,
    pub variables: Numbers,
    pub children: Numbers,
}

/// A Modal entity with what stands in it in the order of the document, whether a transparent composite does, and the numbers of
/// what it names.
pub struct ModalEntity<'a> {
    pub entity: &'a NetEntity,
    pub children: Vec<&'a NetEntity>,
    pub is_parted: bool,
    pub own: Own<'a>,
}

// The drops are by hand, so that letting go of these is one call in the proofs above.

impl<'a> Drop for OwnPorts<'a> {
    fn drop(self) {
        let OwnPorts {
            inputs: _,
            outputs: _,
            output_names: _,
        } = self;
    }
}

impl<'a> Drop for Own<'a> {
    fn drop(self) {
        let Own {
            ports: _,
            states: _,
            variables: _,
            children: _,
        } = self;
    }
}

impl<'a> Drop for ModalEntity<'a> {
    fn drop(self) {
        let ModalEntity {
            entity: _,
            children: _,
            is_parted: _,
            own: _,
        } = self;
    }
}

fn numbers_of_states(alloc: Global, entity: &NetEntity) -> Result<Numbers, AllocError>
    ensures { IfOk result (AreNumbersOf (spec.state_names (entity_view entity.now))) }
{
    let found = state_names(alloc, entity)?;
    Numbers::of(alloc, &found)
}

fn numbers_of_variables(alloc: Global, entity: &NetEntity) -> Result<Numbers, AllocError>
    ensures { IfOk result (AreNumbersOf (spec.variable_names (entity_view entity.now))) }
{
    let found = variable_names(alloc, entity)?;
    Numbers::of(alloc, &found)
}

fn numbers_of_inputs(alloc: Global, entity: &NetEntity) -> Result<Numbers, AllocError>
    ensures { IfOk result (AreNumbersOf (spec.names_along Input (entity_view entity.now).ports)) }
{
    let found = names_along(alloc, Direction::Input, entity)?;
    Numbers::of(alloc, &found)
}

fn numbers_of_paths(alloc: Global, entities: &[&NetEntity]) -> Result<Numbers, AllocError>
    ensures { IfOk result (AreNumbersOf (map path_of (kids_view entities.now))) }
{
    let found = paths(alloc, entities)?;
    Numbers::of(alloc, &found)
}

impl<'a> OwnPorts<'a> {
    ghost use Rattle.pt_machine_parts.specs.Own.{AreOwnPorts};

    /// The ports of an entity.
    fn of(alloc: Global, entity: &'a NetEntity) -> Result<OwnPorts<'a>, AllocError>
        ensures { IfOk result (AreOwnPorts (entity_view entity.now)) }
    {
        let output_names = names_along(alloc, Direction::Output, entity)?;
        let outputs = Numbers::of(alloc, &output_names)?;
        let inputs = numbers_of_inputs(alloc, entity)?;
        Ok(OwnPorts {
            inputs,
            outputs,
            output_names,
        })
    }
}

impl<'a> Own<'a> {
    ghost use Rattle.pt_machine_parts.specs.Own.{IsOwn};

    /// What an entity names in which these stand.
    fn of(
        alloc: Global,
        entity: &'a NetEntity,
        children: &[&NetEntity],
    ) -> Result<Own<'a>, AllocError>
        ensures { IfOk result (IsOwn (entity_view entity.now) (kids_view children.now)) }
    {
        let states = numbers_of_states(alloc, entity)?;
        let variables = numbers_of_variables(alloc, entity)?;
        let children = numbers_of_paths(alloc, children)?;
        let ports = OwnPorts::of(alloc, entity)?;
        Ok(Own {
            ports,
            states,
            variables,
            children,
        })
    }
}

impl<'a> ModalEntity<'a> {
    ghost use Rattle.pt_machine_parts.specs.Own.{entity_of, kids_of, IsNumbered};

    /// A Modal entity in which these stand.
    pub fn of(
        alloc: Global,
        entity: &'a NetEntity,
        children: Vec<&'a NetEntity>,
        is_parted: bool,
    ) -> Result<ModalEntity<'a>, AllocError>
        ensures numbered { IfOk result IsNumbered }
        ensures entity { IfOk result (λ modal. entity_of modal ≡ entity_view entity.now) }
        ensures children { IfOk result (λ modal. kids_of modal ≡ kids_view children.entry.items) }
        ensures parted { IfOk result (λ modal. modal.is_parted ≡ is_parted) }
    {
        let own = Own::of(alloc, entity, &children)?;
        Ok(ModalEntity {
            entity,
            children,
            is_parted,
            own,
        })
    }
}
