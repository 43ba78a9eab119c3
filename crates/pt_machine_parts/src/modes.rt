ghost use Rattle.std.specs.Prelude.{◌≡◌, [], IfOk, IfErr, Some, None, map};
ghost use Rattle.std.specs.List.{All, Contains};
ghost use Rattle.pt_document.specs.Names.{below};
ghost use Rattle.pt_chart.specs.Views.{mode_view};
ghost use Rattle.pt_machine.specs.declared.cause.Cause.TheVariants.{Refinement};
ghost use Rattle.pt_machine.specs.Numbers.{number_of};
ghost use Rattle.pt_machine.specs.Names as spec;
ghost use Rattle.pt_machine.specs.Names.{path_of};
ghost use Rattle.pt_machine.specs.Machines as machines;
ghost use Rattle.pt_machine.specs.Machines.{IsRefined};
ghost use Rattle.pt_machine_parts.specs.Told.{IsTold};
ghost use Rattle.pt_machine_parts.specs.Own.{entity_of, kids_of, IsNumbered, IsFaultOf};
ghost use Rattle.pt_machine_parts.specs.Claims.{bare_mode, AreNamedOnce};

use crate::claims::check_claims;
use crate::fault::ModalFault;
use crate::modal::ModalEntity;
use pt_chart::Mode;
use pt_document::{State, path_below};
use pt_machine::Cause;
use std::alloc::{AllocError, Global};

/// The number of what has this name in the Modal entity.
fn refinement_named(alloc: Global, modal: &ModalEntity, name: &str) -> Result<u32, ModalFault>
    requires { IsNumbered modal.now }
    ensures ok { IfOk result (λ number. number_of (map path_of (kids_of modal.now)) (below (entity_of modal.now).path name.now) ≡ Some number) }
    ensures told { IfErr result (IsTold (λ cause. (cause ≡ Refinement) × (number_of (map path_of (kids_of modal.now)) (below (entity_of modal.now).path name.now) ≡ None))) }
{
    let entity_path = modal.entity.path.as_str();
    let text = path_below(alloc, entity_path, name)?;
    let path = text.as_str();
    modal.own.children.number(path, Cause::Refinement)
}

/// The number of the refinement that a state names, if it names one.
fn refinement_of(
    alloc: Global,
    modal: &ModalEntity,
    state: &State,
) -> Result<Option<u32>, ModalFault>
    requires own { IsNumbered modal.now }
    requires there { Contains (entity_of modal.now).states state.now }
    ensures number { IfOk result (λ number. number ≡ spec.refinement_of (entity_of modal.now) (kids_of modal.now) state.now) }
    ensures named { IfOk result (λ _. IsRefined (entity_of modal.now) (kids_of modal.now) state.now) }
    ensures told { IfErr result (IsTold (IsFaultOf modal.now)) }
{
    match &state.refinement {
        Some(name) => {
            let number = refinement_named(alloc, modal, name.as_str())?;
            Ok(Some(number))
        }
        None => Ok(None),
    }
}

/// The numbers of the refinements that the states name, where they name one.
fn refinements_of(alloc: Global, modal: &ModalEntity) -> Result<Vec<Option<u32>>, ModalFault>
    requires { IsNumbered modal.now }
    ensures numbers { IfOk result (λ found. found.items ≡ map (spec.refinement_of (entity_of modal.now) (kids_of modal.now)) (entity_of modal.now).states) }
    ensures named { IfOk result (λ _. All (IsRefined (entity_of modal.now) (kids_of modal.now)) (entity_of modal.now).states) }
    ensures told { IfErr result (IsTold (IsFaultOf modal.now)) }
{
    let states = modal.entity.states.as_slice();
    let mut found = Vec::with_capacity(alloc, states.len())?;
    for state in states {
        let refinement = refinement_of(alloc, modal, state)?;
        found.push(refinement)?;
    }
    Ok(found)
}

/// A state with this refinement, which no transition leaves yet.
fn bare_mode(alloc: Global, refinement: Option<u32>) -> Mode
    ensures { mode_view result ≡ bare_mode refinement }
{
    let preemptive = Vec::new(alloc);
    let others = Vec::new(alloc);
    Mode {
        refinement,
        preemptive,
        others,
    }
}

fn bare_modes(alloc: Global, refinements: &[Option<u32>]) -> Result<Vec<Mode>, AllocError>
    ensures { IfOk result (λ modes. map mode_view modes.items ≡ map bare_mode refinements.now) }
{
    let mut modes = Vec::with_capacity(alloc, refinements.len())?;
    for refinement in refinements {
        modes.push(bare_mode(alloc, *refinement))?;
    }
    Ok(modes)
}

/// The states of a Modal entity with their refinements, which no transition leaves yet. Refuses a refinement that isn't there, or
/// is that of two states, and what stands there and is that of none.
pub fn modes_of(alloc: Global, modal: &ModalEntity) -> Result<Vec<Mode>, ModalFault>
    requires { IsNumbered modal.now }
    ensures modes { IfOk result (λ modes. map mode_view modes.items ≡ machines.modes_of (entity_of modal.now) (kids_of modal.now) []) }
    ensures refinements { IfOk result (λ _. AreNamedOnce (entity_of modal.now) (kids_of modal.now)) }
    ensures told { IfErr result (IsTold (IsFaultOf modal.now)) }
{
    let refinements = refinements_of(alloc, modal)?;
    let count = modal.children.len();
    let claims = refinements.as_slice();
    check_claims(alloc, count, claims)?;
    let modes = bare_modes(alloc, claims)?;
    Ok(modes)
}
