ghost use Rattle.std.specs.Prelude.{◌≡◌, IfOk, IfErr, true, false};
ghost use Rattle.std.specs.List.{All, list_all};
ghost use Rattle.std.specs.Option.{is_some};
ghost use Rattle.pt_net.specs.Net.{entity_view};
ghost use Rattle.pt_machine.specs.Children as spec;
ghost use Rattle.pt_machine_parts.specs.Told.{IsTold};
ghost use Rattle.pt_machine_parts.specs.Views.{kids_view};
ghost use Rattle.pt_machine_parts.specs.Own.{kids_of, IsFaultOf};

use crate::fault::ModalFault;
use crate::modal::ModalEntity;
use pt_machine::Cause;
use pt_net::NetEntity;

fn is_directed(entity: &NetEntity) -> bool
    ensures { result ≡ is_some (entity_view entity.now).director }
{
    match &entity.director {
        Some(_) => true,
        None => false,
    }
}

/// Whether an entity is a composite with a director, or Modal.
fn is_opaque(entity: &NetEntity) -> bool
    ensures { result ≡ spec.is_opaque (entity_view entity.now) }
{
    is_directed(entity) || entity.class.as_str() == "Modal"
}

fn are_opaque(entities: &[&NetEntity]) -> bool
    ensures { result ≡ list_all spec.is_opaque (kids_view entities.now) }
{
    for entity in entities {
        if !is_opaque(entity) {
            return false;
        }
    }
    true
}

/// Refuses a Modal entity in which a library actor or a transparent composite stands.
pub fn check_children(modal: &ModalEntity) -> Result<(), ModalFault>
    ensures whole { IfOk result (λ _. modal.now.is_parted ≡ false) }
    ensures opaque { IfOk result (λ _. All (λ kid. spec.is_opaque kid ≡ true) (kids_of modal.now)) }
    ensures told { IfErr result (IsTold (IsFaultOf modal.now)) }
{
    let is_parted = modal.is_parted;
    if is_parted {
        return Err(ModalFault::Refused(Cause::PlainChild));
    }
    if !are_opaque(&modal.children) {
        return Err(ModalFault::Refused(Cause::PlainChild));
    }
    Ok(())
}
