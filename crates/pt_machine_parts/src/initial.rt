ghost use Rattle.std.specs.Prelude.{◌≡◌, IfOk, IfErr, Some};
ghost use Rattle.pt_machine.specs.Names.{state_names, number_if};
ghost use Rattle.pt_machine_parts.specs.Told.{IsTold};
ghost use Rattle.pt_machine_parts.specs.Own.{entity_of, IsNumbered, IsFaultOf};

use crate::fault::ModalFault;
use crate::modal::ModalEntity;
use pt_machine::Cause;

/// The state in which a Modal entity begins, by its number. Refuses an entity without a state, and one whose initial state isn't
/// there.
pub fn initial_of(modal: &ModalEntity) -> Result<u32, ModalFault>
    requires { IsNumbered modal.now }
    ensures ok { IfOk result (λ initial. number_if (state_names (entity_of modal.now)) (entity_of modal.now).initial ≡ Some initial) }
    ensures told { IfErr result (IsTold (IsFaultOf modal.now)) }
{
    if modal.entity.states.is_empty() {
        return Err(ModalFault::Refused(Cause::NoState));
    }
    match &modal.entity.initial {
        Some(name) => {
            let number = modal.own.states.number(name.as_str(), Cause::Initial)?;
            Ok(number)
        }
        None => Err(ModalFault::Refused(Cause::Initial)),
    }
}
