ghost use Rattle.std.specs.Prelude.{◌≡◌, ◌++◌, IfOk, IfErr};
ghost use Rattle.std.specs.List.{All, Contains};
ghost use Rattle.pt_document.specs.View.{transition_view};
ghost use Rattle.pt_charts.specs.Readable.{IsReadable, transition_texts};
ghost use Rattle.pt_machine.specs.Machines.{IsLeaving, trees_in, seen_tokens};
ghost use Rattle.pt_machine_parts.specs.Told.{IsTold};
ghost use Rattle.pt_machine_parts.specs.Own.{IsNumbered, IsFaultOf};
ghost use Rattle.pt_machines.specs.Sites.{entity_at, scope_at};
ghost use Rattle.pt_machines.specs.Views.{leaving_view};

use crate::actions::{outputs_of, sets_of};
use crate::site::Site;
use crate::texts::tree_in;
use pt_chart::Transition;
use pt_document::Transition as GivenTransition;
use pt_machine::Cause;
use pt_machine_parts::ModalFault;
use pt_value::{Text, Token};
use std::alloc::Global;

/// A transition, with the number of the state that it leaves, and whether it is preemptive.
#[derive(Drop)]
pub(crate) struct Leaving {
    pub(crate) from: u32,
    pub(crate) is_preemptive: bool,
    pub(crate) made: Transition,
}

/// A transition as it is written, and the parameters that it names.
pub(crate) fn leaving_of(
    alloc: Global,
    site: &Site,
    transition: &GivenTransition,
    seen: &mut Vec<(Text, Token)>,
) -> Result<Leaving, ModalFault>
    requires readable { All (IsReadable (scope_at site.now)) (transition_texts (transition_view transition.now)) }
    requires numbered { IsNumbered site.now.modal }
    requires there { Contains (entity_at site.now).transitions (transition_view transition.now) }
    ensures read { IfOk result (λ x. IsLeaving (scope_at site.now) (entity_at site.now) (transition_view transition.now) (leaving_view x)) }
    ensures seen { IfOk result (λ x. seen.new.items ≡ seen.old.items ++ seen_tokens (scope_at site.now).around (trees_in (leaving_view x))) }
    ensures told { IfErr result (IsTold (IsFaultOf site.now.modal)) }
{
    let states = &site.modal.own.states;
    let left = transition.from.as_str();
    let from = states.number(left, Cause::From)?;
    let entered = transition.to.as_str();
    let target = states.number(entered, Cause::To)?;
    let text = transition.guard.as_str();
    let guard = tree_in(alloc, site, text, seen)?;
    let outputs = outputs_of(alloc, site, transition, seen)?;
    let sets = sets_of(alloc, site, transition, seen)?;
    Ok(Leaving {
        from,
        is_preemptive: transition.preemptive,
        made: Transition {
            guard,
            outputs,
            sets,
            target,
            history: transition.history,
        },
    })
}
