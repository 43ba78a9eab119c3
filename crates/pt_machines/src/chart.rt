// The transitions of a Modal entity at its states, and what they may name.
ghost use Rattle.std.specs.Prelude.{◌≡◌, ◌++◌, ◌∷◌, [], List, IfOk, IfErr, OnOk, map};
ghost use Rattle.std.specs.List.{All};
ghost use Rattle.pt_charts.specs.Readable.{IsReadable, texts_of};
ghost use Rattle.pt_net.specs.Net.{NetEntityTree};
ghost use Rattle.pt_chart.specs.Views.{transition_view, mode_view, names_view};
ghost use Rattle.pt_machine.specs.Machines as spec;
ghost use Rattle.pt_machine.specs.Machines.{Leaving as LeavingTree};
ghost use Rattle.pt_machine_parts.specs.Told.{IsTold};
ghost use Rattle.pt_machine_parts.specs.Own.{IsNumbered, IsFaultOf};
ghost use Rattle.pt_machines.specs.Sites.{entity_at, scope_at, kids_at};
ghost use Rattle.pt_machines.specs.Views.{leaving_view};
ghost use Rattle.pt_machines.specs.Charted.{with_leaving, AreAdded, AreNames};

use crate::site::Site;
use crate::transitions::{Leaving, leaving_of};
use pt_chart::{Mode, Names};
use pt_document::Direction;
use pt_firing::Values;
use pt_flow_base::PortTypes;
use pt_machine_parts::{ModalFault, typed_along, typed_variables};
use pt_value::{Text, Token};
use std::alloc::{AllocError, Global};

/// Puts a transition behind those of its kind that leave a state.
fn add_leaving(mode: &mut Mode, leaving: Leaving) -> Result<(), AllocError>
    ensures { OnOk result (mode_view mode.new ≡ with_leaving leaving.is_preemptive (transition_view leaving.made) (mode_view mode.old)) }
{
    let is_preemptive = leaving.is_preemptive;
    if is_preemptive {
        mode.preemptive.push(leaving.made)?;
        return Ok(());
    }
    mode.others.push(leaving.made)?;
    Ok(())
}

/// Puts a transition behind those of its kind that leave its state, if there is that state.
fn put(modes: &mut Vec<Mode>, leaving: Leaving) -> Result<(), AllocError>
    ensures { OnOk result ((e : NetEntityTree) (kids : List NetEntityTree) (xs : List LeavingTree) → map mode_view modes.old.items ≡ spec.modes_of e kids xs → map mode_view modes.new.items ≡ spec.modes_of e kids (xs ++ leaving_view leaving ∷ [])) }
{
    let from = leaving.from as usize;
    if from >= modes.len() {
        drop(leaving);
        return Ok(());
    }
    add_leaving(&mut modes[from], leaving)
}

/// Adds all transitions to the states that they leave, and the parameters that they name to those that are seen.
pub(crate) fn add_transitions(
    alloc: Global,
    site: &Site,
    modes: &mut Vec<Mode>,
    seen: &mut Vec<(Text, Token)>,
) -> Result<(), ModalFault>
    requires readable { All (IsReadable (scope_at site.now)) (texts_of (entity_at site.now).transitions) }
    requires numbered { IsNumbered site.now.modal }
    requires modes { map mode_view modes.old.items ≡ spec.modes_of (entity_at site.now) (kids_at site.now) [] }
    requires seen { seen.old.items ≡ [] }
    ensures ok { IfOk result (λ _. (xs : List LeavingTree) × AreAdded site.now (entity_at site.now).transitions xs (map mode_view modes.new.items) seen.new.items) }
    ensures told { IfErr result (IsTold (IsFaultOf site.now.modal)) }
{
    let transitions = site.modal.entity.transitions.as_slice();
    for transition in transitions {
        let leaving = leaving_of(alloc, site, transition, seen)?;
        put(modes, leaving)?;
    }
    Ok(())
}

/// What may be named.
pub(crate) fn names_of(
    alloc: Global,
    site: &Site,
    seen: Vec<(Text, Token)>,
) -> Result<Names, AllocError>
    ensures { IfOk result (λ names. AreNames site.now seen.items (names_view names)) }
{
    let entity = site.modal.entity;
    let number = site.number as usize;
    let ports = entity.ports.as_slice();
    let inputs = typed_along(alloc, Direction::Input, site.typing, number, ports)?;
    let outputs = typed_along(alloc, Direction::Output, site.typing, number, ports)?;
    let tokens = site.values.variables.as_slice();
    let given = entity.variables.as_slice();
    let variables = typed_variables(alloc, tokens, given)?;
    Ok(Names {
        inputs: PortTypes::of(inputs),
        outputs: PortTypes::of(outputs),
        variables: PortTypes::of(variables),
        parameters: Values::of(seen),
    })
}
