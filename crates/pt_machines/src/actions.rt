// The actions of a transition.
ghost use Rattle.std.specs.Prelude.{◌≡◌, ◌++◌, IfOk, IfErr, Some, None, map};
ghost use Rattle.std.specs.List.{AllZip, All, Contains, filter_map};
ghost use Rattle.pt_language.specs.Expr.{tree_of};
ghost use Rattle.pt_document.specs.View.{transition_view};
ghost use Rattle.pt_scopes.specs.Texts.{names_in};
ghost use Rattle.pt_inequalities.specs.ModalScopes.{IsReadIn};
ghost use Rattle.pt_charts.specs.Readable.{IsReadable, output_text, set_text};
ghost use Rattle.pt_chart.specs.Views.{action_view};
ghost use Rattle.pt_machine.specs.Machines.{IsOutput, IsSet, action_tree, seen_token, seen_tokens};
ghost use Rattle.pt_machine_parts.specs.Told.{IsTold};
ghost use Rattle.pt_machine_parts.specs.Numbered.{numbers_view};
ghost use Rattle.pt_machine_parts.specs.Own.{IsNumbered, IsFaultOf};
ghost use Rattle.pt_machines.specs.Sites.{entity_at, scope_at};

use crate::site::Site;
use crate::texts::tree_in;
use pt_chart::Action;
use pt_document::Transition;
use pt_machine::Cause;
use pt_machine_parts::{ModalFault, Numbers};
use pt_value::{Text, Token};
use std::alloc::Global;

/// An action on what has this name and number. An entity that names one without a number is refused for this cause.
fn action(
    alloc: Global,
    site: &Site,
    numbers: &Numbers,
    name: &str,
    why: Cause,
    text: &str,
    seen: &mut Vec<(Text, Token)>,
) -> Result<Action, ModalFault>
    requires { IsReadable (scope_at site.now) text.now }
    ensures target { IfOk result (λ a. numbers_view numbers.now name.now ≡ Some a.target) }
    ensures read { IfOk result (λ a. IsReadIn (scope_at site.now) text.now (tree_of a.value)) }
    ensures seen { IfOk result (λ a. seen.new.items ≡ seen.old.items ++ filter_map (seen_token (scope_at site.now).around) (names_in (tree_of a.value))) }
    ensures told { IfErr result (IsTold (λ cause. (cause ≡ why) × (numbers_view numbers.now name.now ≡ None))) }
{
    let target = numbers.number(name, why)?;
    let value = tree_in(alloc, site, text, seen)?;
    Ok(Action { target, value })
}

/// The actions of a transition on outputs, in listed order.
pub(crate) fn outputs_of(
    alloc: Global,
    site: &Site,
    transition: &Transition,
    seen: &mut Vec<(Text, Token)>,
) -> Result<Vec<Action>, ModalFault>
    requires readable { All (IsReadable (scope_at site.now)) (map output_text (transition_view transition.now).output) }
    requires numbered { IsNumbered site.now.modal }
    requires there { Contains (entity_at site.now).transitions (transition_view transition.now) }
    ensures read { IfOk result (λ xs. AllZip (IsOutput (scope_at site.now) (entity_at site.now)) (transition_view transition.now).output (map action_view xs.items)) }
    ensures seen { IfOk result (λ xs. seen.new.items ≡ seen.old.items ++ seen_tokens (scope_at site.now).around (map action_tree (map action_view xs.items))) }
    ensures told { IfErr result (IsTold (IsFaultOf site.now.modal)) }
{
    let outputs = &site.modal.own.ports.outputs;
    let given = transition.output.as_slice();
    let mut actions = Vec::with_capacity(alloc, given.len())?;
    for output in given {
        let name = output.port.as_str();
        let text = output.value.as_str();
        let made = action(alloc, site, outputs, name, Cause::OutputAction, text, seen)?;
        actions.push(made)?;
    }
    Ok(actions)
}

/// The actions of a transition on Variables, in listed order.
pub(crate) fn sets_of(
    alloc: Global,
    site: &Site,
    transition: &Transition,
    seen: &mut Vec<(Text, Token)>,
) -> Result<Vec<Action>, ModalFault>
    requires readable { All (IsReadable (scope_at site.now)) (map set_text (transition_view transition.now).set) }
    requires numbered { IsNumbered site.now.modal }
    requires there { Contains (entity_at site.now).transitions (transition_view transition.now) }
    ensures read { IfOk result (λ xs. AllZip (IsSet (scope_at site.now) (entity_at site.now)) (transition_view transition.now).set (map action_view xs.items)) }
    ensures seen { IfOk result (λ xs. seen.new.items ≡ seen.old.items ++ seen_tokens (scope_at site.now).around (map action_tree (map action_view xs.items))) }
    ensures told { IfErr result (IsTold (IsFaultOf site.now.modal)) }
{
    let variables = &site.modal.own.variables;
    let given = transition.set.as_slice();
    let mut actions = Vec::with_capacity(alloc, given.len())?;
    for set in given {
        let name = set.name.as_str();
        let text = set.value.as_str();
        let made = action(alloc, site, variables, name, Cause::SetAction, text, seen)?;
        actions.push(made)?;
    }
    Ok(actions)
}
