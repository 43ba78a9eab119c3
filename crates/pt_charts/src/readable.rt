// Guards and actions of Modal entities that are no expressions over what they may name.
ghost use Rattle.std.specs.Prelude.{◌≡◌, IfOk, MatchOption, [], ◌∷◌, map, Some, None, length, option_map, if◌then◌else◌};
ghost use Rattle.std.specs.List.{list_all};
ghost use Rattle.pt_document.specs.View.{transition_view};
ghost use Rattle.pt_document.specs.declared.code.Code.TheVariants as code;
ghost use Rattle.pt_language.specs.Expr.{tree_of};
ghost use Rattle.pt_net.specs.Net.{entity_view};
ghost use Rattle.pt_scopes.specs.Texts.{names_in};
ghost use Rattle.pt_scopes.specs.Valued as valued;
ghost use Rattle.pt_inequalities.specs.Frames.{frames_of};
ghost use Rattle.pt_inequalities.specs.ModalScopes.{is_in_scope, modal_scope};
ghost use Rattle.pt_charts.specs.Readable.{output_text, set_text, transition_texts, texts_of, IsFoundIn, IsEntityReadable, IsEntityUnreadable, AreReadableBelow, IsFirstOf, AreReadable, IsUnreadableAt, ReadableTextsAreClean};
ghost use Rattle.pt_frames.specs.Views.{frames_view};
ghost use Rattle.pt_charts.specs.Views.{scope_view};

use crate::modal_scope::ModalScope;
use pt_document::{Code, OutputAction, SetAction, Transition};
use pt_expr_text::parse;
use pt_frames::{Frames, is_modal, values_at};
use pt_language::{Expr, ParseFault};
use pt_net::{Net, NetEntity};
use pt_scopes::{EntityValues, Values};
use std::alloc::{AllocError, Global};

/// For what an expression is refused, if it names what isn't in scope.
fn names_fault(alloc: Global, scope: &ModalScope, tree: &Expr) -> Result<Option<Code>, AllocError>
    ensures { IfOk result (λ found. found ≡ (if list_all (is_in_scope (scope_view scope.now)) (names_in (tree_of tree.now)) then None else Some code.ExprName)) }
{
    if scope.has_names_of(alloc, tree)? {
        Ok(None)
    } else {
        Ok(Some(Code::ExprName))
    }
}

/// For what a text is refused, if it is.
fn text_fault(alloc: Global, scope: &ModalScope, text: &str) -> Result<Option<Code>, AllocError>
    ensures { IfOk result (IsFoundIn (scope_view scope.now) (text.now ∷ [])) }
{
    match parse(alloc, text) {
        Ok(tree) => names_fault(alloc, scope, &tree),
        Err(ParseFault::Syntax) => Ok(Some(Code::ExprSyntax)),
        Err(ParseFault::Deep) => Ok(Some(Code::Limit)),
        Err(ParseFault::Memory) => Err(AllocError),
    }
}

/// For what the first of some output actions is refused that is.
fn outputs_fault(
    alloc: Global,
    scope: &ModalScope,
    actions: &[OutputAction],
) -> Result<Option<Code>, AllocError>
    ensures { IfOk result (IsFoundIn (scope_view scope.now) (map output_text actions.now)) }
{
    for action in actions {
        if let Some(code) = text_fault(alloc, scope, action.value.as_str())? {
            return Ok(Some(code));
        }
    }
    Ok(None)
}

/// For what the first of some set actions is refused that is.
fn sets_fault(
    alloc: Global,
    scope: &ModalScope,
    actions: &[SetAction],
) -> Result<Option<Code>, AllocError>
    ensures { IfOk result (IsFoundIn (scope_view scope.now) (map set_text actions.now)) }
{
    for action in actions {
        if let Some(code) = text_fault(alloc, scope, action.value.as_str())? {
            return Ok(Some(code));
        }
    }
    Ok(None)
}

/// For what the first of the texts of a transition is refused that is.
fn transition_fault(
    alloc: Global,
    scope: &ModalScope,
    transition: &Transition,
) -> Result<Option<Code>, AllocError>
    ensures { IfOk result (IsFoundIn (scope_view scope.now) (transition_texts (transition_view transition.now))) }
{
    if let Some(code) = text_fault(alloc, scope, transition.guard.as_str())? {
        return Ok(Some(code));
    }
    if let Some(code) = outputs_fault(alloc, scope, &transition.output)? {
        return Ok(Some(code));
    }
    sets_fault(alloc, scope, &transition.set)
}

/// For what the first of the texts of some transitions is refused that is.
fn transitions_fault(
    alloc: Global,
    scope: &ModalScope,
    transitions: &[Transition],
) -> Result<Option<Code>, AllocError>
    ensures { IfOk result (IsFoundIn (scope_view scope.now) (texts_of (map transition_view transitions.now))) }
{
    for transition in transitions {
        if let Some(code) = transition_fault(alloc, scope, transition)? {
            return Ok(Some(code));
        }
    }
    Ok(None)
}

/// For what the first of the guards and actions of a Modal entity is refused that is.
fn chart_fault(
    alloc: Global,
    frames: &Frames,
    number: usize,
    entity: &NetEntity,
    values: &EntityValues,
) -> Result<Option<Code>, AllocError>
    ensures { IfOk result (IsFoundIn (modal_scope (frames_view frames.now) number (entity_view entity.now) (valued.entity_view values.now)) (texts_of (entity_view entity.now).transitions)) }
{
    let scope = ModalScope::of(alloc, frames, number, entity, values)?;
    let found = transitions_fault(alloc, &scope, &entity.transitions);
    drop(scope);
    found
}

/// The same of an entity that is Modal and has values; of another nothing is refused.
fn entity_fault(
    alloc: Global,
    frames: &Frames,
    number: usize,
    entity: &NetEntity,
    values: Option<&EntityValues>,
) -> Result<Option<Code>, AllocError>
    ensures { IfOk result (λ found. MatchOption found (IsEntityReadable (frames_view frames.now) number (entity_view entity.now) (option_map (λ v. valued.entity_view v.now) values.entry)) (IsEntityUnreadable (frames_view frames.now) number (entity_view entity.now) (option_map (λ v. valued.entity_view v.now) values.entry))) }
{
    if !is_modal(entity) {
        return Ok(None);
    }
    match values {
        Some(values) => chart_fault(alloc, frames, number, entity, values),
        None => Ok(None),
    }
}

/// The first of some entities that is refused for a guard or an action, with the cause.
fn first_unreadable(
    alloc: Global,
    frames: &Frames,
    entities: &[NetEntity],
    values: &[EntityValues],
) -> Result<Option<(Code, usize)>, AllocError>
    ensures { IfOk result (λ found. MatchOption found (AreReadableBelow (frames_view frames.now) (map entity_view entities.now) (map valued.entity_view values.now) (length (map entity_view entities.now))) (λ at. IsFirstOf (frames_view frames.now) (map entity_view entities.now) (map valued.entity_view values.now) at.0 at.1)) }
{
    for (number, entity) in entities.iter().enumerate() {
        let own = values_at(values, number);
        if let Some(code) = entity_fault(alloc, frames, number, entity, own)? {
            return Ok(Some((code, number)));
        }
    }
    Ok(None)
}

/// The first Modal entity that is refused for a guard or an action, by its number, with the cause: a text is too deep, is no
/// expression, or names what isn't in scope. Of several such texts in it the first one decides: transitions are taken in order, and
/// in each the guard, then the output actions, then the set actions.
pub fn unreadable(
    alloc: Global,
    frames: &Frames,
    net: &Net,
    values: &Values,
) -> Result<Option<(Code, usize)>, AllocError>
    requires { frames_view frames.now ≡ frames_of net.now values.now }
    ensures { IfOk result (λ found. MatchOption found (AreReadable net.now values.now) (λ at. IsUnreadableAt net.now values.now at.0 at.1)) }
{
    first_unreadable(alloc, frames, &net.entities, &values.entities)
}

/// Where guards and actions are expressions over what they may name, none of them is refused.
pub fn readable_texts_are_clean()
    ensures { ReadableTextsAreClean }
{}
