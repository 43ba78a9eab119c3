// Tests that tell where the typing breaks in guards and actions of Modal entities.
ghost use Rattle.std.specs.Prelude.{◌≡◌, IfOk, map, option_map};
ghost use Rattle.std.specs.List.{list_any};
ghost use Rattle.pt_value.specs.Token.{value_of};
ghost use Rattle.pt_datatypes.specs.Token.{type_of_value};
ghost use Rattle.pt_types.specs.Ty.{type_of};
ghost use Rattle.pt_language.specs.Expr.{tree_of};
ghost use Rattle.pt_language.specs.Rule.{type_or_general};
ghost use Rattle.pt_typing.specs.Least.{assignment};
ghost use Rattle.pt_inequalities.specs.ModalScopes.{modal_types};
ghost use Rattle.pt_resolve.specs.Broken.{is_over_type};
ghost use Rattle.pt_resolve.specs.ModalFaults.{is_untyped, is_no_truth, guard_fails, output_fails, is_over_variable, set_fails, transition_fails, chart_fails, first_failing};
ghost use Rattle.pt_charts.specs.Views.{scope_view, action_view, transition_trees, chart_view};

use crate::bounds::is_over_type;
use pt_charts::{ActionTree, Chart, ModalScope, TransitionTrees};
use pt_language::Expr;
use pt_types::{Ty, below, type_of_token};
use pt_typing::Typing;
use pt_value::Token;
use std::alloc::{AllocError, Global};

/// Whether an expression has no type.
fn is_untyped(
    alloc: Global,
    typing: &Typing,
    scope: &ModalScope,
    tree: &Option<Expr>,
) -> Result<bool, AllocError>
    ensures { IfOk result (λ b. b ≡ is_untyped (assignment typing.now) (scope_view scope.now) (option_map tree_of tree.now)) }
{
    match tree {
        Some(tree) => {
            let term = scope.tree(alloc, tree)?;
            Ok(!typing.is_typed(alloc, &term)?)
        }
        None => Ok(false),
    }
}

/// The type of an expression, or general where it has none.
fn ty_of(alloc: Global, typing: &Typing, scope: &ModalScope, tree: &Expr) -> Result<Ty, AllocError>
    ensures { IfOk result (λ t. type_of t ≡ type_or_general (modal_types (assignment typing.now) (scope_view scope.now) (tree_of tree.now)) (tree_of tree.now)) }
{
    let term = scope.tree(alloc, tree)?;
    typing.tree_ty(alloc, &term)
}

/// Whether a guard is no truth value.
fn is_no_truth(
    alloc: Global,
    typing: &Typing,
    scope: &ModalScope,
    guard: &Option<Expr>,
) -> Result<bool, AllocError>
    ensures { IfOk result (λ b. b ≡ is_no_truth (assignment typing.now) (scope_view scope.now) (option_map tree_of guard.now)) }
{
    match guard {
        Some(tree) => {
            let ty = ty_of(alloc, typing, scope, tree)?;
            Ok(!below(&ty, &Ty::Boolean))
        }
        None => Ok(false),
    }
}

/// Whether a guard has no type or is no truth value.
fn guard_fails(
    alloc: Global,
    typing: &Typing,
    scope: &ModalScope,
    guard: &Option<Expr>,
) -> Result<bool, AllocError>
    ensures { IfOk result (λ b. b ≡ guard_fails (assignment typing.now) (scope_view scope.now) (option_map tree_of guard.now)) }
{
    if is_untyped(alloc, typing, scope, guard)? {
        return Ok(true);
    }
    is_no_truth(alloc, typing, scope, guard)
}

/// Whether one of some output actions has no type.
fn has_untyped_output(
    alloc: Global,
    typing: &Typing,
    scope: &ModalScope,
    actions: &[ActionTree],
) -> Result<bool, AllocError>
    ensures { IfOk result (λ b. b ≡ list_any (output_fails (assignment typing.now) (scope_view scope.now)) (map action_view actions.now)) }
{
    for action in actions {
        if is_untyped(alloc, typing, scope, &action.tree)? {
            return Ok(true);
        }
    }
    Ok(false)
}

/// The type of a token, if there is one.
fn token_type(alloc: Global, token: Option<&Token>) -> Result<Option<Ty>, AllocError>
    ensures { IfOk result (λ t. option_map type_of t ≡ option_map type_of_value (option_map (λ v. value_of v.now) token.entry)) }
{
    match token {
        Some(token) => Ok(Some(type_of_token(alloc, token)?)),
        None => Ok(None),
    }
}

/// Whether a set action gives what its Variable doesn't hold.
fn is_over_variable(
    alloc: Global,
    typing: &Typing,
    scope: &ModalScope,
    name: &str,
    tree: &Option<Expr>,
) -> Result<bool, AllocError>
    ensures { IfOk result (λ b. b ≡ is_over_variable (assignment typing.now) (scope_view scope.now) name.now (option_map tree_of tree.now)) }
{
    match tree {
        Some(tree) => {
            let ty = ty_of(alloc, typing, scope, tree)?;
            let bound = token_type(alloc, scope.variables.get(name))?;
            Ok(is_over_type(&ty, &bound))
        }
        None => Ok(false),
    }
}

/// Whether a set action has no type, or gives what its Variable doesn't hold.
fn set_fails(
    alloc: Global,
    typing: &Typing,
    scope: &ModalScope,
    action: &ActionTree,
) -> Result<bool, AllocError>
    ensures { IfOk result (λ b. b ≡ set_fails (assignment typing.now) (scope_view scope.now) (action_view action.now)) }
{
    if is_untyped(alloc, typing, scope, &action.tree)? {
        return Ok(true);
    }
    is_over_variable(alloc, typing, scope, action.name.as_str(), &action.tree)
}

/// Whether one of some set actions fails.
fn has_failing_set(
    alloc: Global,
    typing: &Typing,
    scope: &ModalScope,
    actions: &[ActionTree],
) -> Result<bool, AllocError>
    ensures { IfOk result (λ b. b ≡ list_any (set_fails (assignment typing.now) (scope_view scope.now)) (map action_view actions.now)) }
{
    for action in actions {
        if set_fails(alloc, typing, scope, action)? {
            return Ok(true);
        }
    }
    Ok(false)
}

/// Whether the typing breaks in a transition.
fn transition_fails(
    alloc: Global,
    typing: &Typing,
    scope: &ModalScope,
    transition: &TransitionTrees,
) -> Result<bool, AllocError>
    ensures { IfOk result (λ b. b ≡ transition_fails (assignment typing.now) (scope_view scope.now) (transition_trees transition.now)) }
{
    if guard_fails(alloc, typing, scope, &transition.guard)? {
        return Ok(true);
    }
    if has_untyped_output(alloc, typing, scope, &transition.output)? {
        return Ok(true);
    }
    has_failing_set(alloc, typing, scope, &transition.set)
}

/// Whether the typing breaks in a transition of a Modal entity.
fn chart_fails(alloc: Global, typing: &Typing, chart: &Chart) -> Result<bool, AllocError>
    ensures { IfOk result (λ b. b ≡ chart_fails (assignment typing.now) (chart_view chart.now)) }
{
    for transition in &chart.transitions {
        if transition_fails(alloc, typing, &chart.scope, transition)? {
            return Ok(true);
        }
    }
    Ok(false)
}

/// The number of the first Modal entity in which the typing breaks in a guard or an action.
pub(crate) fn first_failing(
    alloc: Global,
    typing: &Typing,
    charts: &[Chart],
) -> Result<Option<u32>, AllocError>
    ensures { IfOk result (λ found. found ≡ first_failing (assignment typing.now) (map chart_view charts.now)) }
{
    for chart in charts {
        if chart_fails(alloc, typing, chart)? {
            return Ok(Some(chart.scope.number));
        }
    }
    Ok(None)
}
