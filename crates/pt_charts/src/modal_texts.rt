// What the texts of a Modal entity read as.
ghost use Rattle.std.specs.Prelude.{◌≡◌, IfOk, Some, None, map, option_map, if◌then◌else◌};
ghost use Rattle.std.specs.List.{AllZip, list_all};
ghost use Rattle.pt_document.specs.View.{transition_view};
ghost use Rattle.pt_language.specs.Expr.{tree_of};
ghost use Rattle.pt_scopes.specs.Texts.{names_in};
ghost use Rattle.pt_inequalities.specs.ModalScopes.{is_in_scope};
ghost use Rattle.pt_inequalities.specs.Modals.{IsParsedAs, IsReadAs, IsOutputRead, IsSetRead, IsTransitionRead};
ghost use Rattle.pt_charts.specs.Views.{scope_view, action_view, transition_trees};

use crate::modal_scope::ModalScope;
use pt_document::{OutputAction, SetAction, Transition};
use pt_expr_text::parse;
use pt_language::{Expr, ParseFault};
use pt_value::Text;
use std::alloc::{AllocError, Global};

/// An action: the name of its port or its Variable, and the tree that its text reads as, if one does.
#[derive(Drop)]
pub struct ActionTree {
    pub name: Text,
    pub tree: Option<Expr>,
}

/// The trees that the texts of a transition read as.
#[derive(Drop)]
pub struct TransitionTrees {
    pub guard: Option<Expr>,
    pub output: Vec<ActionTree>,
    pub set: Vec<ActionTree>,
}

/// The tree that a text reads as, or `None` where it is too deep or no tree reads as it.
fn parsed(alloc: Global, text: &str) -> Result<Option<Expr>, AllocError>
    ensures { IfOk result (λ t. IsParsedAs text.now (option_map tree_of t)) }
{
    match parse(alloc, text) {
        Ok(tree) => Ok(Some(tree)),
        Err(ParseFault::Syntax) => Ok(None),
        Err(ParseFault::Deep) => Ok(None),
        Err(ParseFault::Memory) => Err(AllocError),
    }
}

/// A tree, where all its names are in scope.
fn in_scope(alloc: Global, scope: &ModalScope, tree: Expr) -> Result<Option<Expr>, AllocError>
    ensures { IfOk result (λ t. option_map tree_of t ≡ (if list_all (is_in_scope (scope_view scope.now)) (names_in (tree_of tree)) then Some (tree_of tree) else None)) }
{
    if scope.has_names_of(alloc, &tree)? {
        Ok(Some(tree))
    } else {
        Ok(None)
    }
}

/// The tree that a text reads as, where all its names are in scope.
fn read_text(alloc: Global, scope: &ModalScope, text: &str) -> Result<Option<Expr>, AllocError>
    ensures { IfOk result (λ t. IsReadAs (scope_view scope.now) text.now (option_map tree_of t)) }
{
    match parsed(alloc, text)? {
        Some(tree) => in_scope(alloc, scope, tree),
        None => Ok(None),
    }
}

fn read_output(
    alloc: Global,
    scope: &ModalScope,
    action: &OutputAction,
) -> Result<ActionTree, AllocError>
    ensures { IfOk result (λ x. IsOutputRead (scope_view scope.now) action.now (action_view x)) }
{
    let tree = read_text(alloc, scope, action.value.as_str())?;
    let name = action.port.copy(alloc)?;
    Ok(ActionTree { name, tree })
}

fn read_set(alloc: Global, scope: &ModalScope, action: &SetAction) -> Result<ActionTree, AllocError>
    ensures { IfOk result (λ x. IsSetRead (scope_view scope.now) action.now (action_view x)) }
{
    let tree = read_text(alloc, scope, action.value.as_str())?;
    let name = action.name.copy(alloc)?;
    Ok(ActionTree { name, tree })
}

fn read_outputs(
    alloc: Global,
    scope: &ModalScope,
    actions: &[OutputAction],
) -> Result<Vec<ActionTree>, AllocError>
    ensures { IfOk result (λ xs. AllZip (IsOutputRead (scope_view scope.now)) actions.now (map action_view xs.items)) }
{
    let mut trees = Vec::with_capacity(alloc, actions.len())?;
    for action in actions {
        trees.push(read_output(alloc, scope, action)?)?;
    }
    Ok(trees)
}

fn read_sets(
    alloc: Global,
    scope: &ModalScope,
    actions: &[SetAction],
) -> Result<Vec<ActionTree>, AllocError>
    ensures { IfOk result (λ xs. AllZip (IsSetRead (scope_view scope.now)) actions.now (map action_view xs.items)) }
{
    let mut trees = Vec::with_capacity(alloc, actions.len())?;
    for action in actions {
        trees.push(read_set(alloc, scope, action)?)?;
    }
    Ok(trees)
}

fn read_transition(
    alloc: Global,
    scope: &ModalScope,
    transition: &Transition,
) -> Result<TransitionTrees, AllocError>
    ensures { IfOk result (λ x. IsTransitionRead (scope_view scope.now) (transition_view transition.now) (transition_trees x)) }
{
    Ok(TransitionTrees {
        guard: read_text(alloc, scope, transition.guard.as_str())?,
        output: read_outputs(alloc, scope, &transition.output)?,
        set: read_sets(alloc, scope, &transition.set)?,
    })
}

/// What the texts of some transitions read as.
pub(crate) fn read_transitions(
    alloc: Global,
    scope: &ModalScope,
    transitions: &[Transition],
) -> Result<Vec<TransitionTrees>, AllocError>
    ensures { IfOk result (λ xs. AllZip (IsTransitionRead (scope_view scope.now)) (map transition_view transitions.now) (map transition_trees xs.items)) }
{
    let mut trees = Vec::with_capacity(alloc, transitions.len())?;
    for transition in transitions {
        trees.push(read_transition(alloc, scope, transition)?)?;
    }
    Ok(trees)
}
