// The inequalities of output actions of Modal entities.
ghost use Rattle.std.specs.Prelude.{OnOk, map, option_map};
ghost use Rattle.pt_language.specs.Expr.{tree_of};
ghost use Rattle.pt_inequalities.specs.Modals.{of_action_at, of_action, of_actions, of_transitions, of_charts};
ghost use Rattle.pt_charts.specs.Views.{scope_view, action_view, transition_trees, chart_view};
ghost use Rattle.pt_places.specs.Views.{IsAdded};

use pt_charts::{ActionTree, Chart, ModalScope, TransitionTrees};
use pt_language::Expr;
use pt_places::add;
use pt_typing::{Inequality, Term, Variable};
use std::alloc::{AllocError, Global};

/// What an action gives is below a port.
fn add_action_at(
    alloc: Global,
    scope: &ModalScope,
    port: Option<usize>,
    tree: &Option<Expr>,
    inequalities: &mut Vec<Inequality>,
) -> Result<(), AllocError>
    ensures { OnOk result (IsAdded inequalities.old.items inequalities.new.items (of_action_at (scope_view scope.now) port (option_map tree_of tree.now))) }
{
    let Some(port) = port else {
        return Ok(());
    };
    match tree {
        Some(tree) => {
            let term = Box::new(alloc, scope.tree(alloc, tree)?)?;
            let port = Variable::Port(scope.number as usize, port);
            add(inequalities, port, Term::TreeOf(term))
        }
        None => Ok(()),
    }
}

/// What an output action gives is below its port.
fn add_action(
    alloc: Global,
    scope: &ModalScope,
    action: &ActionTree,
    inequalities: &mut Vec<Inequality>,
) -> Result<(), AllocError>
    ensures { OnOk result (IsAdded inequalities.old.items inequalities.new.items (of_action (scope_view scope.now) (action_view action.now))) }
{
    let port = scope.ports.get(action.name.as_str());
    add_action_at(alloc, scope, port, &action.tree, inequalities)
}

fn add_actions(
    alloc: Global,
    scope: &ModalScope,
    actions: &[ActionTree],
    inequalities: &mut Vec<Inequality>,
) -> Result<(), AllocError>
    ensures { OnOk result (IsAdded inequalities.old.items inequalities.new.items (of_actions (scope_view scope.now) (map action_view actions.now))) }
{
    for action in actions {
        add_action(alloc, scope, action, inequalities)?;
    }
    Ok(())
}

fn add_transitions(
    alloc: Global,
    scope: &ModalScope,
    transitions: &[TransitionTrees],
    inequalities: &mut Vec<Inequality>,
) -> Result<(), AllocError>
    ensures { OnOk result (IsAdded inequalities.old.items inequalities.new.items (of_transitions (scope_view scope.now) (map transition_trees transitions.now))) }
{
    for transition in transitions {
        add_actions(alloc, scope, &transition.output, inequalities)?;
    }
    Ok(())
}

/// The inequalities of output actions.
pub(crate) fn add_charts(
    alloc: Global,
    charts: &[Chart],
    inequalities: &mut Vec<Inequality>,
) -> Result<(), AllocError>
    ensures { OnOk result (IsAdded inequalities.old.items inequalities.new.items (of_charts (map chart_view charts.now))) }
{
    for chart in charts {
        add_transitions(alloc, &chart.scope, &chart.transitions, inequalities)?;
    }
    Ok(())
}
