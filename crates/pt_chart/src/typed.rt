ghost use Rattle.std.specs.Prelude.{◌≡◌, List, ℕ, IfOk, OnOk, map};
ghost use Rattle.pt_language.specs.Expr.{tree_of};
ghost use Rattle.pt_types.specs.Entry.{typed_entry};
ghost use Rattle.pt_expr_type.specs.TypeEnv.{types_in};
ghost use Rattle.pt_formula.specs.Formula.{parameter_types, with_types};
ghost use Rattle.pt_chart.specs.Typed.{types_of, is_typed, are_typed_actions, is_typed_transition, are_typed_transitions, is_typed_mode, are_typed_modes, is_typed_machine};
ghost use Rattle.pt_chart.specs.Views.{action_view, transition_view, mode_view, names_view, machine_of};

use crate::written::{Action, Mode, Names, Transition, Written};
use pt_expr_type::{TypeEnv, type_of};
use pt_firing::Values;
use pt_language::{Expr, TypeFault};
use pt_types::{Ty, type_of_token};
use pt_value::Text;
use std::alloc::{AllocError, Global};

/// Whether all guards and actions have a type.
pub fn is_typed_machine(alloc: Global, written: &Written) -> Result<bool, AllocError>
    ensures { IfOk result (λ typed. typed ≡ is_typed_machine (machine_of written.now)) }
{
    let types = types_of(alloc, &written.names)?;
    are_typed_modes(alloc, &types, &written.modes)
}

/// An environment in which all names are bound to their types.
fn types_of(alloc: Global, names: &Names) -> Result<TypeEnv, AllocError>
    ensures { IfOk result (λ env. (name : List ℕ) → types_in env name ≡ types_of (names_view names.now) name) }
{
    let mut env = bound_types(alloc, &names.parameters)?;
    bind_types(&mut env, alloc, names.variables.as_slice())?;
    bind_types(&mut env, alloc, names.outputs.as_slice())?;
    bind_types(&mut env, alloc, names.inputs.as_slice())?;
    Ok(env)
}

/// An environment in which the parameters are bound to the types of their tokens.
fn bound_types(alloc: Global, values: &Values) -> Result<TypeEnv, AllocError>
    ensures { IfOk result (λ env. (name : List ℕ) → types_in env name ≡ parameter_types values.now name) }
{
    let mut env = TypeEnv::new(alloc);
    let entries = values.as_slice();
    // The first one under a name counts, and what is bound later replaces what was there.
    let mut left = entries.len();
    while left > 0 {
        left -= 1;
        let (name, value) = &entries[left];
        env.bind(name.as_str(), type_of_token(alloc, value)?)?;
    }
    Ok(env)
}

/// Binds each name to its type.
fn bind_types(env: &mut TypeEnv, alloc: Global, entries: &[(Text, Ty)]) -> Result<(), AllocError>
    ensures { OnOk result ((name : List ℕ) → types_in env.new name ≡ with_types (map typed_entry entries.now) (types_in env.old) name) }
{
    for (name, ty) in entries {
        env.bind(name.as_str(), ty.copy(alloc)?)?;
    }
    Ok(())
}

fn are_typed_modes(alloc: Global, types: &TypeEnv, modes: &[Mode]) -> Result<bool, AllocError>
    ensures { IfOk result (λ typed. typed ≡ are_typed_modes (types_in types.now) (map mode_view modes.now)) }
{
    for mode in modes {
        if !is_typed_mode(alloc, types, mode)? {
            return Ok(false);
        }
    }
    Ok(true)
}

fn is_typed_mode(alloc: Global, types: &TypeEnv, mode: &Mode) -> Result<bool, AllocError>
    ensures { IfOk result (λ typed. typed ≡ is_typed_mode (types_in types.now) (mode_view mode.now)) }
{
    Ok(
        are_typed_transitions(alloc, types, &mode.preemptive)?
            && are_typed_transitions(alloc, types, &mode.others)?,
    )
}

fn are_typed_transitions(
    alloc: Global,
    types: &TypeEnv,
    transitions: &[Transition],
) -> Result<bool, AllocError>
    ensures { IfOk result (λ typed. typed ≡ are_typed_transitions (types_in types.now) (map transition_view transitions.now)) }
{
    for transition in transitions {
        if !is_typed_transition(alloc, types, transition)? {
            return Ok(false);
        }
    }
    Ok(true)
}

fn is_typed_transition(
    alloc: Global,
    types: &TypeEnv,
    transition: &Transition,
) -> Result<bool, AllocError>
    ensures { IfOk result (λ typed. typed ≡ is_typed_transition (types_in types.now) (transition_view transition.now)) }
{
    Ok(
        is_typed(alloc, types, &transition.guard)?
            && are_typed_actions(alloc, types, &transition.outputs)?
            && are_typed_actions(alloc, types, &transition.sets)?,
    )
}

fn are_typed_actions(alloc: Global, types: &TypeEnv, actions: &[Action]) -> Result<bool, AllocError>
    ensures { IfOk result (λ typed. typed ≡ are_typed_actions (types_in types.now) (map action_view actions.now)) }
{
    for action in actions {
        if !is_typed(alloc, types, &action.value)? {
            return Ok(false);
        }
    }
    Ok(true)
}

/// Whether an expression has a type where its names have theirs.
fn is_typed(alloc: Global, types: &TypeEnv, tree: &Expr) -> Result<bool, AllocError>
    ensures { IfOk result (λ typed. typed ≡ is_typed (types_in types.now) (tree_of tree.now)) }
{
    match type_of(alloc, tree, types) {
        Ok(_) => Ok(true),
        Err(TypeFault::Memory) => Err(AllocError),
        Err(TypeFault::Name | TypeFault::Clash) => Ok(false),
    }
}
