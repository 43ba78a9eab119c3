//! What a chart keeps beside its guards and actions: the same with places for names, once and for all reactions.
ghost use Rattle.std.specs.Prelude.{List, ℕ, IfOk, IfSome, IfNone, map};
ghost use Rattle.pt_types.specs.Entry.{typed_entry};
ghost use Rattle.pt_types.specs.Ty.{type_of};
ghost use Rattle.pt_language.specs.Expr.{tree_of};
ghost use Rattle.pt_language.specs.Tree.{Name};
ghost use Rattle.pt_chart.specs.Machine.{NameTable};
ghost use Rattle.pt_guards.specs.Placed.{Says, StandsAt, IsUnbound, IsBoundAt, SayActions, SaysTransition, SayTransitions, SaysMode, SayModes};
ghost use Rattle.pt_chart.specs.Views.{action_view, transition_view, mode_view, names_view};

use crate::placed::{Place, Placed};
use pt_chart::{Action, Mode, Names, Transition};
use pt_language::Expr;
use pt_types::Ty;
use pt_value::{Text, Token};
use std::alloc::{AllocError, Global};

/// A transition, with places for names.
#[derive(Drop)]
pub struct PlacedTransition {
    pub guard: Placed,
    pub outputs: Vec<Placed>,
    pub sets: Vec<Placed>,
}

/// A state, with places for names.
#[derive(Drop)]
pub struct PlacedMode {
    pub preemptive: Vec<PlacedTransition>,
    pub others: Vec<PlacedTransition>,
}

/// The states of a chart, with places for names.
pub fn placed_modes(
    alloc: Global,
    modes: &[Mode],
    names: &Names,
) -> Result<Vec<PlacedMode>, AllocError>
    ensures { IfOk result (λ placed. SayModes (names_view names.now) placed.items (map mode_view modes.now)) }
{
    let mut placed = Vec::with_capacity(alloc, modes.len())?;
    for mode in modes {
        placed.push(placed_mode(alloc, mode, names)?)?;
    }
    Ok(placed)
}

fn placed_mode(alloc: Global, mode: &Mode, names: &Names) -> Result<PlacedMode, AllocError>
    ensures { IfOk result (λ p. SaysMode (names_view names.now) p (mode_view mode.now)) }
{
    let preemptive = placed_transitions(alloc, &mode.preemptive, names)?;
    let others = placed_transitions(alloc, &mode.others, names)?;
    Ok(PlacedMode { preemptive, others })
}

fn placed_transitions(
    alloc: Global,
    transitions: &[Transition],
    names: &Names,
) -> Result<Vec<PlacedTransition>, AllocError>
    ensures { IfOk result (λ placed. SayTransitions (names_view names.now) placed.items (map transition_view transitions.now)) }
{
    let mut placed = Vec::with_capacity(alloc, transitions.len())?;
    for transition in transitions {
        placed.push(placed_transition(alloc, transition, names)?)?;
    }
    Ok(placed)
}

fn placed_transition(
    alloc: Global,
    transition: &Transition,
    names: &Names,
) -> Result<PlacedTransition, AllocError>
    ensures { IfOk result (λ p. SaysTransition (names_view names.now) p (transition_view transition.now)) }
{
    let guard = placed(alloc, &transition.guard, names)?;
    let outputs = placed_actions(alloc, &transition.outputs, names)?;
    let sets = placed_actions(alloc, &transition.sets, names)?;
    Ok(PlacedTransition {
        guard,
        outputs,
        sets,
    })
}

fn placed_actions(
    alloc: Global,
    actions: &[Action],
    names: &Names,
) -> Result<Vec<Placed>, AllocError>
    ensures { IfOk result (λ placed. SayActions (names_view names.now) placed.items (map action_view actions.now)) }
{
    let mut made = Vec::with_capacity(alloc, actions.len())?;
    for action in actions {
        made.push(placed(alloc, &action.value, names)?)?;
    }
    Ok(made)
}

/// An expression, with places for names.
#[cycle(places)]
fn placed(alloc: Global, tree: &Expr, names: &Names) -> Result<Placed, AllocError>
    ensures { IfOk result (λ p. Says (names_view names.now) p (tree_of tree.now)) }
{
    match tree {
        Expr::Int(n) => Ok(Placed::Int(*n)),
        Expr::Bool(b) => Ok(Placed::Bool(*b)),
        Expr::Name(name) => Ok(place_of(names, name.as_str())),
        Expr::Negate(e) => Ok(Placed::Negate(boxed(alloc, e, names)?)),
        Expr::Not(e) => Ok(Placed::Not(boxed(alloc, e, names)?)),
        Expr::Binary(op, a, b) => {
            let a = boxed(alloc, a, names)?;
            Ok(Placed::Binary(*op, a, boxed(alloc, b, names)?))
        }
        Expr::Cond(test, a, b) => {
            let test = boxed(alloc, test, names)?;
            let a = boxed(alloc, a, names)?;
            Ok(Placed::Cond(test, a, boxed(alloc, b, names)?))
        }
        _ => Ok(Placed::Other),
    }
}

#[cycle(places)]
fn boxed(alloc: Global, tree: &Expr, names: &Names) -> Result<Box<Placed>, AllocError>
    ensures { IfOk result (λ p. Says (names_view names.now) p.value (tree_of tree.now)) }
{
    Ok(Box::new(alloc, placed(alloc, tree, names)?)?)
}

/// A name as the place from which it is read, or as the parameter that it stands for. A port hides a Variable of its name, and a
/// Variable a parameter. Of own outputs nothing is said.
fn place_of(names: &Names, name: &str) -> Placed
    ensures { Says (names_view names.now) result (Name name.now) }
{
    if let Some((port, ty)) = last_of(names.inputs.as_slice(), name) {
        return typed(ty, Place::Input(port));
    }
    if last_of(names.outputs.as_slice(), name).is_some() {
        return Placed::Other;
    }
    if let Some((variable, ty)) = last_of(names.variables.as_slice(), name) {
        return typed(ty, Place::Variable(variable));
    }
    match names.parameters.get(name) {
        Some(Token::Int(n)) => Placed::Int(*n),
        Some(Token::Bool(b)) => Placed::Bool(*b),
        _ => Placed::Other,
    }
}

/// A place whose tokens are of a type.
fn typed(ty: &Ty, place: Place) -> Placed
    ensures { (table : NameTable) (name : List ℕ) → StandsAt table name (type_of ty.now) place → Says table result (Name name) }
{
    match ty {
        Ty::Int => Placed::IntAt(place),
        Ty::Boolean => Placed::BoolAt(place),
        _ => Placed::Other,
    }
}

/// The last entry of a name, by its number.
fn last_of<'a>(entries: &'a [(Text, Ty)], name: &str) -> Option<(usize, &'a Ty)>
    ensures none { IfNone result (IsUnbound (map typed_entry entries.now) name.now) }
    ensures some { IfSome result (λ e. IsBoundAt (map typed_entry entries.now) name.now e.0 (type_of e.1.now)) }
{
    let mut left = entries.len();
    while left > 0 {
        left -= 1;
        let (other, ty) = &entries[left];
        if other.as_str() == name {
            return Some((left, ty));
        }
    }
    None
}
