//! Reactions that give one integer at most, on the one own output. The Variables are set in place.
ghost use Rattle.std.specs.Prelude.{◌≡◌, [], ◌∷◌, ◌<◌, ℕ, IfSome, IfNone, map, drop, true, false, None};
ghost use Rattle.pt_meaning.specs.Streams.{change_at};
ghost use Rattle.pt_value.specs.declared.token.Token.TheVariants.{Int as TheInt};
ghost use Rattle.pt_chart.specs.Machine.{NameTable};
ghost use Rattle.pt_chart.specs.Names.{names_in};
ghost use Rattle.pt_guards.specs.Acts.{put_all, set_all, reacted_by};
ghost use Rattle.pt_chart.specs.Machine.{mode_at};
ghost use Rattle.pt_guards.specs.Placed.{SaysAction, SayActions, SayTransitions, SaysMode};
ghost use Rattle.pt_chart.specs.Views.{action_view, transition_view, mode_view};
ghost use Rattle.pt_guards.specs.Reads.{reads_view};
ghost use Rattle.pt_transitions.specs.Alone.{signal_of, by_both, reads_alone, ComesTo, IsOf};

use pt_chart::{Action, Mode, Transition, refinement_of};
use pt_firing::Inputs;
use pt_guards::{
    Choice, Placed, PlacedMode, PlacedTransition, Reads, assign, chosen_quickly, operand,
};
use pt_value::Token;
use std::mem;

/// What a reaction comes to that gives one integer at most: the state in which the machine is then, and the integer.
#[derive(Clone, Copy, Debug)]
pub struct Signal {
    pub target: u32,
    pub given: Option<i64>,
}

/// At most so many set actions run in place.
const MOST_SETS: usize = 16;

/// What comes of a state: of its preemptive transitions, and then of the others.
#[inline(always)]
pub(crate) fn signal_in(
    modes: &[Mode],
    mode: u32,
    written: &Mode,
    placed: &PlacedMode,
    values: &mut Vec<Token>,
    inputs: &Inputs<'_>,
) -> Option<Signal>
    requires unrefined { (mode_at (map mode_view modes.now) mode).refinement ≡ None }
    ensures kept { IfNone result (values.new.items ≡ values.old.items) }
    ensures comes { IfSome result (λ s. (table : NameTable) → SaysMode table placed.now (mode_view written.now) → ((mode_at (map mode_view modes.now) s.target).refinement ≡ None) × ComesTo mode values.old.items (by_both (reacted_by table mode (mode_view written.now).preemptive (reads_alone values.old.items inputs.now)) (reacted_by table mode (mode_view written.now).others (reads_alone values.old.items inputs.now))) s values.new.items) }
{
    match early_signal(
        modes,
        &written.preemptive,
        &placed.preemptive,
        values,
        inputs,
    )? {
        Some(signal) => Some(signal),
        None => late_signal(modes, mode, &written.others, &placed.others, values, inputs),
    }
}

/// What comes of the transitions that aren't preemptive.
#[inline(always)]
fn late_signal(
    modes: &[Mode],
    mode: u32,
    transitions: &[Transition],
    placed: &[PlacedTransition],
    values: &mut Vec<Token>,
    inputs: &Inputs<'_>,
) -> Option<Signal>
    requires unrefined { (mode_at (map mode_view modes.now) mode).refinement ≡ None }
    ensures kept { IfNone result (values.new.items ≡ values.old.items) }
    ensures comes { IfSome result (λ s. (table : NameTable) → SayTransitions table placed.now (map transition_view transitions.now) → ((mode_at (map mode_view modes.now) s.target).refinement ≡ None) × ComesTo mode values.old.items (reacted_by table mode (map transition_view transitions.now) (reads_alone values.old.items inputs.now)) s values.new.items) }
{
    match signal_by(modes, transitions, placed, values, inputs)? {
        Some(signal) => Some(signal),
        None => Some(Signal {
            target: mode,
            given: None,
        }),
    }
}

/// What comes of the preemptive transitions, of which there are mostly none.
#[inline(always)]
fn early_signal(
    modes: &[Mode],
    transitions: &[Transition],
    placed: &[PlacedTransition],
    values: &mut Vec<Token>,
    inputs: &Inputs<'_>,
) -> Option<Option<Signal>>
    ensures kept { IfNone result (values.new.items ≡ values.old.items) }
    ensures stays { IfSome result (λ r. IfNone r (values.new.items ≡ values.old.items)) }
    ensures comes { IfSome result (λ r. (table : NameTable) (mode : ℕ) → SayTransitions table placed.now (map transition_view transitions.now) → IsOf (map mode_view modes.now) values.old.items (reacted_by table mode (map transition_view transitions.now) (reads_alone values.old.items inputs.now)) r values.new.items) }
{
    if transitions.is_empty() {
        return Some(None);
    }
    called_signal(modes, transitions, placed, values, inputs)
}

/// The same as `signal_by`, not as a part of its caller.
#[inline(never)]
fn called_signal(
    modes: &[Mode],
    transitions: &[Transition],
    placed: &[PlacedTransition],
    values: &mut Vec<Token>,
    inputs: &Inputs<'_>,
) -> Option<Option<Signal>>
    ensures kept { IfNone result (values.new.items ≡ values.old.items) }
    ensures stays { IfSome result (λ r. IfNone r (values.new.items ≡ values.old.items)) }
    ensures comes { IfSome result (λ r. (table : NameTable) (mode : ℕ) → SayTransitions table placed.now (map transition_view transitions.now) → IsOf (map mode_view modes.now) values.old.items (reacted_by table mode (map transition_view transitions.now) (reads_alone values.old.items inputs.now)) r values.new.items) }
{
    signal_by(modes, transitions, placed, values, inputs)
}

/// What comes of the transitions of one kind: the inner `None` where no guard is enabled, the outer one where nothing is said.
#[inline(always)]
fn signal_by(
    modes: &[Mode],
    transitions: &[Transition],
    placed: &[PlacedTransition],
    values: &mut Vec<Token>,
    inputs: &Inputs<'_>,
) -> Option<Option<Signal>>
    ensures kept { IfNone result (values.new.items ≡ values.old.items) }
    ensures stays { IfSome result (λ r. IfNone r (values.new.items ≡ values.old.items)) }
    ensures comes { IfSome result (λ r. (table : NameTable) (mode : ℕ) → SayTransitions table placed.now (map transition_view transitions.now) → IsOf (map mode_view modes.now) values.old.items (reacted_by table mode (map transition_view transitions.now) (reads_alone values.old.items inputs.now)) r values.new.items) }
{
    let reads = Reads {
        values: values.as_slice(),
        inputs: &*inputs,
        given: &[],
    };
    match chosen_quickly(placed, &reads)? {
        Choice::Nothing => Some(None),
        Choice::Wrong(_) => None,
        Choice::One(number) => {
            if number >= transitions.len() || number >= placed.len() {
                return None;
            }
            let taken = taken_in_place(
                modes,
                &transitions[number],
                &placed[number],
                values,
                inputs,
            )?;
            Some(Some(taken))
        }
    }
}

/// What a transition gives that leads to a state without refinement.
#[inline(always)]
fn taken_in_place(
    modes: &[Mode],
    transition: &Transition,
    placed: &PlacedTransition,
    values: &mut Vec<Token>,
    inputs: &Inputs<'_>,
) -> Option<Signal>
    ensures kept { IfNone result (values.new.items ≡ values.old.items) }
    ensures target { IfSome result (λ s. (s.target ≡ transition.now.target) × ((mode_at (map mode_view modes.now) s.target).refinement ≡ None)) }
    ensures puts { IfSome result (λ s. (table : NameTable) → SayActions table placed.now.outputs.items (transition_view transition.now).outputs → put_all (names_in table (record { values = values.old.items; inputs = inputs.now; given = [] })) (transition_view transition.now).outputs ([] ∷ []) ≡ (None, signal_of s.given ∷ [])) }
    ensures sets { IfSome result (λ s. (table : NameTable) → SayActions table placed.now.sets.items (transition_view transition.now).sets → set_all table (transition_view transition.now).sets inputs.now [] values.old.items ≡ (None, values.new.items)) }
{
    if refinement_of(modes, transition.target).is_some() {
        return None;
    }
    let reads = Reads {
        values: values.as_slice(),
        inputs: &*inputs,
        given: &[],
    };
    let given = given_alone(&transition.outputs, &placed.outputs, &reads)?;
    if !set_in_place(&transition.sets, &placed.sets, values, inputs) {
        return None;
    }
    Some(Signal {
        target: transition.target,
        given,
    })
}

/// The integer, if any, that output actions give on the one port. The outer `None` says nothing.
#[inline(always)]
fn given_alone(actions: &[Action], placed: &[Placed], reads: &Reads<'_>) -> Option<Option<i64>>
    ensures { IfSome result (λ given. (table : NameTable) → SayActions table placed.now (map action_view actions.now) → put_all (names_in table (reads_view reads.now)) (map action_view actions.now) ([] ∷ []) ≡ (None, signal_of given ∷ [])) }
{
    let mut given = None;
    for (number, action) in actions.iter().enumerate() {
        if number >= placed.len() {
            return None;
        }
        let n = operand(&placed[number], reads)?;
        given = put_alone(given, action.target, n);
    }
    Some(given)
}

/// What is on the one port once an integer is put on a port.
#[inline(always)]
fn put_alone(given: Option<i64>, port: u32, n: i64) -> Option<i64>
    ensures { signal_of result ∷ [] ≡ change_at port (λ old. TheInt n ∷ []) (signal_of given ∷ []) }
{
    if port == 0 { Some(n) } else { given }
}

/// Runs set actions in place. After `false` the values are as before.
#[inline(always)]
fn set_in_place(
    actions: &[Action],
    placed: &[Placed],
    values: &mut Vec<Token>,
    inputs: &Inputs<'_>,
) -> bool
    ensures kept { result ≡ false → values.new.items ≡ values.old.items }
    ensures sets { result ≡ true → (table : NameTable) → SayActions table placed.now (map action_view actions.now) → set_all table (map action_view actions.now) inputs.now [] values.old.items ≡ (None, values.new.items) }
{
    if actions.is_empty() {
        return true;
    }
    if actions.len() > MOST_SETS || placed.is_empty() {
        return false;
    }
    if actions.len() > 1 {
        return set_from(actions, placed, 0, values, inputs);
    }
    set_last(&actions[0], &placed[0], values, inputs)
}

/// Runs one set action in place.
#[inline(always)]
fn set_last(action: &Action, placed: &Placed, values: &mut Vec<Token>, inputs: &Inputs<'_>) -> bool
    ensures kept { result ≡ false → values.new.items ≡ values.old.items }
    ensures sets { result ≡ true → (table : NameTable) → SaysAction table placed.now (action_view action.now) → set_all table (action_view action.now ∷ []) inputs.now [] values.old.items ≡ (None, values.new.items) }
{
    let reads = Reads {
        values: values.as_slice(),
        inputs: &*inputs,
        given: &[],
    };
    let Some(n) = operand(placed, &reads) else {
        return false;
    };
    assign(values, action.target, Token::Int(n));
    true
}

/// Runs the set actions from a number on in place, each seeing the Variables as the earlier ones left them. Where a later one says nothing, the Variable gets back its value.
fn set_from(
    actions: &[Action],
    placed: &[Placed],
    number: usize,
    values: &mut Vec<Token>,
    inputs: &Inputs<'_>,
) -> bool
    ensures kept { result ≡ false → values.new.items ≡ values.old.items }
    ensures sets { result ≡ true → (table : NameTable) → SayActions table placed.now (map action_view actions.now) → set_all table (map action_view (drop number actions.now)) inputs.now [] values.old.items ≡ (None, values.new.items) }
{
    if number >= actions.len() {
        return true;
    }
    if number >= placed.len() {
        return false;
    }
    let reads = Reads {
        values: values.as_slice(),
        inputs: &*inputs,
        given: &[],
    };
    let Some(n) = operand(&placed[number], &reads) else {
        return false;
    };
    let variable = actions[number].target as usize;
    if variable >= values.len() {
        return set_from(actions, placed, number + 1, values, inputs);
    }
    let before = mem::replace(&mut values[variable], Token::Int(n));
    if set_from(actions, placed, number + 1, values, inputs) {
        return true;
    }
    values[variable] = before;
    false
}
