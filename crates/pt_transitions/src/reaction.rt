ghost use Rattle.std.specs.Prelude.{◌≡◌, ℕ, IfOk, IfSome, map, true, None};
ghost use Rattle.pt_meaning.specs.Streams.{Streams};
ghost use Rattle.pt_value.specs.declared.token.Token.{Token};
ghost use Rattle.pt_expr.specs.Env.{scope_of};
ghost use Rattle.pt_guards.specs.Bindings.{Fits, scope_on};
ghost use Rattle.pt_chart.specs.Typed.{types_of, are_typed_transitions, is_typed_transition};
ghost use Rattle.pt_chart.specs.Machine.{NameTable};
ghost use Rattle.pt_chart.specs.Names.{names_in};
ghost use Rattle.pt_meaning.specs.Transitions.{Scope};
ghost use Rattle.pt_guards.specs.Placed.{SayTransitions, SaysTransition, AreGiven};
ghost use Rattle.pt_chart.specs.Reacted.{by_actions};
ghost use Rattle.pt_guards.specs.Acts.{acted, reacted_by, set_all};
ghost use Rattle.pt_chart.specs.Views.{transition_view, names_view};
ghost use Rattle.pt_guards.specs.Reads.{reads_view};
ghost use Rattle.pt_transitions.specs.Moves.{reaction_view};

use pt_chart::{Names, Transition, copied_tokens};
use pt_firing::{Inputs, RunFault, Tokens};
use pt_guards::{
    Bindings, Choice, PlacedTransition, Reads, choose, chosen_quickly, given_quickly, put_all,
    put_given, set_all, set_quickly,
};
use pt_value::Token;
use std::alloc::{AllocError, Global};

/// What comes of the guards of one kind.
#[derive(Drop)]
pub enum Reaction {
    /// No guard is enabled. The own outputs have what the refinement gave.
    Stays(Vec<Tokens>),
    /// A transition is taken.
    Moves(Move),
    /// A guard or an action has a fault, or two guards are enabled.
    Stops(RunFault),
}

/// A transition that is taken: where it leads, whether it keeps history, the own outputs, and the values of the Variables after it.
#[derive(Drop)]
pub struct Move {
    pub target: u32,
    pub history: bool,
    pub outputs: Vec<Tokens>,
    pub values: Vec<Token>,
}

/// What comes of some transitions: by their places where these say it all, and else by trees whose names are bound.
pub(crate) fn react(
    alloc: Global,
    transitions: &[Transition],
    placed: &[PlacedTransition],
    names: &Names,
    bindings: &mut Bindings,
    values: &[Token],
    inputs: &Inputs<'_>,
    given: Vec<Tokens>,
) -> Result<Reaction, AllocError>
    requires typed { are_typed_transitions (types_of (names_view names.now)) (map transition_view transitions.now) ≡ true }
    requires says { SayTransitions (names_view names.now) placed.now (map transition_view transitions.now) }
    requires fits { Fits (names_view names.now) bindings.old }
    ensures fits { Fits (names_view names.now) bindings.new }
    ensures reaction { IfOk result (λ r. (mode : ℕ) → reaction_view r ≡ reacted_by (names_view names.now) mode (map transition_view transitions.now) (record { values = values.now; inputs = inputs.now; given = given.items })) }
{
    if transitions.is_empty() {
        return Ok(Reaction::Stays(given));
    }
    let reads = Reads {
        values: &*values,
        inputs: &*inputs,
        given: given.as_slice(),
    };
    match chosen_quickly(placed, &reads) {
        Some(Choice::Nothing) => return Ok(Reaction::Stays(given)),
        Some(Choice::Wrong(fault)) => return Ok(Reaction::Stops(fault)),
        Some(Choice::One(number)) => {
            let transition = &transitions[number];
            let taken = take_quickly(alloc, transition, &placed[number], &reads)?;
            if let Some((values, puts)) = taken {
                return Ok(moved(transition, given, &puts, values));
            }
        }
        None => {}
    }
    react_bound(alloc, transitions, names, bindings, values, inputs, given)
}

/// What comes of some transitions, by their trees. Only names of ports and Variables are bound anew.
fn react_bound(
    alloc: Global,
    transitions: &[Transition],
    names: &Names,
    bindings: &mut Bindings,
    values: &[Token],
    inputs: &Inputs<'_>,
    given: Vec<Tokens>,
) -> Result<Reaction, AllocError>
    requires typed { are_typed_transitions (types_of (names_view names.now)) (map transition_view transitions.now) ≡ true }
    requires fits { Fits (names_view names.now) bindings.old }
    ensures fits { Fits (names_view names.now) bindings.new }
    ensures reaction { IfOk result (λ r. (mode : ℕ) → reaction_view r ≡ reacted_by (names_view names.now) mode (map transition_view transitions.now) (record { values = values.now; inputs = inputs.now; given = given.items })) }
{
    let reads = Reads {
        values,
        inputs,
        given: given.as_slice(),
    };
    bindings.bind(alloc, names, &reads)?;
    match choose(alloc, transitions, &bindings.env)? {
        Choice::Nothing => Ok(Reaction::Stays(given)),
        Choice::One(number) => take(alloc, &transitions[number], names, bindings, values, given),
        Choice::Wrong(fault) => Ok(Reaction::Stops(fault)),
    }
}

/// What the actions of a transition come to: the values of the Variables, and what is put on the own outputs. None says nothing.
fn take_quickly(
    alloc: Global,
    transition: &Transition,
    placed: &PlacedTransition,
    reads: &Reads<'_>,
) -> Result<Option<(Vec<Token>, Vec<i64>)>, AllocError>
    ensures { IfOk result (λ taken. IfSome taken (λ p. (table : NameTable) → SaysTransition table placed.now (transition_view transition.now) → AreGiven (names_in table (reads_view reads.now)) (transition_view transition.now).outputs p.1.items × (set_all table (transition_view transition.now).sets (reads_view reads.now).inputs (reads_view reads.now).given (reads_view reads.now).values ≡ (None, p.0.items)))) }
{
    let mut values = copied_tokens(alloc, reads.values)?;
    if !set_quickly(&transition.sets, &placed.sets, reads, &mut values) {
        return Ok(None);
    }
    match given_quickly(alloc, &placed.outputs, reads)? {
        Some(puts) => Ok(Some((values, puts))),
        None => Ok(None),
    }
}

/// A transition that is taken.
fn moved(transition: &Transition, given: Vec<Tokens>, puts: &[i64], values: Vec<Token>) -> Reaction
    ensures { (table : NameTable) (reads : Scope Token) → reads.given ≡ given.items → AreGiven (names_in table reads) (transition_view transition.now).outputs puts.now → set_all table (transition_view transition.now).sets reads.inputs reads.given reads.values ≡ (None, values.items) → reaction_view result ≡ by_actions transition.now.target transition.now.history (acted table (transition_view transition.now) reads) }
{
    let mut outputs = given;
    let history = transition.history;
    put_given(&transition.outputs, puts, &mut outputs);
    Reaction::Moves(Move {
        target: transition.target,
        history,
        outputs,
        values,
    })
}

/// Takes a transition: its output actions, then its set actions.
fn take(
    alloc: Global,
    transition: &Transition,
    names: &Names,
    bindings: &mut Bindings,
    values: &[Token],
    given: Vec<Tokens>,
) -> Result<Reaction, AllocError>
    requires typed { is_typed_transition (types_of (names_view names.now)) (transition_view transition.now) ≡ true }
    requires fits { Fits (names_view names.now) bindings.old }
    requires bound { (came : Streams Token) × (scope_of bindings.old.env ≡ scope_on (names_view names.now) values.now came given.items) }
    ensures fits { Fits (names_view names.now) bindings.new }
    ensures reaction { IfOk result (λ r. (came : Streams Token) → scope_of bindings.old.env ≡ scope_on (names_view names.now) values.now came given.items → reaction_view r ≡ by_actions transition.now.target transition.now.history (acted (names_view names.now) (transition_view transition.now) (record { values = values.now; inputs = came; given = given.items }))) }
{
    let mut outputs = given;
    if let Some(fault) = put_all(alloc, &transition.outputs, &bindings.env, &mut outputs)? {
        return Ok(Reaction::Stops(fault));
    }
    let mut values = copied_tokens(alloc, values)?;
    let sets = transition.sets.as_slice();
    if let Some(fault) = set_all(alloc, sets, names, bindings, &mut values)? {
        return Ok(Reaction::Stops(fault));
    }
    Ok(Reaction::Moves(Move {
        target: transition.target,
        history: transition.history,
        outputs,
        values,
    }))
}
