//! Reactions whose guards and actions are made of integers and truth values: nothing is bound, and no name is looked up.
ghost use Rattle.std.specs.Prelude.{◌≡◌, List, IfOk, IfSome, map, true, None};
ghost use Rattle.pt_meaning.specs.Modal.{chosen};
ghost use Rattle.pt_language.specs.Scope.{Scope};
ghost use Rattle.pt_chart.specs.Machine.{NameTable, ActionTree, TransitionTree};
ghost use Rattle.pt_chart.specs.Names.{names_in};
ghost use Rattle.pt_guards.specs.Choose.{tests_in, choice_view};
ghost use Rattle.pt_guards.specs.Acts.{put_all, set_all};
ghost use Rattle.pt_guards.specs.Placed.{SayActions, SayTransitions, AreGiven};
ghost use Rattle.pt_chart.specs.Views.{action_view};
ghost use Rattle.pt_guards.specs.Reads.{reads_view};

use crate::acts::{assign, give};
use crate::choosing::{Choice, Enabled};
use crate::kept::PlacedTransition;
use crate::names::Reads;
use crate::placed::{Placed, operand, test};
use pt_chart::Action;
use pt_firing::Tokens;
use pt_value::Token;
use std::alloc::{AllocError, Global};

/// Which guard is enabled. None says nothing.
#[inline(always)]
pub fn chosen_quickly(transitions: &[PlacedTransition], reads: &Reads<'_>) -> Option<Choice>
    ensures { IfSome result (λ c. (table : NameTable) (ts : List TransitionTree) → SayTransitions table transitions.now ts → choice_view c ≡ chosen 0 (tests_in (names_in table (reads_view reads.now)) ts)) }
{
    let mut enabled = Enabled::Nothing;
    for (number, transition) in transitions.iter().enumerate() {
        if test(&transition.guard, reads)? {
            enabled = enabled.with(number);
        }
    }
    Some(enabled.choice())
}

/// Runs set actions. `false` says nothing, and the values aren't to be used.
pub fn set_quickly(
    actions: &[Action],
    placed: &[Placed],
    reads: &Reads<'_>,
    values: &mut Vec<Token>,
) -> bool
    ensures { result ≡ true → (table : NameTable) → SayActions table placed.now (map action_view actions.now) → set_all table (map action_view actions.now) (reads_view reads.now).inputs (reads_view reads.now).given values.old.items ≡ (None, values.new.items) }
{
    for (number, action) in actions.iter().enumerate() {
        if number >= placed.len() {
            return false;
        }
        let now = Reads {
            values: values.as_slice(),
            inputs: reads.inputs,
            given: reads.given,
        };
        match operand(&placed[number], &now) {
            Some(n) => assign(values, action.target, Token::Int(n)),
            None => return false,
        }
    }
    true
}

/// The integers that output actions give, all of which read the same. None says nothing.
pub fn given_quickly(
    alloc: Global,
    placed: &[Placed],
    reads: &Reads<'_>,
) -> Result<Option<Vec<i64>>, AllocError>
    ensures { IfOk result (λ made. IfSome made (λ given. (table : NameTable) (actions : List ActionTree) → SayActions table placed.now actions → AreGiven (names_in table (reads_view reads.now)) actions given.items)) }
{
    let mut given = Vec::with_capacity(alloc, placed.len())?;
    for action in placed {
        match operand(action, reads) {
            Some(n) => given.push(n)?,
            None => return Ok(None),
        }
    }
    Ok(Some(given))
}

/// Puts each of these integers in the place of what the port of its action has.
pub fn put_given(actions: &[Action], given: &[i64], outputs: &mut Vec<Tokens>)
    ensures { (scope : Scope) → AreGiven scope (map action_view actions.now) given.now → put_all scope (map action_view actions.now) outputs.old.items ≡ (None, outputs.new.items) }
{
    for (number, action) in actions.iter().enumerate() {
        if number >= given.len() {
            return;
        }
        let n = given[number];
        give(outputs, action.target, Token::Int(n));
    }
}
