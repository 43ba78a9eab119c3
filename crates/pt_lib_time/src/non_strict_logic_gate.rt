ghost use Rattle.std.specs.Prelude.{◌≡◌, IfOk, option_map};
ghost use Rattle.pt_firing.specs.Row.{truth_of};
ghost use Rattle.pt_firing.specs.TriState.{partial_of};
ghost use Rattle.pt_lib_time.specs.Signal.{known_token};
ghost use Rattle.pt_lib_time.specs.NonStrictLogicGate as non_strict_logic_gate;

use crate::signal::{decided_or_strict, known_token, outputs_of};
use pt_firing::{Actor, Fires, Inputs, Need, OneEach, Partial, Step, TriState};
use pt_flow_base::Params;
use pt_time::Tag;
use pt_value::Token;
use std::alloc::{AllocError, Global};

/// What a `NonStrictLogicGate` makes of its present inputs.
#[derive(Clone, Copy, Debug, PartialEq, Eq)]
pub enum Gate {
    And,
    Or,
}

impl Gate {
    fn of(text: &str) -> Option<Gate>
        ensures { result ≡ non_strict_logic_gate.gate_of text.now }
    {
        match text {
            "and" => Some(Gate::And),
            "or" => Some(Gate::Or),
            _ => None,
        }
    }

    /// The gate that a parameter says, or a conjunction where there is none.
    fn by(function: Option<&Token>) -> Option<Gate>
        ensures { result ≡ non_strict_logic_gate.gate_by (option_map (λ token. token.now) function.entry) }
    {
        match function {
            None => Some(Gate::And),
            Some(Token::Text(text)) => Gate::of(text.as_str()),
            Some(_) => None,
        }
    }

    /// What it makes of truth values that are present, and of one more.
    fn with(self, truth: Option<bool>, later: Option<bool>) -> Option<bool>
        ensures { result ≡ non_strict_logic_gate.with_signal self truth later }
    {
        match (self, truth, later) {
            (Gate::And, Some(a), Some(b)) => Some(a && b),
            (Gate::Or, Some(a), Some(b)) => Some(a || b),
            (Gate::And | Gate::Or, Some(a), None) => Some(a),
            (Gate::And | Gate::Or, None, later) => later,
        }
    }

    /// What it makes of the inputs that are present, if any is.
    fn of_present(self, inputs: &Inputs<'_>) -> Option<bool>
        ensures { result ≡ non_strict_logic_gate.result self inputs.now }
    {
        let mut found = None;
        for place in 0..inputs.places() {
            found = self.with(found, inputs.truth_at(place));
        }
        found
    }

    /// The truth value that decides it, whatever the others are.
    fn decider(self) -> bool
        ensures { result ≡ non_strict_logic_gate.decider self }
    {
        match self {
            Gate::And => false,
            Gate::Or => true,
        }
    }

    /// Whether that signal decides it.
    fn decides(self, truth: Option<bool>) -> bool
        ensures { result ≡ non_strict_logic_gate.decides self truth }
    {
        match (self, truth) {
            (Gate::And, Some(b)) => !b,
            (Gate::Or, Some(b)) => b,
            (Gate::And | Gate::Or, None) => false,
        }
    }

    /// Whether a place is known to decide it.
    fn is_decided(self, partial: &Partial) -> bool
        ensures { result ≡ non_strict_logic_gate.is_decided self partial.now }
    {
        for place in 0..partial.places() {
            if self.decides(known_truth(partial, place)) {
                return true;
            }
        }
        false
    }

    /// What such a place decides.
    fn decided(self, partial: &Partial) -> TriState
        ensures { partial_of result ≡ non_strict_logic_gate.decided self partial.now }
    {
        if self.is_decided(partial) {
            TriState::Present(Token::Bool(self.decider()))
        } else {
            TriState::Unknown
        }
    }
}

/// The truth value that is known on a place, if there is one.
fn known_truth(partial: &Partial, place: usize) -> Option<bool>
    ensures { result ≡ truth_of (known_token partial.now place) }
{
    match known_token(partial, place) {
        Some(Token::Bool(b)) => Some(*b),
        _ => None,
    }
}

/// `NonStrictLogicGate`: gives the conjunction or disjunction of its present inputs.
#[derive(Debug, Drop)]
pub struct NonStrictLogicGate {
    gate: Gate,
    places: OneEach,
}

impl NonStrictLogicGate {
    /// The actor that the parameters start, if they are such as its row has them.
    pub fn start(alloc: Global, params: &Params) -> Result<Option<NonStrictLogicGate>, AllocError>
        ensures { IfOk result (λ actor. actor ≡ non_strict_logic_gate.start params.now) }
    {
        let Some(gate) = Gate::by(params.values.get("function")) else {
            return Ok(None);
        };
        let places = OneEach::of(alloc, params.ports.channels("input") as usize)?;
        Ok(Some(NonStrictLogicGate { gate, places }))
    }
}

impl Fires for NonStrictLogicGate {
    ghost use Rattle.pt_lib_time.specs.NonStrictLogicGate as non_strict_logic_gate;

    ghost step = { non_strict_logic_gate.step };

    ghost Takes = { λ tag actor X. Unit {0} };

    ghost IsSpare = { λ actor. Unit {0} };

    fn step(&mut self, _alloc: Global, _tag: Tag, inputs: &Inputs<'_>) -> Step {
        Step::Done(outputs_of(self.gate.of_present(inputs).map(Token::Bool)))
    }

    fn copy(&self, alloc: Global) -> Result<NonStrictLogicGate, AllocError> {
        Ok(NonStrictLogicGate {
            gate: self.gate,
            places: self.places.copy(alloc)?,
        })
    }
}

impl Actor for NonStrictLogicGate {
    ghost use Rattle.std.specs.Prelude.{[], None};
    ghost use Rattle.pt_lib_time.specs.NonStrictLogicGate as non_strict_logic_gate;

    ghost first = { λ actor. [] };

    ghost need = { non_strict_logic_gate.need };

    ghost next = { λ actor. None };

    ghost early = { non_strict_logic_gate.early };

    fn first(&self) -> &[Token] {
        &[]
    }

    fn need(&self) -> Need<'_> {
        Need::All(self.places.counts())
    }

    fn early(&self, alloc: Global, tag: Tag, partial: &Partial) -> Result<Partial, AllocError> {
        decided_or_strict(self, self.gate.decided(partial), alloc, tag, partial)
    }

    fn next(&self) -> Option<Tag> {
        None
    }
}
