ghost use Rattle.std.specs.Prelude.{◌≡◌, IfOk};
ghost use Rattle.pt_flow_streams.specs.BooleanSelect as boolean_select;

use pt_firing::{Actor, Counts, Fires, Inputs, Need, Outputs, Partial, Step, strict_early};
use pt_flow_base::Params;
use pt_time::Tag;
use pt_value::Token;
use std::alloc::{AllocError, Global};
use std::marker::Model;

/// What a `BooleanSelect` takes next.
#[derive(Clone, Copy, Debug, PartialEq, Eq)]
pub enum Turn {
    Control,
    /// The input that the control named.
    Input(bool),
}

/// `BooleanSelect`: gives the token of the input that its control names.
#[derive(Debug, Drop)]
pub struct BooleanSelect {
    turn: Turn,
    control_alone: Counts,
    true_alone: Counts,
    false_alone: Counts,
}

impl Model for BooleanSelect {
    ghost use Rattle.std.specs.Prelude.{◌≡◌, [], ◌∷◌};
    ghost use Rattle.pt_flow_streams.specs.declared.boolean_select.Turn.{Turn};

    ghost Value = { Turn };

    ghost view = { λ b. b.turn };

    ghost invariant = { λ b. (b.control_alone ≡ 0 ∷ 0 ∷ 1 ∷ []) × (b.true_alone ≡ 1 ∷ 0 ∷ 0 ∷ []) × (b.false_alone ≡ 0 ∷ 1 ∷ 0 ∷ []) };
}

impl BooleanSelect {
    pub fn new(alloc: Global, turn: Turn) -> Result<BooleanSelect, AllocError>
        ensures { IfOk result (λ actor. actor ≡ turn) }
    {
        Ok(BooleanSelect {
            turn,
            control_alone: Counts::of(vec![in alloc; 0, 0, 1]?),
            true_alone: Counts::of(vec![in alloc; 1, 0, 0]?),
            false_alone: Counts::of(vec![in alloc; 0, 1, 0]?),
        })
    }

    /// The actor that the parameters start, if they are such as its row has them.
    pub fn start(alloc: Global, _params: &Params) -> Result<Option<BooleanSelect>, AllocError>
        ensures { IfOk result (λ actor. actor ≡ boolean_select.start _params.now) }
    {
        Ok(Some(BooleanSelect::new(alloc, Turn::Control)?))
    }
}

impl Fires for BooleanSelect {
    ghost use Rattle.pt_flow_streams.specs.BooleanSelect as boolean_select;

    ghost step = { boolean_select.step };

    ghost Takes = { λ tag actor X. Unit {0} };

    ghost IsSpare = { λ actor. ⊥ };

    fn step(&mut self, alloc: Global, _tag: Tag, inputs: &Inputs<'_>) -> Step {
        match self.turn {
            Turn::Control => {
                if let Some(control) = inputs.truth_at(2) {
                    self.turn = Turn::Input(control);
                }
                Step::Done(Outputs::none(1))
            }
            Turn::Input(control) => {
                let place = if control { 0 } else { 1 };
                let Some(token) = inputs.token_at(place) else {
                    return Step::Done(Outputs::none(1));
                };
                let Ok(token) = token.copy(alloc) else {
                    return Step::Memory;
                };
                self.turn = Turn::Control;
                Step::Done(Outputs::one(token))
            }
        }
    }

    fn copy(&self, alloc: Global) -> Result<BooleanSelect, AllocError> {
        BooleanSelect::new(alloc, self.turn)
    }
}

impl Actor for BooleanSelect {
    ghost use Rattle.std.specs.Prelude.{[], None};
    ghost use Rattle.pt_firing.specs.Strict.{strict};
    ghost use Rattle.pt_flow_streams.specs.BooleanSelect as boolean_select;

    ghost first = { λ actor. [] };

    ghost need = { boolean_select.need };

    ghost next = { λ actor. None };

    ghost early = { strict 1 boolean_select.step };

    fn first(&self) -> &[Token] {
        &[]
    }

    fn need(&self) -> Need<'_> {
        match self.turn {
            Turn::Control => Need::All(&self.control_alone),
            Turn::Input(true) => Need::All(&self.true_alone),
            Turn::Input(false) => Need::All(&self.false_alone),
        }
    }

    fn early(&self, alloc: Global, tag: Tag, partial: &Partial) -> Result<Partial, AllocError> {
        strict_early(self, 1, alloc, tag, partial)
    }

    fn next(&self) -> Option<Tag> {
        None
    }
}
