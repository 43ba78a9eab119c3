ghost use Rattle.std.specs.Prelude.{◌≡◌, IfOk};
ghost use Rattle.pt_flow_streams.specs.BooleanSwitch.{on_named};
ghost use Rattle.pt_flow_streams.specs.BooleanSwitch as boolean_switch;

use pt_firing::{Actor, Fires, Inputs, Need, OneEach, Outputs, Partial, Step, strict_early};
use pt_flow_base::Params;
use pt_time::Tag;
use pt_value::Token;
use std::alloc::{AllocError, Global};

/// `BooleanSwitch`: gives its input on the output that its control names.
#[derive(Debug, Drop)]
pub struct BooleanSwitch {
    places: OneEach,
}

impl BooleanSwitch {
    pub fn new(alloc: Global) -> Result<BooleanSwitch, AllocError>
        ensures { IfOk result (λ actor. actor ≡ record { places = 2 }) }
    {
        Ok(BooleanSwitch {
            places: OneEach::of(alloc, 2)?,
        })
    }

    /// The actor that the parameters start, if they are such as its row has them.
    pub fn start(alloc: Global, _params: &Params) -> Result<Option<BooleanSwitch>, AllocError>
        ensures { IfOk result (λ actor. actor ≡ boolean_switch.start _params.now) }
    {
        Ok(Some(BooleanSwitch::new(alloc)?))
    }
}

/// A copy of a token on the output that a truth value names.
fn on_named(alloc: Global, control: bool, token: &Token) -> Result<Outputs, AllocError>
    ensures { IfOk result (λ outputs. outputs ≡ on_named control token.now) }
{
    let port = if control { 0 } else { 1 };
    let mut outputs = Outputs::none(2);
    outputs.push(alloc, port, token.copy(alloc)?)?;
    Ok(outputs)
}

impl Fires for BooleanSwitch {
    ghost use Rattle.pt_flow_streams.specs.BooleanSwitch as boolean_switch;

    ghost step = { boolean_switch.step };

    ghost Takes = { λ tag actor X. Unit {0} };

    ghost IsSpare = { λ actor. ⊥ };

    fn step(&mut self, alloc: Global, _tag: Tag, inputs: &Inputs<'_>) -> Step {
        let (Some(token), Some(control)) = (inputs.token_at(0), inputs.truth_at(1)) else {
            return Step::Done(Outputs::none(2));
        };
        match on_named(alloc, control, token) {
            Ok(outputs) => Step::Done(outputs),
            Err(_) => Step::Memory,
        }
    }

    fn copy(&self, alloc: Global) -> Result<BooleanSwitch, AllocError> {
        Ok(BooleanSwitch {
            places: self.places.copy(alloc)?,
        })
    }
}

impl Actor for BooleanSwitch {
    ghost use Rattle.std.specs.Prelude.{[], None};
    ghost use Rattle.pt_firing.specs.Strict.{strict};
    ghost use Rattle.pt_flow_streams.specs.BooleanSwitch as boolean_switch;

    ghost first = { λ actor. [] };

    ghost need = { boolean_switch.need };

    ghost next = { λ actor. None };

    ghost early = { strict 2 boolean_switch.step };

    fn first(&self) -> &[Token] {
        &[]
    }

    fn need(&self) -> Need<'_> {
        Need::All(self.places.counts())
    }

    fn early(&self, alloc: Global, tag: Tag, partial: &Partial) -> Result<Partial, AllocError> {
        strict_early(self, 2, alloc, tag, partial)
    }

    fn next(&self) -> Option<Tag> {
        None
    }
}
