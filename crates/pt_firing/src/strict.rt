ghost use Rattle.std.specs.Prelude.{◌≡◌, Some, IfOk};
ghost use Rattle.pt_meaning.specs.Basics as basics;
ghost use Rattle.pt_meaning.specs.Valuation.{known};
ghost use Rattle.pt_value.specs.declared.token.Token as token;
ghost use Rattle.pt_firing.specs.Strict.{strict};

use crate::actor::Fires;
use crate::inputs::Inputs;
use crate::partial::Partial;
use crate::step::Step;
use pt_time::Tag;
use std::alloc::{AllocError, Global};

/// The early answer of a strict actor with so many outputs: unknown while an input is, else what its step gives.
pub fn strict_early<A: Fires + Drop>(
    actor: &A,
    ports: usize,
    alloc: Global,
    tag: Tag,
    partial: &Partial,
) -> Result<Partial, AllocError>
    requires { (X : basics.Streams token.Token) → known partial.now ≡ Some X → A.Takes tag actor.now X }
    ensures { IfOk result (λ outputs. outputs ≡ strict ports A.step tag actor.now partial.now) }
{
    let Some(lists) = partial.known(alloc)? else {
        return Partial::unknown(alloc, ports);
    };
    let mut fired = actor.copy(alloc)?;
    match fired.step(alloc, tag, &Inputs::of(&lists)) {
        Step::Done(outputs) => Partial::told(alloc, outputs),
        Step::Fault(_) => Partial::unknown(alloc, ports),
        Step::Memory => Err(AllocError),
    }
}
