ghost use Rattle.std.specs.Prelude.{◌≡◌, [], ◌∷◌, Some, OnOk, OnErr, IfOk, map};
ghost use Rattle.pt_value.specs.declared.token.Token.TheVariants.{Int};
ghost use Rattle.pt_node.specs.Shown.{shown_node};
ghost use Rattle.pt_node.specs.Live.{IsReadyNode};
ghost use Rattle.pt_node.specs.Told.{IsTold};

use pt_core::Core;
use pt_firing::{Outputs, Tokens};
use pt_node::Node;
use pt_value::Token;
use std::alloc::{AllocError, Global};

/// Tells a core that knows no integers those that the child gave on its one port, as tokens, with the wake and the need that the child has once its firing is recorded.
#[inline(never)]
pub fn tell_tokens<C: Core>(
    alloc: Global,
    core: &mut C,
    child: &Node,
    number: u32,
    numbers: &[i64],
) -> Result<(), AllocError>
    requires asked { C.calls.asked_of core.old ≡ Some number }
    requires fit { IsReadyNode (shown_node child.now) }
    ensures told { OnOk result (IsTold C.calls core.old (shown_node child.now) number (map Int numbers.now ∷ []) core.new) }
    ensures kept { OnErr result (core.new ≡ core.old) }
{
    let outputs = as_tokens(alloc, numbers)?;
    core.told(alloc, number, outputs, child.wake(), child.need())
}

/// Integers as the tokens of one port.
fn as_tokens(alloc: Global, numbers: &[i64]) -> Result<Outputs, AllocError>
    ensures { IfOk result (λ outputs. outputs ≡ map Int numbers.now ∷ []) }
{
    let mut tokens = Tokens::new();
    for number in numbers {
        tokens.push(alloc, Token::Int(*number))?;
    }
    Ok(Outputs::first(1, tokens))
}
