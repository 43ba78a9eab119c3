// Replies that several classes give.
ghost use Rattle.std.specs.Prelude.{◌≡◌};
ghost use Rattle.pt_lib_data.specs.Reply.{Tells, one, nothing, sized};

use pt_firing::{Outputs, RunFault, Step};
use pt_value::Token;
use std::alloc::AllocError;

/// The greatest size of a token that an actor makes.
const LARGEST: u64 = 65_536;

/// One token on the one output.
pub(crate) fn one(token: Token) -> Step
    ensures { Tells (one token) result }
{
    Step::Done(Outputs::one(token))
}

/// A truth value on the one output, or nothing where there is none.
pub(crate) fn nothing() -> Step
    ensures { Tells nothing result }
{
    Step::Done(Outputs::none(1))
}

/// A token that was made, where it isn't too large.
pub(crate) fn sized(token: Token) -> Step
    ensures { Tells (sized token) result }
{
    if token.size() <= LARGEST {
        one(token)
    } else {
        Step::Fault(RunFault::Size)
    }
}
