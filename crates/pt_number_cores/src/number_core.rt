ghost use Rattle.std.specs.Prelude.{◌≡◌, [], ◌∷◌, IfSome, IsSome, IsTrue, Some, true, false};
ghost use Rattle.pt_value.specs.declared.token.Token.TheVariants.{Int};
ghost use Rattle.pt_directors.specs.Directors.{Director, director_calls};
ghost use Rattle.pt_node.specs.Shown.{shown_node};
ghost use Rattle.pt_node.specs.Told.{IsTold};
ghost use Rattle.pt_pn.specs.Moves.{ComesOn};

use pt_firing::{Ask, IntInputs};
use pt_node::Node;
use std::alloc::Global;

/// The core of a director whose children may take and give integers as they are, without a list of tokens. Its calls are those of the director.
pub trait NumberCore: Sized {
    ghost director: { Self → Director };

    /// What comes next. It takes no memory.
    fn ask(&mut self) -> Ask
        requires { director_calls.MayAsk (director self.old) }
        ensures gives { director_calls.Gives (director self.old) result }
        ensures state { director self.new ≡ director_calls.asking result (director self.old) };

    /// What comes next, after gets and puts that are made as it is asked, where the core makes several moves in one call. It takes no memory.
    #[inline(always)]
    fn ask_on(&mut self) -> Ask
        requires { director_calls.MayAsk (director self.old) }
        ensures { ComesOn director_calls (director self.old) result (director self.new) }
    {
        self.ask()
    }

    /// The inputs of the child that was asked to fire, where they are integers. `row` is a buffer. `None` says nothing of them.
    fn int_inputs<'a>(&'a self, row: &'a mut Vec<i64>) -> Option<IntInputs<'a>>
        requires { IsSome (director_calls.asked_of (director self.now)) }
        ensures { IfSome result (λ inputs. inputs ≡ director_calls.lent_of (director self.now)) };

    /// Whether that child gives several integers, or none, to one channel. A hint of how it may fire.
    fn gives_several(&self, child: u32) -> bool
        requires { director_calls.asked_of (director self.now) ≡ Some child };

    /// Takes the integer that the child of this number gave as the one token on its one port, which is accepted, with the wake and the need that the child has once its firing is recorded. `false` says that nothing was done.
    fn told_number(&mut self, alloc: Global, of: &Node, child: u32, number: i64) -> bool
        requires asked { director_calls.asked_of (director self.old) ≡ Some child }
        ensures told { IsTrue result → IsTold director_calls (director self.old) (shown_node of.now) child ((Int number ∷ []) ∷ []) (director self.new) }
        ensures kept { result ≡ false → director self.new ≡ director self.old }
        ensures accepted { IsTrue result → director_calls.accepts (director self.old) child ((Int number ∷ []) ∷ []) ≡ true };
}
