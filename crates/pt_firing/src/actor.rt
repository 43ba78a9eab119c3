ghost use Rattle.std.specs.Prelude.{◌≡◌, List, Option, Some, IfOk};
ghost use Rattle.pt_meaning.specs.Basics as basics;
ghost use Rattle.pt_meaning.specs.Machine as machine;
ghost use Rattle.pt_meaning.specs.Node as tree;
ghost use Rattle.pt_meaning.specs.Valuation.{known};
ghost use Rattle.pt_value.specs.declared.token.Token as token;
ghost use Rattle.pt_firing.specs.Need.{need_of};
ghost use Rattle.pt_firing.specs.Step.{Makes, IsMade};

use crate::inputs::Inputs;
use crate::need::Need;
use crate::partial::Partial;
use crate::step::Step;
use pt_time::Tag;
use pt_value::Token;
use std::alloc::{AllocError, Global};

/// What makes firings, as a function of its state.
pub trait Fires: Sized {
    /// What a firing at a tag on some inputs comes to.
    ghost step: { basics.Tag → Self → basics.Streams token.Token → tree.Answer token.Token Self };

    /// The inputs that its step takes at a tag: what a typed model gives it.
    ghost Takes: { basics.Tag → Self → basics.Streams token.Token → Type 0 };

    /// A state in which its step takes no memory.
    ghost IsSpare: { Self → Type 0 };

    /// Makes a firing. After a fault or want of memory the actor is as before.
    fn step(&mut self, alloc: Global, tag: Tag, inputs: &Inputs<'_>) -> Step
        requires { Takes tag self.old inputs.now }
        ensures made { Makes (step tag self.old inputs.now) self.old result self.new }
        ensures spare { IsSpare self.old → IsMade result };

    /// Another actor in the same state.
    fn copy(&self, alloc: Global) -> Result<Self, AllocError>
        ensures { IfOk result (λ actor. actor ≡ self.now) };
}

/// A library actor: the machine that its row says. The ghost members, with those of its firings, are the row.
pub trait Actor: Fires {
    /// The first tokens, which stand at the start on the channels of its output.
    ghost first: { Self → List token.Token };

    /// What it needs before it can fire.
    ghost need: { Self → machine.Need };

    /// Its wake.
    ghost next: { Self → Option basics.Tag };

    /// What it gives at a tag while its inputs are partly known.
    ghost early: { basics.Tag → Self → List (machine.Partial token.Token) → List (machine.Partial token.Token) };

    fn first(&self) -> &[Token]
        ensures { result.now ≡ first self.now };

    fn need(&self) -> Need<'_>
        ensures { need_of result ≡ need self.now };

    /// What is known of the outputs before the firing.
    fn early(&self, alloc: Global, tag: Tag, partial: &Partial) -> Result<Partial, AllocError>
        requires { (X : basics.Streams token.Token) → known partial.now ≡ Some X → Self.Takes tag self.now X }
        ensures { IfOk result (λ outputs. outputs ≡ early tag self.now partial.now) };

    fn next(&self) -> Option<Tag>
        ensures { result ≡ next self.now };
}
