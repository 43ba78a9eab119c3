ghost use Rattle.std.specs.Prelude.{◌≡◌, IfOk, OnOk, OnErr};

use pt_directors::{Boxed, Director};
use pt_firing::Fires;
use pt_library::LibraryActor;
use std::alloc::{AllocError, Global};

/// A library actor beside its start, to which a reset brings it back.
pub struct Held {
    pub actor: LibraryActor,
    pub start: LibraryActor,
}

impl Drop for Held {
    fn drop(self) {
        let Held { actor: _, start: _ } = self;
    }
}

impl Held {
    /// Brings the actor back to its start. After an `Err` it is as before.
    pub fn reset(&mut self, alloc: Global) -> Result<(), AllocError>
        ensures start { self.new.start ≡ self.old.start }
        ensures reset { OnOk result (self.new.actor ≡ self.old.start) }
        ensures kept { OnErr result (self.new.actor ≡ self.old.actor) }
    {
        self.actor = self.start.copy(alloc)?;
        Ok(())
    }
}

/// What a node is: a library actor, or a composite with its director. Most nodes are actors, and a director is larger: so it has a place of its own.
pub enum Body {
    Actor(Held),
    Composite(Boxed<Director>),
}

impl Drop for Body {
    fn drop(self) {
        match self {
            Body::Actor(held) => drop(held),
            Body::Composite(director) => drop(director),
        }
    }
}

impl Body {
    /// Another body in the same state.
    pub fn copy(&self, alloc: Global) -> Result<Body, AllocError>
        ensures { IfOk result (λ body. body ≡ self.now) }
    {
        Ok(match self {
            Body::Actor(held) => Body::Actor(Held {
                start: held.start.copy(alloc)?,
                actor: held.actor.copy(alloc)?,
            }),
            Body::Composite(director) => Body::Composite(director.copy(alloc)?),
        })
    }
}
