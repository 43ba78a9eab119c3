ghost use Rattle.std.specs.Prelude.{◌≡◌, IfOk};
ghost use Rattle.std.specs.Borrow.{Lends, sem};

use pt_core::Core;
use std::alloc::{AllocError, Global};
use std::marker::Model;

/// A value in a place of its own, which contracts see as the value. Whatever holds it has a pointer for it, however large it is.
#[derive(Drop)]
pub struct Boxed<T> {
    inner: Box<T>,
}

impl<T> Model for Boxed<T> {
    ghost Value = { T };

    ghost coded = { T.code };

    ghost view = { λ b. b.inner.value };
}

impl<T: Drop> Boxed<T> {
    /// Puts a value into a place of its own.
    pub fn new(alloc: Global, value: T) -> Result<Boxed<T>, AllocError>
        ensures { IfOk result (λ b. b ≡ value) }
    {
        Ok(Boxed {
            inner: Box::new(alloc, value)?,
        })
    }
}

impl<T> Boxed<T> {
    ghost use Rattle.pt_directors.specs.contracts.boxed.Boxed.{the_row};

    /// The value.
    #[inline(always)]
    pub fn get(&self) -> &T
        ensures { result.now ≡ self.now }
    {
        &self.inner
    }

    /// The value, to change it.
    #[inline(always)]
    pub fn get_mut(&mut self) -> &mut T
        ensures* writes_back { sem 𝓛 (Lends (the_row T.row) T.row self.entry result (λ w. w)) }
        ensures value { result.now ≡ self.old }
    {
        self.inner.as_mut()
    }
}

impl<C: Core + Drop> Boxed<C> {
    /// Another one of a core in the same state.
    pub fn copy(&self, alloc: Global) -> Result<Boxed<C>, AllocError>
        ensures { IfOk result (λ b. b ≡ self.now) }
    {
        Boxed::new(alloc, self.get().copy(alloc)?)
    }
}
