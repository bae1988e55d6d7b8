ghost use Rattle.std.specs.Prelude.{◌≡◌, IfOk, IfErr};

use super::memory::Memory;
use std::alloc::Global;
use std::marker::Model;

/// A `Box` that contracts see as its value, so that trees are plain data to them.
pub struct Boxed<T> {
    inner: Box<T>,
}

impl<T: Drop> Drop for Boxed<T> {
    fn drop(self) {
        let Boxed { inner: _ } = self;
    }
}

impl<T> Model for Boxed<T> {
    ghost Value = { T };

    ghost coded = { T.code };

    ghost view = { λ boxed. boxed.inner.value };
}

impl<T> Boxed<T> {
    /// Boxes the value, or hands it back.
    pub fn new(alloc: Global, value: T) -> Result<Boxed<T>, (T, Memory)>
        ensures ok { IfOk result (λ boxed. boxed ≡ value) }
        ensures returned { IfErr result (λ refused. refused.0 ≡ value) }
    {
        match Box::new(alloc, value) {
            Ok(inner) => Ok(Boxed { inner }),
            Err(failed) => Err((failed.value, Memory)),
        }
    }

    pub fn get(&self) -> &T
        ensures { result.now ≡ self.now }
    {
        &self.inner
    }

    /// Puts a value in the place of the one that stands there, and gives that back.
    pub fn replace(&mut self, value: T) -> T
        ensures before { result ≡ self.old }
        ensures after { self.new ≡ value }
    {
        std::mem::replace(&mut self.inner, value)
    }

    pub fn into_inner(self) -> T
        ensures { result ≡ self }
    {
        let Boxed { inner } = self;
        Box::into_inner(inner)
    }
}

impl<T: Drop> Boxed<T> {
    /// `new`, where the value is given up for want of memory.
    pub fn of(alloc: Global, value: T) -> Result<Boxed<T>, Memory>
        ensures { IfOk result (λ boxed. boxed ≡ value) }
    {
        match Boxed::new(alloc, value) {
            Ok(boxed) => Ok(boxed),
            Err((_, memory)) => Err(memory),
        }
    }
}
