//! A box that a contract sees as the value in it. It stands in place of std's, whose address a
//! contract would see, so that two trees with equal contents are equal.
ghost use Rattle.std.specs.Prelude.{◌≡◌, IfOk};

use crate::memory::NoMemory;
use std::alloc::Global;
use std::marker::Model;

/// One value on the heap. Its `drop` is written out, so that a type that holds itself through it can
/// write its own.
#[derive(Debug)]
pub struct Box<T> {
    inner: std::boxed::Box<T>,
}

impl<T: Drop> Drop for Box<T> {
    fn drop(self) {
        let Box { inner: _ } = self;
    }
}

impl<T> Model for Box<T> {
    ghost Value = { T };

    ghost coded = { T.code };

    ghost view = { λ b. b.inner.value };
}

impl<T> Box<T> {
    /// The value.
    pub fn value(&self) -> &T
        ensures { result.now ≡ self.now }
    {
        &self.inner
    }

    /// The value, moved out.
    pub fn into_value(self) -> T
        ensures { result ≡ self }
    {
        let Box { inner } = self;
        std::boxed::Box::into_inner(inner)
    }
}

impl<T: Drop> Box<T> {
    /// A box of this value. A value that found no room is given up.
    pub fn new(alloc: Global, value: T) -> Result<Box<T>, NoMemory>
        ensures { IfOk result (λ b. b ≡ value) }
    {
        Ok(Box {
            inner: std::boxed::Box::new(alloc, value)?,
        })
    }
}
