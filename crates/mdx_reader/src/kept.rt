//! Values kept elsewhere, so that what has them is small, and quick to move. Contracts see the value.
ghost use Rattle.std.specs.Prelude.{◌≡◌, IfOk};

use olap_meaning::OutOfMemory;
use std::alloc::Global;
use std::marker::Model;

/// A value kept elsewhere.
#[derive(Drop)]
pub struct Kept<T> {
    inner: Box<T>,
}

impl<T> Model for Kept<T> {
    ghost Value = { T };

    ghost view = { λ k. k.inner.value };
}

impl<T> Kept<T> {
    pub fn new(alloc: Global, value: T) -> Result<Kept<T>, OutOfMemory>
    where
        T: Drop,
        ensures { IfOk result (λ kept. kept ≡ value) }
    {
        let inner = Box::new(alloc, value)?;
        Ok(Kept { inner })
    }

    pub fn into_inner(self) -> T
        ensures { result ≡ self }
    {
        Box::into_inner(self.inner)
    }
}
