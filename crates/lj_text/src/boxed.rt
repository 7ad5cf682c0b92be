//! Values in memory of their own.
ghost use Rattle.std.specs.Prelude.{◌≡◌, IfOk};

use std::alloc::{AllocFailed, Global};
use std::marker::Model;
use std::ops::Deref;

/// A value in memory of its own, so that what holds it is small. Two are equal where their values are.
#[derive(Debug, Drop)]
pub struct Boxed<T> {
    inner: Box<T>,
}

impl<T> Model for Boxed<T> {
    ghost Value = { T };

    ghost coded = { T.code };

    ghost view = { λ b. b.inner.value };
}

impl<T> Boxed<T> {
    /// The value, in memory of its own. Takes constant time.
    ///
    /// # Errors
    /// [`AllocFailed`] with the value, where the memory was refused.
    pub fn new(alloc: Global, value: T) -> Result<Boxed<T>, AllocFailed<T>>
        ensures { IfOk result (λ boxed. boxed ≡ value) }
    {
        Ok(Boxed {
            inner: Box::new(alloc, value)?,
        })
    }

    /// The value, whose memory is given back. Takes constant time.
    pub fn into_inner(self) -> T
        ensures { result ≡ self }
    {
        Box::into_inner(self.inner)
    }

    /// The value that stands there.
    #[inline]
    pub(crate) fn from_box(inner: Box<T>) -> Boxed<T>
        ensures { result ≡ inner.value }
    {
        Boxed { inner }
    }

    /// The memory with the value.
    #[inline]
    pub(crate) fn into_box(self) -> Box<T>
        ensures { result.value ≡ self }
    {
        self.inner
    }
}

impl<T> Deref for Boxed<T> {
    type Target = T;

    ghost deref_gives = { λ boxed value. value ≡ boxed };

    #[inline]
    fn deref(&self) -> &T {
        &*self.inner
    }
}
