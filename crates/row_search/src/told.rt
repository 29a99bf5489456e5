//! A value that only clauses read.
ghost use Rattle.std.specs.Prelude.{◌≡◌};

use std::marker::{Model, PhantomData};

/// A `T` as clauses see it, with no bytes. It is std's `Snapshot`, and beside that the toolchain finds that what holds one is `Send`.
pub(crate) struct Told<T> {
    marker: PhantomData<T>,
    pub ghost value: { T },
}

impl<T> Model for Told<T> {
    ghost use base.Fml.{ftrue};

    ghost also_owns = { λ _. ftrue };
}

impl<T> Told<T> {
    /// What the reference shows.
    pub(crate) fn of(x: &T) -> Told<T>
        ensures { result.value ≡ x.now }
    {
        let _ = x;
        Told {
            marker: PhantomData,
        }
    }
}

unsafe impl<T> Send for Told<T> {}

unsafe impl<T> Sync for Told<T> {}

impl<T> Drop for Told<T> {
    fn drop(self) {
        let Self { marker: _ } = self;
    }
}
