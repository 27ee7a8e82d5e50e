//! For proofs: a value that only clauses read.
ghost use Rattle.std.specs.Prelude.{◌≡◌};
ghost use base.Fml.{ftrue};

use std::fmt;
use std::marker::{Model, PhantomData};

/// For proofs: a `V` that the proof of its maker picks. It has no bytes, and a program never reads it.
pub struct Told<V> {
    marker: PhantomData<V>,
    pub ghost value: { V },
}

impl<V> Model for Told<V> {
    ghost also_owns = { λ _. ftrue };
}

impl<V> Told<V> {
    /// The value `v`, which the caller's proof picks (`ghost-of` in its `Invariants.antt`) from what the reference
    /// shows.
    pub fn of<X>(x: &X) -> Told<V>
        ghost v: { V }
        ensures { result.value ≡ v }
    {
        let _ = x;
        Told {
            marker: PhantomData,
        }
    }
}

impl<V> fmt::Debug for Told<V> {
    fn fmt<W: fmt::Write>(&self, f: &mut fmt::Formatter<W>) -> fmt::Result {
        f.debug_struct("Told").finish()
    }
}

impl<V> Drop for Told<V> {
    fn drop(self) {
        let Self { marker: _ } = self;
    }
}

unsafe impl<V> Send for Told<V> {}

unsafe impl<V> Sync for Told<V> {}
