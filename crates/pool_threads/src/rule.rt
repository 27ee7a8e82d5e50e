//! When a view explains the pool under the lock, and how views go on.

use device_model::SectorDevice;
use pool_core::PoolState;
use std::marker::{Model, PhantomData};
use word_lock::LockRule;

/// What a thread has seen of a pool: what is shown of it, with the past of its run and the disk of its device. No value
/// of it is made.
pub struct PoolView {
    of: PhantomData<u8>,
}

impl Model for PoolView {
    ghost use Rattle.std.specs.Coded.{codes, coded_list, coded_ℕ};
    ghost use Rattle.std.specs.FinMap as finite;
    ghost use Rattle.std.specs.FinSet as set;
    ghost use Rattle.pool_threads.specs.Views.{SeenPool, blank_view};

    ghost Value = { SeenPool };

    ghost coded = { Prim.hlevel (codes, finite.code, set.code) };

    ghost view = { λ _. blank_view };
}

/// A view explains a pool that shows just this on this disk, with a past that says how it came so. One goes on from
/// another by steps.
pub struct PoolRule<D> {
    of: PhantomData<D>,
}

impl<D: SectorDevice> LockRule<Box<PoolState<D>>> for PoolRule<D> {
    ghost use Rattle.std.specs.Prelude.{IsTrue};
    ghost use Rattle.pool_threads.specs.Views.{Explains, GrowsTo, blank_view, grows_onward, grows_same};

    type View = PoolView;

    ghost explains = { λ v b. Explains b.value v };

    ghost grows = { GrowsTo (IsTrue D.keeps_model) };

    ghost blank = { blank_view };

    ghost same = { grows_same (IsTrue D.keeps_model) };

    ghost onward = { grows_onward (IsTrue D.keeps_model) };
}
