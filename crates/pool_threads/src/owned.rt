//! A pool of one owner.
ghost use Rattle.std.specs.Prelude.{◌≡◌, IfErr, IfOk, IfSome, IsSome, IsTrue};
ghost use Rattle.mounted.specs.ShownMounted.{shown_of_import};
ghost use Rattle.pool_threads.specs.Handles.{IsBackIn, IsFirstSeen, IsLastState, IsReadyToOpen, OpensBehind, ShowsMounted, StartsBehind, WasOf, kin_left, moment_in, opening_view, owned_of};
ghost use Rattle.pool_threads.specs.Views.{Explains, view_behind_disk};

use crate::first::{state_behind, view_behind};
use crate::handle::{Handle, LastSeen};
use crate::rule::PoolView;
use crate::shared::{Shared, boxed};
use base::{PoolError, Told};
use device_model::SectorDevice;
use import_replay::Imported;
use pool_core::PoolState;
use std::snapshot::Snapshot;
use word_lock::WordLock;

/// For proofs: a pool that has one handle at a time, each of which goes on from the one before. A program takes
/// [`crate::Pool`].
///
/// As long as no handle is split, nothing changes the pool between two calls, and it always closes.
#[derive(Drop)]
pub struct OwnedPool<D: SectorDevice> {
    pub(crate) shared: Shared<D>,
}

impl<D: SectorDevice> OwnedPool<D> {
    /// For proofs: the pool that an import gave, with the device as it was before the import, and what its first handle
    /// has seen. The syncs that its handles start carry this moment, in seconds.
    ///
    /// If that device keeps the model, the contents are what the run left that it holds, whichever that was, and the
    /// crash rule is followed from there on.
    ///
    /// # Errors
    /// `NoMemory` if there is none for the lock. The state then comes back, and `of_state` takes it.
    pub fn of_import(
        imported: Imported<D>,
        moment: u64,
        before: &Snapshot<D>,
    ) -> Result<(OwnedPool<D>, LastSeen<D>), (PoolError, PoolState<D>)>
        requires { IsTrue D.keeps_model → StartsBehind (D.disk before.now.value)
            imported.mounted (D.disk imported.device) }
        ensures opened { IfOk result
            (λ p. OpensBehind (IsTrue D.keeps_model) (D.disk before.now.value)
            (shown_of_import imported.mounted).dirty_max (opening_view (owned_of p.0))) }
        ensures shown { IfOk result (λ p. ShowsMounted imported.mounted imported.cache.cap
            (D.disk imported.device) (opening_view (owned_of p.0))) }
        ensures first { IfOk result (λ p. IsFirstSeen (owned_of p.0) p.1) }
        ensures moment { IfOk result (λ p. moment_in (owned_of p.0) ≡ moment) }
        ensures refused { IfErr result (λ e. e.0 ≡ PoolError.NoMemory) }
        ensures given_back { IfErr result (λ e. IsReadyToOpen (D.disk before.now.value)
            imported.mounted imported.cache.cap imported.device e.1) }
    {
        OwnedPool::of_state(state_behind(imported, before), moment, before)
    }

    /// For proofs: as `of_import`, from the state of that pool, with the view in which nothing has happened since the
    /// import.
    ///
    /// # Errors
    /// `NoMemory` if there is none for the lock. The same state then comes back.
    pub fn of_state(
        state: PoolState<D>,
        moment: u64,
        before: &Snapshot<D>,
    ) -> Result<(OwnedPool<D>, LastSeen<D>), (PoolError, PoolState<D>)>
        requires { Explains state (view_behind_disk state (D.disk before.now.value)) }
        ensures opening { IfOk result (λ p. opening_view (owned_of p.0)
            ≡ view_behind_disk state (D.disk before.now.value)) }
        ensures first { IfOk result (λ p. IsFirstSeen (owned_of p.0) p.1) }
        ensures moment { IfOk result (λ p. moment_in (owned_of p.0) ≡ moment) }
        ensures refused { IfErr result (λ e. (e.0 ≡ PoolError.NoMemory) × (e.1 ≡ state)) }
    {
        let first = view_behind(before, &state);
        let alloc = state.alloc();
        let held = match boxed(state) {
            Ok(held) => held,
            Err(refused) => return Err(refused),
        };
        match WordLock::new(alloc, held, &first) {
            Ok((lock, seat)) => {
                let shared = Shared::new(lock, alloc, moment);
                Ok((OwnedPool { shared }, LastSeen { seat }))
            }
            Err((error, held)) => Err((error, Box::into_inner(held))),
        }
    }

    /// For proofs: a handle that goes on from what one had seen as it left. Its turns are among those that it knows of.
    pub fn handle_after(&self, last: LastSeen<D>) -> Handle<'_, D>
        requires { WasOf (owned_of self.now) last }
        ensures { IsBackIn (owned_of self.entry.now) last result }
    {
        self.shared.handle_after(last)
    }

    /// For proofs: the state, by steps that go on from what a handle had seen as it left.
    ///
    /// After a handle that was never split it is the state that the handle left, and there always is one. `None` only
    /// if a thread was stopped while it had the pool.
    pub fn close_after(self, last: LastSeen<D>) -> Option<PoolState<D>>
    where
        D: Drop,
        requires { WasOf (owned_of self) last }
        ensures last { IfSome result (λ s. IsLastState (owned_of self) last s) }
        ensures only { kin_left last ≡ 0 → IsSome result }
    {
        let OwnedPool { shared } = self;
        shared.close_after(last)
    }
}
