//! A pool that threads share.
ghost use Rattle.word_lock.specs.Seats.{IsSourceOf};

use crate::cache_room::{limits_of_import, with_room};
use crate::first::{first_view, state_behind, view_behind};
use crate::handle::{Handle, LastSeen};
use crate::opened::Opened;
use crate::rule::{PoolRule, PoolView};
use crate::shared::{Shared, boxed};
use base::{Group, PoolError, Told};
use device_model::SectorDevice;
use import_replay::{Imported, Limits, import};
use pool_core::PoolState;
use std::alloc::Global;
use std::snapshot::Snapshot;
use word_lock::{SeatSource, WordLock};

/// A pool that threads share by reference, each with a [`Handle`] of its own.
///
/// [`Pool::open`] opens it, [`Pool::handle`] gives a handle, and [`Pool::finish`] or [`Pool::close`] ends it.
#[derive(Drop)]
pub struct Pool<D: SectorDevice> {
    pub(crate) shared: Shared<D>,
    pub(crate) opened: Opened,
    source: SeatSource<Box<PoolState<D>>, PoolRule<D>>,
    ghost own: { IsSourceOf shared.lock source },
}

impl<D: SectorDevice> Pool<D> {
    ghost use Rattle.std.specs.Prelude.{◌≡◌, ◌⊎◌, IfErr, IfOk, IfSome, IsSome, IsTrue};
    ghost use Rattle.base.specs.disk.Calls.{with_refusal};
    ghost use Rattle.import_replay.specs.ImportRefusals.{IsImportRefusal};
    ghost use Rattle.mounted.specs.ShownMounted.{shown_of_import};
    ghost use Rattle.pool_core.specs.States.{device_of, shown};
    ghost use Rattle.pool_threads.specs.Finishes.{Finishes};
    ghost use Rattle.pool_threads.specs.Handles.{HasCacheOf, IsLastState, IsLaterState, IsLeftByOpen, IsNewHandle, IsReadyToOpen, LeavesSame, OpensBehind, ShowsImport, ShowsMounted, StartsBehind, WasOf, are_shared_limits_allowed, kin_left, moment_in, opened_in, opened_of, opening_view, shared_of};
    ghost use Rattle.pool_threads.specs.Views.{Explains, SeenPool};

    /// Opens the pool on a device, as often as one likes: this is the way in for a program. The pool takes the device,
    /// and holds no more in memory than the limits say. Its cache may have 1 to
    /// [`GREATEST_SHARED_CACHE_BLOCKS`](import_replay::GREATEST_SHARED_CACHE_BLOCKS) blocks.
    ///
    /// The moment is a time in seconds, or 0 if no clock is read. It is stored in the uberblocks of this import, and in
    /// those of the syncs that handles start.
    ///
    /// For proofs: if the device keeps the model, the contents are what the run left that its disk holds, whichever
    /// that was, and the crash rule is followed from there on.
    ///
    /// # Errors
    /// Those of `import`, and `NoMemory` if there is none for the lock. The device comes back, as the import left
    /// it. In a function that returns a `PoolError`, `?` drops the device. With `anyhow`, write
    /// `.map_err(PoolError::from)?`.
    pub fn open(
        alloc: Global,
        device: D,
        limits: Limits,
        moment: u64,
    ) -> Result<Pool<D>, (PoolError, D)>
        ensures opened { IfOk result (λ p. OpensBehind (IsTrue D.keeps_model) (D.disk device)
            limits.dirty_max (opening_view (shared_of p))) }
        ensures imported { IsTrue D.keeps_model → IfOk result
            (λ p. ShowsImport moment (D.disk device) (opened_in p)
            (opening_view (shared_of p))) }
        ensures moment { IfOk result (λ p. moment_in (shared_of p) ≡ moment) }
        ensures cache { IfOk result (λ p. HasCacheOf limits.cache_blocks (opening_view (shared_of p))) }
        ensures refused { IfErr result (λ e. IsImportRefusal (D.size device)
            (are_shared_limits_allowed limits.dirty_max limits.cache_blocks) e.0) }
        ensures counted { IfErr result
            (λ e. D.refused e.1 ≡ with_refusal e.0 (D.refused device)) }
        ensures untouched { IfErr result
            (λ e. (e.0 ≡ PoolError.BadGeometry) ⊎ (e.0 ≡ PoolError.BadRange) → e.1 ≡ device) }
        ensures given_back { IsTrue D.keeps_model
            → IfErr result (λ e. IsLeftByOpen moment (D.disk device) e.0 (D.disk e.1)) }
        ensures still_left { IsTrue D.keeps_model
            → IfErr result (λ e. LeavesSame (D.disk device) (D.disk e.1)) }
    {
        let before = Snapshot::of(&device);
        let imported = match import(alloc, device, limits_of_import(limits), moment) {
            Ok(imported) => with_room(imported, limits.cache_blocks),
            Err(refused) => return Err(refused),
        };
        match Pool::share_after(imported, moment, &before) {
            Ok(pool) => Ok(pool),
            Err((error, state)) => Err((error, state.into_device())),
        }
    }

    /// What the import found and did as the pool was opened: also whether it had to replay the log.
    pub fn opened(&self) -> Opened
        ensures { result ≡ opened_in self.now }
    {
        self.opened
    }

    /// A handle for a thread, at any time. Each thread has one of its own.
    ///
    /// For proofs: it has seen a view that goes on from the first one, and has had no turn.
    pub fn handle(&self) -> Handle<'_, D>
        ensures { IsNewHandle (shared_of self.entry.now) result }
    {
        let shared = &self.shared;
        let seat = self.source.seat(&shared.lock);
        Handle { shared, seat }
    }

    /// Tells the loops of the pool to stop (`Handle::quiescer`, `Handle::syncer`). Each returns at its next turn. Other
    /// calls still work.
    pub fn stop(&self) {
        self.shared.stop();
    }

    /// Takes the state out of the pool, for one thread, without a sync. `finish` syncs it and gives the device back. No
    /// handle lives any more then. `None` only if a thread was stopped while it had the pool.
    ///
    /// For proofs: the state is reached by steps from the first one. If the crash rule was followed, each crash of its
    /// device leaves a cut of its history with every acknowledged entry.
    pub fn close(self) -> Option<PoolState<D>>
    where
        D: Drop,
        ensures { IfSome result (λ s. IsLaterState (shared_of self) s) }
    {
        let Pool {
            shared,
            opened: _,
            source: _,
        } = self;
        shared.close()
    }

    /// Syncs all that was committed, and gives the device back, with the group that is synced. No handle lives any more
    /// then. The moment, in seconds, is stored in the uberblocks of this sync.
    ///
    /// For proofs: a sync of the last state returned this, and it left a state that is reached by steps, too. If the
    /// crash rule was followed, each crash of the device leaves a cut of that history with every acknowledged entry,
    /// also if the sync was refused (`finished_pools_are_left`).
    ///
    /// # Errors
    /// Those of `PoolState::sync_open_group`, with the device. What was acknowledged is on it: open the pool again. It
    /// is `NotReady` if a transaction is open, since no handle is left to end it, or if the open group is 2^60.
    /// `Suspended` comes without a device if a thread was stopped while it had the pool.
    pub fn finish(self, moment: u64) -> Result<(Group, D), (PoolError, Option<D>)>
    where
        D: Drop,
        ensures { Finishes (shared_of self) moment result }
    {
        let mut state = match self.close() {
            Some(state) => state,
            None => return Err((PoolError::Suspended, None)),
        };
        let synced = state.sync_open_group(moment);
        let device = state.into_device();
        match synced {
            Ok(group) => Ok((group, device)),
            Err(error) => Err((error, Some(device))),
        }
    }

    /// For proofs: a pool of a state, with a view that explains it. A program takes `open`.
    ///
    /// No thread has the pool yet. The syncs that its handles start carry this moment, in seconds. `Pool::opened` tells
    /// what it is handed here.
    ///
    /// # Errors
    /// `NoMemory` if there is none for the lock. The state then comes back.
    pub fn new(
        state: PoolState<D>,
        opened: Opened,
        moment: u64,
    ) -> Result<Pool<D>, (PoolError, PoolState<D>)>
        ghost first: { SeenPool }
        requires explained { Explains state first }
        ensures opening { IfOk result (λ p. opening_view (shared_of p) ≡ first) }
        ensures told { IfOk result (λ p. opened_in p ≡ opened) }
        ensures moment { IfOk result (λ p. moment_in (shared_of p) ≡ moment) }
        ensures refused { IfErr result (λ e. (e.0 ≡ PoolError.NoMemory) × (e.1 ≡ state)) }
    {
        let first = first_view(&state);
        Pool::with_view(state, opened, moment, &first)
    }

    /// For proofs: the pool that an import gave, to be shared. A program takes `open`.
    ///
    /// The syncs that its handles start carry this moment, in seconds. Nothing is known of the run that left its disk,
    /// so the crash rule is not followed; `open` and `share_after` follow it.
    ///
    /// # Errors
    /// `NoMemory` if there is none for the lock. The state then comes back.
    pub fn share(imported: Imported<D>, moment: u64) -> Result<Pool<D>, (PoolError, PoolState<D>)>
        ensures shown { IfOk result (λ p. ShowsMounted imported.mounted imported.cache.cap
            (D.disk imported.device) (opening_view (shared_of p))) }
        ensures told { IfOk result (λ p. opened_in p ≡ opened_of imported.mounted) }
        ensures moment { IfOk result (λ p. moment_in (shared_of p) ≡ moment) }
        ensures refused { IfErr result (λ e. (e.0 ≡ PoolError.NoMemory)
            × (device_of e.1 ≡ imported.device)
            × (shown e.1 ≡ shown_of_import imported.mounted)) }
    {
        let opened = Opened::of(&imported.mounted);
        let state = PoolState::new(imported);
        Pool::new(state, opened, moment)
    }

    /// For proofs: the pool that an import gave, to be shared, with the device as it was before the import. A program
    /// takes `open`.
    ///
    /// The syncs that its handles start carry this moment, in seconds. If that device keeps the model, the contents are
    /// what the run left that it holds, whichever that was, and the crash rule is followed from there on.
    ///
    /// # Errors
    /// `NoMemory` if there is none for the lock. The state then comes back, and can be shared by `new`.
    pub fn share_after(
        imported: Imported<D>,
        moment: u64,
        before: &Snapshot<D>,
    ) -> Result<Pool<D>, (PoolError, PoolState<D>)>
        requires { IsTrue D.keeps_model → StartsBehind (D.disk before.now.value)
            imported.mounted (D.disk imported.device) }
        ensures opened { IfOk result
            (λ p. OpensBehind (IsTrue D.keeps_model) (D.disk before.now.value)
            (shown_of_import imported.mounted).dirty_max (opening_view (shared_of p))) }
        ensures shown { IfOk result (λ p. ShowsMounted imported.mounted imported.cache.cap
            (D.disk imported.device) (opening_view (shared_of p))) }
        ensures told { IfOk result (λ p. opened_in p ≡ opened_of imported.mounted) }
        ensures moment { IfOk result (λ p. moment_in (shared_of p) ≡ moment) }
        ensures refused { IfErr result (λ e. e.0 ≡ PoolError.NoMemory) }
        ensures given_back { IfErr result (λ e. IsReadyToOpen (D.disk before.now.value)
            imported.mounted imported.cache.cap imported.device e.1) }
    {
        let opened = Opened::of(&imported.mounted);
        let state = state_behind(imported, before);
        let first = view_behind(before, &state);
        Pool::with_view(state, opened, moment, &first)
    }

    /// For proofs: as `close`, after what a handle had seen as it left. A program takes `close`.
    ///
    /// The state is reached by steps that go on from there. `None` only if a thread was stopped while it had the pool.
    pub fn close_after(self, last: LastSeen<D>) -> Option<PoolState<D>>
    where
        D: Drop,
        requires { WasOf (shared_of self) last }
        ensures last { IfSome result (λ s. IsLastState (shared_of self) last s) }
        ensures only { kin_left last ≡ 0 → IsSome result }
    {
        let Pool {
            shared,
            opened: _,
            source: _,
        } = self;
        shared.close_after(last)
    }

    // A pool with this view, which explains it, and which tells this of its import.
    fn with_view(
        state: PoolState<D>,
        opened: Opened,
        moment: u64,
        first: &Told<PoolView>,
    ) -> Result<Pool<D>, (PoolError, PoolState<D>)>
        requires explained { Explains state first.now.value }
        ensures opening { IfOk result (λ p. opening_view (shared_of p) ≡ first.now.value) }
        ensures told { IfOk result (λ p. opened_in p ≡ opened) }
        ensures moment { IfOk result (λ p. moment_in (shared_of p) ≡ moment) }
        ensures refused { IfErr result (λ e. (e.0 ≡ PoolError.NoMemory) × (e.1 ≡ state)) }
    {
        let alloc = state.alloc();
        let held = match boxed(state) {
            Ok(held) => held,
            Err(refused) => return Err(refused),
        };
        match WordLock::with_source(alloc, held, first) {
            Ok((lock, source)) => Ok(Pool {
                shared: Shared::new(lock, alloc, moment),
                opened,
                source,
            }),
            Err((error, held)) => Err((error, Box::into_inner(held))),
        }
    }
}
