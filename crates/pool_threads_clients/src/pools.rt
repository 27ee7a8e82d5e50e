//! What callers rest on of the calls that make a pool and its handles.

ghost use Rattle.std.specs.Prelude.{◌≡◌, IfSome, IsSome, IsTrue, ◌+◌, [], ℕ, List, Ok, length};
ghost use Rattle.import_replay.specs.ImportSyncs.{IsImportSynced};
ghost use Rattle.mounted.specs.ShownMounted.{shown_of_import};
ghost use Rattle.mounted.specs.declared.mounted.Mounted.{Mounted};
ghost use Rattle.pool_threads.specs.Handles.{OpensBehind, StartsBehind, WasOf, kin_left, opening_view, owned_of, shared_of, kin_of, moment_in, moment_of, taken_by, turns_of, view_seen};
ghost use Rattle.pool_threads.specs.Views.{Explains, GrowsTo, IsFollowed, SeenPool, since, viewed_state};
ghost use Rattle.word_lock.specs.Seats.{seen};
ghost use Rattle.base.specs.kept.LeftDisks.{IsLeft};
ghost use Rattle.base.specs.tree.Mount.{IsChainOf, records_above};
ghost use Rattle.base.specs.disk.Disk.{bytes_of, moments};
ghost use Rattle.base.specs.formats.Chain.{LogPiece};
ghost use Rattle.base.specs.formats.Uberblocks.{IsActive, Uberblock};
ghost use Rattle.base.specs.history.Past.{Past};
ghost use Rattle.base.specs.steps.Explains as every;
ghost use Rattle.base.specs.steps.Explains.{AreSafe, IsLeftBy};
ghost use Rattle.pool_threads.specs.Finishes.{SyncsAtEnd};
ghost use Rattle.pool_threads.specs.Views.CrashRule.{Behind};

use base::{Group, PoolError};
use device_model::SectorDevice;
use import_replay::{Imported, Limits, create};
use pool_core::PoolState;
use pool_threads::{Handle, LastSeen, Opened, OwnedPool, Pool};
use std::alloc::Global;
use std::snapshot::Snapshot;

// A dirty limit of 1 MiB, and 256 blocks.
const LIMITS: Limits = Limits {
    dirty_max: 1_048_576,
    cache_blocks: 256,
};

// Its state is explained by a view that goes on from what the handle had seen as it left.
fn a_pool_closes_behind_what_its_handle_saw<D: SectorDevice>(
    pool: Pool<D>,
    last: LastSeen<D>,
) -> Option<PoolState<D>>
where
    D: Drop,
    requires { WasOf (shared_of pool) last }
    ensures { IfSome result (λ s. (v : SeenPool) × Explains s v
        × GrowsTo (IsTrue D.keeps_model) (seen last.seat) v) }
{
    match pool.close_after(last) {
        Some(state) => Some(state),
        None => None,
    }
}

fn a_pool_closes_behind_what_it_opened_with<D: SectorDevice>(pool: Pool<D>) -> Option<PoolState<D>>
where
    D: Drop,
    ensures { IfSome result (λ s. (v : SeenPool) × Explains s v
        × GrowsTo (IsTrue D.keeps_model) (opening_view (shared_of pool)) v) }
{
    match pool.close() {
        Some(state) => Some(state),
        None => None,
    }
}

fn an_open_without_memory_had_no_call_refused<D: SectorDevice>(
    alloc: Global,
    device: D,
) -> Option<D>
where
    D: Drop,
    ensures { IfSome result (λ d. D.refused d ≡ D.refused device) }
{
    match Pool::open(alloc, device, LIMITS, 0) {
        Err((PoolError::NoMemory, device)) => Some(device),
        _ => None,
    }
}

// With the moment of the open in its uberblocks.
fn an_open_pool_has_the_disk_that_its_import_left<D: SectorDevice>(
    alloc: Global,
    device: D,
) -> Option<Pool<D>>
where
    D: Drop,
    ensures { IsTrue D.keeps_model → IfSome result (λ p. (m : Mounted)
        × IsImportSynced (D.disk device) (opening_view (shared_of p)).disk 7 m) }
{
    match Pool::open(alloc, device, LIMITS, 7) {
        Ok(pool) => Some(pool),
        Err(_) => None,
    }
}

// Two tree blocks that were read may stay in memory, as its caller says.
fn an_open_pool_has_its_cache<D: SectorDevice>(alloc: Global, device: D) -> Option<Pool<D>>
where
    D: Drop,
    ensures { IfSome result (λ p. (opening_view (shared_of p)).cache_room ≡ 2) }
{
    let limits = Limits {
        cache_blocks: 2,
        ..LIMITS
    };
    match Pool::open(alloc, device, limits, 7) {
        Ok(pool) => Some(pool),
        Err(_) => None,
    }
}

fn an_open_pool_may_keep_1_gib<D: SectorDevice>(alloc: Global, device: D) -> Option<Pool<D>>
where
    D: Drop,
    ensures { IfSome result (λ p. (opening_view (shared_of p)).cache_room ≡ 262144) }
{
    let limits = Limits {
        cache_blocks: 262_144,
        ..LIMITS
    };
    match Pool::open(alloc, device, limits, 7) {
        Ok(pool) => Some(pool),
        Err(_) => None,
    }
}

fn no_pool_opens_with_a_larger_cache<D: SectorDevice>(alloc: Global, device: D)
where
    D: Drop,
{
    let limits = Limits {
        cache_blocks: 262_145,
        ..LIMITS
    };
    let opened = Pool::open(alloc, device, limits, 7);
    prove!(opened.is_err());
}

fn an_open_pool_lets_256_blocks_stay<D: SectorDevice>(alloc: Global, device: D) -> Option<Pool<D>>
where
    D: Drop,
    ensures { IfSome result (λ p. (opening_view (shared_of p)).cache_room ≡ 256) }
{
    match Pool::open(alloc, device, LIMITS, 7) {
        Ok(pool) => Some(pool),
        Err(_) => None,
    }
}

fn an_open_pool_follows_the_crash_rule<D: SectorDevice>(alloc: Global, device: D) -> Option<Pool<D>>
where
    D: Drop,
    ensures { IfSome result (λ p. OpensBehind (IsTrue D.keeps_model) (D.disk device) 1048576
        (opening_view (shared_of p))) }
{
    match Pool::open(alloc, device, LIMITS, 7) {
        Ok(pool) => Some(pool),
        Err(_) => None,
    }
}

// From the create that made it, whatever the device held before: no run is asked for.
fn one_history_explains_a_new_pool<D: SectorDevice>(alloc: Global, device: D) -> Option<Pool<D>>
where
    D: Drop,
    ensures followed { IsTrue D.keeps_model → IfSome result
        (λ p. IsFollowed (opening_view (shared_of p)).rule (moments (D.disk device))) }
    ensures explained { IsTrue D.keeps_model → IfSome result
        (λ p. ∥ every.Explains (Unit {0}) (opening_view (shared_of p)).disk
        (viewed_state (opening_view (shared_of p))).shown
        (since (moments (D.disk device)) (opening_view (shared_of p)).past) ∥₁) }
{
    let Ok(made) = create(device, b"tank", 77, 0) else {
        return None;
    };
    match Pool::open(alloc, made, LIMITS, 0) {
        Ok(pool) => Some(pool),
        Err(_) => None,
    }
}

// It is the state that the only handle left.
fn a_pool_of_one_handle_always_closes<D: SectorDevice>(
    pool: OwnedPool<D>,
    last: LastSeen<D>,
) -> Option<PoolState<D>>
where
    D: Drop,
    requires own { WasOf (owned_of pool) last }
    requires only { kin_left last ≡ 0 }
    ensures some { IsSome result }
    ensures same { IfSome result (λ s. Explains s (seen last.seat)) }
{
    pool.close_after(last)
}

// A first handle sees the opening view, and is the only one.
fn a_pool_of_one_handle_that_lacked_memory_opens_at_last<D: SectorDevice>(
    imported: Imported<D>,
    before: &Snapshot<D>,
) -> Option<(OwnedPool<D>, LastSeen<D>)>
where
    D: Drop,
    requires { IsTrue D.keeps_model → StartsBehind (D.disk before.now.value)
        imported.mounted (D.disk imported.device) }
    ensures opened { IfSome result (λ p. OpensBehind (IsTrue D.keeps_model)
        (D.disk before.now.value) (shown_of_import imported.mounted).dirty_max
        (opening_view (owned_of p.0))) }
    ensures first { IfSome result (λ p. kin_left p.1 ≡ 0) }
    ensures seen { IfSome result (λ p. seen p.1.seat ≡ opening_view (owned_of p.0)) }
{
    match OwnedPool::of_import(imported, 7, before) {
        Ok(opened) => Some(opened),
        Err((_, state)) => match OwnedPool::of_state(state, 7, before) {
            Ok(opened) => Some(opened),
            Err(_) => None,
        },
    }
}

// It has seen what goes on from the opening view, and has had no turn.
fn a_new_handle_has_made_no_step<D: SectorDevice>(pool: &Pool<D>) -> Handle<'_, D>
    ensures seen { GrowsTo (IsTrue D.keeps_model) (opening_view (shared_of pool.entry.now))
        (view_seen result) }
    ensures turns { (turns_of result ≡ []) × (taken_by result ≡ []) }
    ensures number { kin_of result ≡ 1 }
    ensures moment { moment_of result ≡ moment_in (shared_of pool.entry.now) }
{
    pool.handle()
}

// It shows what was mounted, over the disk that the import left, and its syncs carry the moment.
fn a_shared_pool_shows_what_was_mounted<D: SectorDevice>(imported: Imported<D>) -> Option<Pool<D>>
where
    D: Drop,
    ensures shown { IfSome result (λ p. (viewed_state (opening_view (shared_of p))).shown
        ≡ shown_of_import imported.mounted) }
    ensures disk { IfSome result (λ p. (opening_view (shared_of p)).disk
        ≡ D.disk imported.device) }
    ensures moment { IfSome result (λ p. moment_in (shared_of p) ≡ 7) }
{
    match Pool::share(imported, 7) {
        Ok(pool) => Some(pool),
        Err(_) => None,
    }
}

// It follows the crash rule after the disk before the import, and its contents are what the run left that this disk
// holds, whichever that was.
fn a_pool_shared_after_an_import_goes_on_from_its_disk<D: SectorDevice>(
    imported: Imported<D>,
    before: &Snapshot<D>,
) -> Option<Pool<D>>
where
    D: Drop,
    requires { IsTrue D.keeps_model → StartsBehind (D.disk before.now.value)
        imported.mounted (D.disk imported.device) }
    ensures rule { IfSome result (λ p. (opening_view (shared_of p)).rule
        ≡ Behind (D.disk before.now.value)) }
    ensures left { IfSome result (λ p. IsTrue D.keeps_model → (past : Past)
        → IsLeft past (D.disk before.now.value)
        → IsLeftBy past (viewed_state (opening_view (shared_of p))).shown.contents) }
    ensures moment { IfSome result (λ p. moment_in (shared_of p) ≡ 7) }
{
    match Pool::share_after(imported, 7, before) {
        Ok(pool) => Some(pool),
        Err(_) => None,
    }
}

// Whichever view that is.
fn a_pool_opens_with_the_view_that_explains_its_state<D: SectorDevice>(
    state: PoolState<D>,
    opened: Opened,
) -> Option<Pool<D>>
where
    D: Drop,
    ghost first: { SeenPool }
    requires { Explains state first }
    ensures opening { IfSome result (λ p. opening_view (shared_of p) ≡ first) }
    ensures moment { IfSome result (λ p. moment_in (shared_of p) ≡ 7) }
{
    match Pool::new(state, opened, 7) {
        Ok(pool) => Some(pool),
        Err(_) => None,
    }
}

// Of the log that the disk had: as many as the chain of its active uberblock has above the synced group.
fn an_open_pool_tells_how_many_records_it_replayed<D: SectorDevice>(
    alloc: Global,
    device: D,
) -> Option<u64>
where
    D: Drop,
    ensures { IsTrue D.keeps_model → IfSome result (λ records. (u : Uberblock)
        × (chain : List LogPiece) × IsActive (bytes_of (D.disk device).now) u
        × IsChainOf (bytes_of (D.disk device).now) u chain
        × (length (records_above u.group chain) ≡ records)) }
{
    match Pool::open(alloc, device, LIMITS, 0) {
        Ok(pool) => Some(pool.opened().records),
        Err(_) => None,
    }
}

// The group is the active one and four more, since an import skips the numbers that a crash may have used.
fn an_open_pool_tells_what_its_disk_had<D: SectorDevice>(alloc: Global, device: D) -> Option<Opened>
where
    D: Drop,
    ensures { IsTrue D.keeps_model → IfSome result (λ opened. (u : Uberblock)
        × IsActive (bytes_of (D.disk device).now) u × (opened.guid ≡ u.guid)
        × (opened.group.0 ≡ u.group + 4) × (opened.import_number ≡ u.import_number + 1)) }
{
    match Pool::open(alloc, device, LIMITS, 0) {
        Ok(pool) => Some(pool.opened()),
        Err(_) => None,
    }
}

// Its group was synced with this moment at the end, and the device is as that sync left it.
fn a_finished_pool_gives_its_synced_device_back<D: SectorDevice>(
    pool: Pool<D>,
) -> Option<(Group, D)>
where
    D: Drop,
    ensures { IfSome result (λ r. SyncsAtEnd (shared_of pool) 7 (Ok r.0) r.1) }
{
    match pool.finish(7) {
        Ok(finished) => Some(finished),
        Err(_) => None,
    }
}

// With every entry that was acknowledged, if the pool followed the crash rule, also if its last sync was refused.
fn a_finished_pool_leaves_its_history<D: SectorDevice>(pool: Pool<D>) -> Option<D>
where
    D: Drop,
    ensures { IsTrue D.keeps_model → (created : ℕ)
        → IsFollowed (opening_view (shared_of pool)).rule created
        → IfSome result (λ d. ∥ ((past : Past) × (past.created ≡ created)
        × AreSafe (D.disk d) past × IsLeft past (D.disk d)) ∥₁) }
{
    match pool.finish(7) {
        Ok((_, device)) => Some(device),
        Err((_, device)) => device,
    }
}

// Only a pool that a stopped thread has keeps its device.
fn a_pool_that_cannot_be_finished_gives_its_device_back<D: SectorDevice>(
    pool: Pool<D>,
) -> Option<PoolError>
where
    D: Drop,
    ensures { IfSome result (λ e. e ≡ PoolError.Suspended) }
{
    match pool.finish(7) {
        Err((error, None)) => Some(error),
        _ => None,
    }
}
