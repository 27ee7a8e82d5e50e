//! A pool of one handle: nothing changes it but what that handle does.

ghost use Rattle.std.specs.Prelude.{◌≡◌, ◌⊎◌, IfErr, IfOk, IsTrue};
ghost use Rattle.base.specs.disk.Calls.{with_refusal};
ghost use Rattle.base.specs.kept.Imports.{is_dirty_max_allowed};
ghost use Rattle.running_pools.specs.LeftDevices.{ClosesAfter};
ghost use Rattle.import_replay.specs.ImportRefusals.{IsImportRefusal};
ghost use Rattle.pool_threads.specs.Handles.{IsFirstSeen, IsLeftByOpen, LeavesSame, OpensBehind, WasOf, kin_left, opening_view, owned_of};

use base::{DEFAULT_CACHE_BLOCKS, Owner, PoolError};
use device_model::SectorDevice;
use import_replay::{Limits, import};
use pool_threads::{LastSeen, OwnedPool};
use std::alloc::Global;
use std::snapshot::Snapshot;

/// The owner of a command's transactions.
pub const OWNER: Owner = Owner(0);

/// Opens the pool on a device for one handle, as `Pool::open` does. It also returns what that handle has seen before
/// its first call: `OwnedPool::handle_after` makes the handle of it.
///
/// # Errors
/// Those of `Pool::open`. The device comes back.
pub fn open_alone<D: SectorDevice>(
    alloc: Global,
    device: D,
    dirty_max: u64,
    moment: u64,
) -> Result<(OwnedPool<D>, LastSeen<D>), (PoolError, D)>
    ensures opened { IfOk result (λ p. OpensBehind (IsTrue D.keeps_model) (D.disk device)
        dirty_max (opening_view (owned_of p.0))) }
    ensures first { IfOk result (λ p. IsFirstSeen (owned_of p.0) p.1) }
    ensures refused { IfErr result (λ e. IsImportRefusal (D.size device)
        (is_dirty_max_allowed dirty_max) e.0) }
    ensures counted { IfErr result (λ e. D.refused e.1 ≡ with_refusal e.0 (D.refused device)) }
    ensures untouched { IfErr result
        (λ e. (e.0 ≡ PoolError.BadGeometry) ⊎ (e.0 ≡ PoolError.BadRange) → e.1 ≡ device) }
    ensures given_back { IsTrue D.keeps_model
        → IfErr result (λ e. IsLeftByOpen moment (D.disk device) e.0 (D.disk e.1)) }
    ensures still_left { IsTrue D.keeps_model
        → IfErr result (λ e. LeavesSame (D.disk device) (D.disk e.1)) }
{
    let before = Snapshot::of(&device);
    let limits = Limits {
        dirty_max,
        cache_blocks: DEFAULT_CACHE_BLOCKS,
    };
    let imported = match import(alloc, device, limits, moment) {
        Ok(imported) => imported,
        Err(refused) => return Err(refused),
    };
    match OwnedPool::of_import(imported, moment, &before) {
        Ok(opened) => Ok(opened),
        Err((error, state)) => Err((error, state.into_device())),
    }
}

/// Closes a pool after its only handle has left, without a sync, and returns its device.
pub fn close_alone<D: SectorDevice + Drop>(pool: OwnedPool<D>, last: LastSeen<D>) -> D
    requires own { WasOf (owned_of pool) last }
    requires only { kin_left last ≡ 0 }
    ensures { ClosesAfter (owned_of pool) last result }
{
    let state = pool.close_after(last).unwrap();
    state.into_device()
}
