//! A client of the pool: what one run leaves on its device is what the next import finds, with crashes and without.
//!
//! It shows that the contracts of `create`, `import`, `PoolState::new`, `run`, `into_device` and `MemDevice::crash`
//! fit together: each function here is a few of these calls, and its clauses follow from theirs.
#![tactic(auto)]

ghost use Rattle.std.specs.Prelude.{◌≡◌, IfErr, IfOk, IsTrue, OnOk};
ghost use Rattle.base.specs.kept.CrashRule.{KeepsOwn};
ghost use Rattle.base.specs.kept.Imports.{is_dirty_max_allowed};
ghost use Rattle.base.specs.kept.Own.{IsOwnWith};
ghost use Rattle.base.specs.disk.Disk.{bytes_of, moments};
ghost use Rattle.import_replay.specs.CreateRefusals.{CanCreate, IsCreateRefusal};
ghost use Rattle.import_replay.specs.Creations.{IsNewPool};
ghost use Rattle.import_replay.specs.ImportRefusals.{FindsOwn, IsImportRefusal, IsReason};
ghost use Rattle.import_replay.specs.Mounts.{IsMountedAnew};
ghost use Rattle.import_replay.specs.OwnCreations.{first_contents};
ghost use Rattle.import_replay.specs.RunStarts.{StartsRun};
ghost use Rattle.base.specs.kept.LeftDisks.{GoesOnFrom};
ghost use Rattle.contents.specs.ContentsShown.{contents_of};
ghost use Rattle.round_trip.specs.Rounds.{IsOpened, ShowsMountedContents};

mod clients;
mod crashes;

use base::{DEFAULT_CACHE_BLOCKS, PoolError};
pub use crashes::{End, Round, go_round, go_rounds, import_and_run, play_rounds};
use device_model::SectorDevice;
use import_replay::{Imported, Limits, create, import};
use std::alloc::Global;

/// Makes a pool on a device, and returns the device. `moment` is in seconds.
///
/// # Errors
/// Those of `create`. The device is dropped.
pub fn make<D: SectorDevice + Drop>(
    device: D,
    name: &[u8],
    guid: u64,
    moment: u64,
) -> Result<D, PoolError>
    ensures written { IsTrue D.keeps_model
        → IfOk result (λ d. IsNewPool (bytes_of (D.disk d).now) name.now guid moment) }
    ensures own { IsTrue D.keeps_model → IfOk result
        (λ d. IsOwnWith (D.disk d) (moments (D.disk device)) guid (first_contents name.now)) }
    ensures goes_on { IsTrue D.keeps_model
        → IfOk result (λ d. GoesOnFrom (D.disk device) (D.disk d)) }
    ensures size { IfOk result (λ d. D.size d ≡ D.size device) }
    ensures made { OnOk result (CanCreate (D.size device) name.now) }
    ensures refusal { IfErr result (λ e. IsCreateRefusal (D.size device) name.now e) }
{
    match create(device, name, guid, moment) {
        Ok(device) => Ok(device),
        Err((error, _)) => Err(error),
    }
}

/// Imports the pool on a device. `moment` is in seconds.
///
/// # Errors
/// Those of `import`. The device is dropped.
pub fn open<D: SectorDevice + Drop>(
    alloc: Global,
    device: D,
    dirty_max: u64,
    moment: u64,
) -> Result<Imported<D>, PoolError>
    ensures found { IsTrue D.keeps_model → IfOk result
        (λ i. ShowsMountedContents (bytes_of (D.disk device).now)
        (contents_of i.mounted.contents)) }
    ensures opened { IsTrue D.keeps_model → IfOk result
        (λ i. IsOpened (bytes_of (D.disk device).now) (bytes_of (D.disk i.device).now) moment) }
    ensures own { IsTrue D.keeps_model
        → IfOk result (λ i. KeepsOwn (D.disk device) (D.disk i.device)) }
    ensures starts { IsTrue D.keeps_model
        → IfOk result (λ i. StartsRun (D.disk device) dirty_max (D.disk i.device) i.mounted) }
    ensures mounted { IfOk result (λ i. IsMountedAnew (D.size device) dirty_max i.mounted) }
    ensures refusal { IfErr result (λ e. IsImportRefusal (D.size device)
        (is_dirty_max_allowed dirty_max) e) }
    ensures reason { IsTrue D.keeps_model → IfErr result
        (λ e. IsReason (bytes_of (D.disk device).now) e × FindsOwn (D.disk device) e) }
{
    let limits = Limits {
        dirty_max,
        cache_blocks: DEFAULT_CACHE_BLOCKS,
    };
    match import(alloc, device, limits, moment) {
        Ok(imported) => Ok(imported),
        Err((error, _)) => Err(error),
    }
}
