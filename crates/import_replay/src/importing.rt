//! The import of a pool: what its image mounts, and a sync that makes the image the run's own.
//!
//! OpenZFS opens a pool in the same order (`spa_load` in `spa.c`); the labels are those of the On-Disk Specification,
//! chapter 1. If the active uberblock has group u and import number i, an import does this:
//!
//! 1. It refuses a size that no pool has and limits that aren't allowed. No device call is made before that.
//! 2. It flushes the device. What an earlier run wrote and left unflushed is then settled, so a crash leaves what is
//!    read.
//! 3. It reads the labels: the active uberblock, and the config that is chosen for it, which has the pool's name.
//! 4. It reads the tree, each block checked against its pointer. The first block that fails is reported as `Damaged`.
//!    What stays in memory of the tree: the pointers down to what its directories name, and which blocks it leaves
//!    free. No pointer below these stays. Then it reads the log chain and replays it: the records of groups above u
//!    are applied, in order (`zil_replay` of `zil.c`). The first block of the first record that can't take place is
//!    reported as `Damaged` with kind 6.
//! 5. It refuses u + 5 or i + 1 above 2^60. Of each object that the records change, rising, it reads again the top,
//!    if the object has two levels, and then the indirect blocks that the plan looks at. Then it reads each data
//!    block that they change in part, for rising objects and in each for rising blocks. The tree that the records
//!    leave is planned as that of group u + 4. It takes the lowest blocks that neither the old tree nor the chain
//!    has, one for each place that the records write, in the order of a sync. The lowest block that none of these has
//!    becomes the first log block. No memory is taken after that.
//! 6. It syncs group u + 4 with import number i + 1, the planned blocks, the new root and the new config
//!    (`sync_group`). Without a record to replay there is no block, and the root stays. The run before may have written
//!    for the groups u + 1 to u + 3; the jump keeps the new group apart from them.
//! 7. If label 1 or 3 holds the chosen config, labels 0 and 2 are written first, else labels 1 and 3. So a stage that
//!    holds the chosen config is written last, when the new uberblock is settled (rules 2, 8 and 10 of
//!    `sync/src/run.rt`).
//!
//! A crash before 6 leaves the flushed image. A crash in 6 leaves the old uberblock or the new one active. The old one
//! has its tree and its chain still, and the new one a tree of what these mount. So the next import mounts the same
//! contents. If the device refuses a call, the calls before it are made, and the import can be made again.

ghost use Rattle.std.specs.Prelude.{◌≡◌, ◌<◌, ◌*◌, [], false, true, IfErr, IfOk, IsTrue, MatchResult, OnOk};
ghost use Rattle.base.specs.kept.CrashRule.{KeepsOwn};
ghost use Rattle.base.specs.kept.Imports as numbers;
ghost use Rattle.base.specs.disk.Calls.{with_refusal};
ghost use Rattle.base.specs.disk.Disk.{bytes_of};
ghost use Rattle.base.specs.formats.Geometry.{IsGeometry, sector_size};
ghost use Rattle.uberblocks.specs.Slots.{IsWithinLimits, fields_of};
ghost use Rattle.import_replay.specs.Devices.{CanImportOn, IsSizedFor, KeepsDevice};
ghost use Rattle.import_replay.specs.ImportRefusals.{IsBoundsRefusal};
ghost use Rattle.import_replay.specs.ImportStops.{writes_of_next};
ghost use Rattle.import_replay.specs.ImportSyncs.{IsImportWritten};
ghost use Rattle.import_replay.specs.ImportViews.{EndsBehind, KeepsViews};
ghost use Rattle.import_replay.specs.LabelSyncs.{IsGroupSynced, is_even};
ghost use Rattle.import_replay.specs.Mounts.{IsImport, IsMountedAnew, IsMountedFrom};
ghost use Rattle.import_replay.specs.NextPools.{IsReadyFor, pool_parts};
ghost use Rattle.import_replay.specs.Refused.{IsImportRefused, IsMountRefused, IsOpenRefused};
ghost use Rattle.import_replay.specs.RunStarts.{StartsRun};

use crate::finding::Found;
use crate::imported::Imported;
use crate::label_sync::sync_group;
use crate::limits::Limits;
use crate::next_pool::{NextPool, plan_pool, replay_pool};
use crate::reading::read_pool;
use base::{
    GREATEST_CACHE_BLOCKS, GREATEST_DIRTY_MAX, Group, LAST_NUMBER, LEAST_DIRTY_MAX, PoolError,
    WRITTEN_VERSION,
};
use block_cache::{BlockCache, CachedDevice};
use device_model::SectorDevice;
use labels::Geometry;
use mounted::Mounted;
use object_maps::BlockReader;
use std::alloc::Global;
use std::num::NonZeroUsize;
use uberblocks::Uberblock;

/// Imports the pool on a device, with these limits of what it may hold in memory. `moment`, in seconds, is stored in the
/// uberblocks.
///
/// It flushes the device, loads the tree of the active uberblock, of group u and import number i, and replays the log
/// records of groups above u. It reads again the top of each object that they change, and the indirect blocks that the
/// plan looks at, and each data block that they change in part. No pointer below those of the directories stays in
/// memory. Then it syncs what they leave as group u + 4, with import number i + 1 and both label stages (On-Disk
/// Specification, chapter 1). Group u + 5 is then open. All memory is taken before the first write.
///
/// If the pool alone wrote the disk, a crash at any moment after the first good flush leaves the same contents,
/// unless a torn block passes its check by chance (clause `own` with the law `steady_imports_mount` of `base`).
///
/// # Errors
/// In this order:
/// - `BadGeometry`, and `BadRange` if a limit is out of its bounds. The device is as it was.
/// - `NoPool`; `Damaged` with the first damage of the tree, or with kind 6 and the address of the first block of the
///   first log record that can't take place; `TooMany` if u + 5 or i + 1 would pass 2^60; `NoSpace` if the blocks of
///   the records and the first log block find no room. `NoMemory` and `Read` when they happen. A device that gives a
///   block otherwise when it is read again is refused `Damaged` as well. The device is flushed and else as it was.
/// - `Write` and `Flush`, if the device refused such a call. The calls before it are made.
pub fn import<D: SectorDevice>(
    alloc: Global,
    device: D,
    limits: Limits,
    moment: u64,
) -> Result<Imported<D>, (PoolError, D)>
    // It is the pool that the image mounts, with the records of its chain replayed. The device holds its tree, and the
    // blocks of the old tree and of the chain stay.
    ensures imported { IsTrue D.keeps_model
        → IfOk result (λ i. IsImport (bytes_of (D.disk device).now) (bytes_of (D.disk i.device).now)
        limits.dirty_max i.mounted) }
    // It makes just its calls, in their order. Its blocks are the lowest that neither the old tree nor the chain has,
    // one for each place that the records write. Then each label has its config and its uberblock, this is the active
    // one, and nothing is unflushed.
    ensures written { IsTrue D.keeps_model
        → IfOk result (λ i. IsImportWritten (D.disk device) (D.disk i.device) moment i.mounted) }

    // If its pool alone wrote the disk, or a run of it gave the disk up, it is the pool's own from the first good
    // flush on, also if the import is refused or a crash stops it: each moment mounts what the disk mounted then. A
    // run starts from just that.
    ensures own { IsTrue D.keeps_model → MatchResult result
        (λ i. KeepsOwn (D.disk device) (D.disk i.device))
        (λ e. KeepsOwn (D.disk device) (D.disk e.1)) }
    ensures starts { IsTrue D.keeps_model
        → IfOk result (λ i. StartsRun (D.disk device) limits.dirty_max (D.disk i.device) i.mounted) }

    // On each device: what is shown is exact, the size stays, and each call that the device refused is reported.
    ensures mounted { IfOk result (λ i. IsMountedAnew (D.size device) limits.dirty_max i.mounted) }
    ensures size { MatchResult result
        (λ i. D.size i.device ≡ D.size device) (λ e. D.size e.1 ≡ D.size device) }
    ensures count { MatchResult result (λ i. D.refused i.device ≡ D.refused device)
        (λ e. D.refused e.1 ≡ with_refusal e.0 (D.refused device)) }
    ensures refused { IfErr result (λ e. IsImportRefused D.SectorDevice
        (numbers.are_limits_allowed limits.dirty_max limits.cache_blocks) moment device e.1 e.0) }
    ensures cache { IfOk result (λ i. (numbers.is_cache_allowed limits.cache_blocks ≡ true)
        × (i.cache.cap ≡ limits.cache_blocks)) }
{
    let geometry = match allowed_size(device.sectors(), limits) {
        Ok(geometry) => geometry,
        Err(error) => return Err((error, device)),
    };
    let mut cached = CachedDevice::new(device, empty_cache(alloc, limits.cache_blocks));
    match mount_pool(alloc, &mut cached, geometry, limits.dirty_max, moment) {
        Ok(mounted) => {
            let (device, _) = cached.into_parts();
            Ok(Imported {
                device,
                cache: empty_cache(alloc, limits.cache_blocks),
                mounted,
            })
        }
        Err(error) => {
            let (device, _) = cached.into_parts();
            Err((error, device))
        }
    }
}

// A cache of so many blocks, with none.
fn empty_cache(alloc: Global, count: u64) -> BlockCache
    requires { 0 < count }
    ensures empty { result.entries ≡ [] }
    ensures count { result.cap ≡ count }
{
    match NonZeroUsize::new(count as usize) {
        Some(count) => BlockCache::new(alloc, count),
        None => unreachable!(),
    }
}

// The size of a device of so many sectors, if an import with these limits may begin.
fn allowed_size(sectors: u64, limits: Limits) -> Result<Geometry, PoolError>
    ensures size { IfOk result (λ size. size ≡ sector_size * sectors) }
    ensures geometry { IfOk result IsGeometry }
    ensures limits { IfOk result (λ _. numbers.are_limits_allowed limits.dirty_max limits.cache_blocks ≡ true) }
    ensures refused { IfErr result (IsBoundsRefusal (sector_size * sectors)
        (numbers.are_limits_allowed limits.dirty_max limits.cache_blocks)) }
{
    let geometry = Geometry::of(sectors)?;
    if !are_limits_allowed(limits) {
        return Err(PoolError::BadRange);
    }
    Ok(geometry)
}

// Returns whether an import accepts these limits.
fn are_limits_allowed(limits: Limits) -> bool
    ensures { result ≡ numbers.are_limits_allowed limits.dirty_max limits.cache_blocks }
{
    let Limits {
        dirty_max,
        cache_blocks,
    } = limits;
    let is_cache_allowed = 1 <= cache_blocks && cache_blocks <= GREATEST_CACHE_BLOCKS;
    is_cache_allowed && LEAST_DIRTY_MAX <= dirty_max && dirty_max <= GREATEST_DIRTY_MAX
}

// The import, once size and limits are within bounds.
fn mount_pool<B: BlockReader>(
    alloc: Global,
    device: &mut B,
    geometry: Geometry,
    dirty_max: u64,
    moment: u64,
) -> Result<Mounted, PoolError>
    requires can { CanImportOn B.SectorDevice geometry dirty_max device.old }
    ensures device { KeepsDevice B.SectorDevice result device.old device.new }
    ensures mounted { IfOk result (IsMountedAnew geometry dirty_max) }
    ensures refused { IfErr result
        (IsMountRefused B.keeps_model moment (B.disk device.old) (B.disk device.new)) }
    ensures imported { IsTrue B.keeps_model → IfOk result
        (IsImport (bytes_of (B.disk device.old).now) (bytes_of (B.disk device.new).now) dirty_max) }
    ensures written { IsTrue B.keeps_model
        → IfOk result (IsImportWritten (B.disk device.old) (B.disk device.new) moment) }
    ensures own { IsTrue B.keeps_model → KeepsOwn (B.disk device.old) (B.disk device.new) }
    ensures starts { IsTrue B.keeps_model
        → IfOk result (StartsRun (B.disk device.old) dirty_max (B.disk device.new)) }
{
    device.flush()?;
    let (found, loaded, logged) = read_pool(alloc, device, geometry)?;
    let replayed = replay_pool(alloc, geometry, &found, loaded, logged)?;
    if is_past_last(&found.uberblock) {
        return Err(PoolError::TooMany);
    }
    let next = plan_pool(alloc, device, geometry, &found.uberblock, replayed)?;
    open_pool(alloc, device, geometry, &found, next, dirty_max, moment)
}

// Returns whether an import would pass the last number.
fn is_past_last(uberblock: &Uberblock) -> bool
    requires { IsWithinLimits (fields_of uberblock.now) }
    ensures { result ≡ numbers.is_past_last uberblock.now.group.0 uberblock.now.import_number }
{
    uberblock.group.0 + 5 > LAST_NUMBER || uberblock.import_number + 1 > LAST_NUMBER
}

// Syncs the pool, so that it is the run's own, and mounts it. No memory is taken.
fn open_pool<D: SectorDevice>(
    alloc: Global,
    device: &mut D,
    geometry: Geometry,
    found: &Found,
    next: NextPool,
    dirty_max: u64,
    moment: u64,
) -> Result<Mounted, PoolError>
    requires sized { IsSizedFor D.SectorDevice geometry device.old }
    requires within { numbers.is_past_last found.now.uberblock.group.0
        found.now.uberblock.import_number ≡ false }
    requires next { IsReadyFor geometry next }
    ensures device { KeepsDevice D.SectorDevice result device.old device.new }
    ensures mounted { IfOk result
        (IsMountedFrom geometry (fields_of found.now.uberblock) (pool_parts next) dirty_max) }
    ensures refused { IfErr result (IsOpenRefused D.keeps_model
        (writes_of_next geometry (fields_of found.now.uberblock) moment next)
        (is_even found.now.first) (D.disk device.old) (D.disk device.new)) }
    ensures written { IsTrue D.keeps_model → OnOk result (IsGroupSynced
        (writes_of_next geometry (fields_of found.now.uberblock) moment next)
        (is_even found.now.first) (D.disk device.old) (D.disk device.new)) }
    ensures views { IsTrue D.keeps_model → KeepsViews
        (writes_of_next geometry (fields_of found.now.uberblock) moment next) found.now.first
        (D.disk device.old) (D.disk device.new) }
    ensures behind { IsTrue D.keeps_model → OnOk result (EndsBehind
        (writes_of_next geometry (fields_of found.now.uberblock) moment next) found.now.first
        (D.disk device.old) (D.disk device.new)) }
{
    let NextPool {
        blocks,
        contents,
        free,
        log_address,
        records,
    } = next;
    let uberblock = Uberblock {
        version: WRITTEN_VERSION,
        group: Group(found.uberblock.group.0 + 4),
        guid: found.uberblock.guid,
        moment,
        root: contents.tree.root,
        import_number: found.uberblock.import_number + 1,
        log_address,
        log_number: 0,
    };
    sync_group(
        device,
        geometry,
        &uberblock,
        &contents.name,
        blocks,
        found.first,
    )?;
    Ok(Mounted {
        alloc,
        geometry,
        guid: uberblock.guid,
        group: uberblock.group,
        import_number: uberblock.import_number,
        contents,
        free,
        log_address,
        records,
        dirty_max,
    })
}
