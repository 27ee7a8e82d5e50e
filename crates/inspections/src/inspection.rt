//! What an import would mount, found by reads alone: the name, the numbers, and the lengths of the objects. An import
//! reads and replays by the same functions.

ghost use Rattle.std.specs.Prelude.{◌≡◌, ℕ, IfErr, IfOk, IsTrue, List, OnOk, length, unwrap_or};
ghost use Rattle.base.specs.disk.Disk.{bytes_of};
ghost use Rattle.base.specs.formats.Geometry.{IsGeometry, block_count};
ghost use Rattle.base.specs.tree.Mount.{IsChainDamaged};
ghost use Rattle.device_model.specs.Reading.{OnlyReads};
ghost use Rattle.extents.specs.Tables.{name_of};
ghost use Rattle.log_replay.specs.Replays.{IsReplayCause};
ghost use Rattle.trees.specs.FreeBlocks.{AreUnnamed};
ghost use Rattle.uberblocks.specs.Slots.{fields_of};
ghost use Rattle.import_replay.specs.ReadPools.{IsLoadedFor, IsReadPool};
ghost use Rattle.inspections.specs.Inspections.{AgreesWithImports, IsInspectedFrom, IsInspectionOf, IsToldOfBounded};
ghost use Rattle.inspections.specs.Refused.{IsInspectionRefused};

use crate::object_lists::list_objects;
use base::{Group, ObjectId, PoolError, PoolName};
use device_model::SectorDevice;
use extents::Laid;
use import_replay::{Found, ReplayedPool, read_pool, replay_pool};
use intent_log::LoggedPiece;
use labels::Geometry;
use std::alloc::Global;
use trees::Loaded;
use uberblocks::Uberblock;

/// What an import would mount, with its numbers.
#[derive(Debug, PartialEq, Eq, Drop)]
pub struct Inspected {
    /// The guid of the pool.
    pub guid: u64,
    /// The group of the active uberblock.
    pub group: Group,
    /// The import number of the active uberblock.
    pub import_number: u64,
    /// How many blocks the device has.
    pub blocks: u64,
    /// How many of them the tree and the log chain have.
    pub used: u64,
    /// How many log records an import would apply.
    pub records: u64,
    /// The name of the pool.
    pub name: PoolName,
    /// The objects by rising number, each with its length in bytes.
    pub objects: Vec<(ObjectId, u64)>,
}

/// Reports what an import of the pool on a device would mount. It makes no write and no flush, also if it is refused,
/// and sees what a read returns, flushed or not. No object's bytes stay in memory, but those of the log records that an
/// import would apply.
///
/// # Errors
/// In this order: `BadGeometry`, before any device call; `NoPool`; `Damaged` with the first damage of the tree, or with
/// kind 6 and the address of the first block of the first log record that can't take place. `NoMemory` and `Read` when
/// they happen, `Read` exactly if the device refused a read.
pub fn inspect<D: SectorDevice>(alloc: Global, device: &mut D) -> Result<Inspected, PoolError>
    // The disk is as it was, and the device refused no call but a read.
    ensures reads { OnlyReads D.SectorDevice result device.old device.new }

    // It is what the image mounts, and what each import of the image mounts.
    ensures mounted { IsTrue D.keeps_model
        → IfOk result (IsInspectionOf (bytes_of (D.disk device.old).now)) }
    ensures agrees { IsTrue D.keeps_model
        → IfOk result (AgreesWithImports (bytes_of (D.disk device.old).now)) }
    ensures bounded { IfOk result IsToldOfBounded }
    ensures made { OnOk result (IsGeometry (D.size device.old)) }

    ensures refused { IfErr result
        (IsInspectionRefused D.SectorDevice device.old device.new) }
{
    let geometry = Geometry::of(device.sectors())?;
    let (found, loaded, logged) = read_pool(alloc, device, geometry)?;
    report(alloc, geometry, &found, loaded, logged)
}

// What an import would mount of a pool that was read: the records of its chain are replayed. It is refused `Damaged` for
// the first record that can't take place.
pub(crate) fn report(
    alloc: Global,
    geometry: Geometry,
    found: &Found,
    loaded: Loaded,
    logged: Vec<LoggedPiece>,
) -> Result<Inspected, PoolError>
    requires loaded { IsLoadedFor (fields_of found.now.uberblock) (block_count geometry)
        loaded.tree logged.items }
    requires free { AreUnnamed (block_count geometry) loaded.tree loaded.free }
    ensures mounted { (image : List ℕ) → IsReadPool image geometry (fields_of found.now.uberblock)
        found.now.name loaded.tree logged.items
        → IfOk result (λ i. IsInspectionOf image i × AgreesWithImports image i) }
    ensures bounded { IfOk result IsToldOfBounded }
    ensures cause { IfErr result IsReplayCause }
    ensures damaged { (image : List ℕ) → IsReadPool image geometry (fields_of found.now.uberblock)
        found.now.name loaded.tree logged.items
        → IfErr result (λ e. (address : ℕ) → e ≡ PoolError.Damaged 6 address
        → IsChainDamaged image address) }
{
    let pool = replay_pool(alloc, geometry, found, loaded, logged)?;
    let objects = list_objects(alloc, &Laid::new(&pool.replayed.extents, &pool.synced.tree))?;
    Ok(tell(geometry, &found.uberblock, &pool, objects))
}

// The report on a pool whose records were replayed, with its objects after these.
fn tell(
    geometry: Geometry,
    uberblock: &Uberblock,
    pool: &ReplayedPool,
    objects: Vec<(ObjectId, u64)>,
) -> Inspected
    requires { pool.now.spare.blocks ≡ block_count geometry }
    ensures { IsInspectedFrom (fields_of uberblock.now)
        (unwrap_or (name_of pool.now.replayed.extents) pool.now.synced.name) objects.items
        (length pool.now.replayed.records.items) (block_count geometry) pool.now.spare.free result }
{
    let blocks = geometry.blocks();
    Inspected {
        guid: uberblock.guid,
        group: uberblock.group,
        import_number: uberblock.import_number,
        blocks,
        used: blocks - pool.spare.free(),
        records: pool.replayed.records.len() as u64,
        name: pool.replayed.extents.name_over(&pool.synced.name).copy(),
        objects,
    }
}
