//! Whether the pool of a device is whole, and if it isn't, each damage of its tree. It is found by reads alone.

ghost use Rattle.std.specs.Prelude.{◌≡◌, ℕ, IfErr, IfOk, IsTrue, List, OnOk};
ghost use Rattle.base.specs.disk.Disk.{bytes_of};
ghost use Rattle.base.specs.formats.Geometry.{IsGeometry, block_count};
ghost use Rattle.device_model.specs.Reading.{OnlyReads};
ghost use Rattle.inspections.specs.Refused.{IsInspectionRefused};
ghost use Rattle.inspections.specs.PoolDamages.{IsOfNoDamage, IsSoundnessOf};
ghost use Rattle.inspections.specs.ReadForInspection.{IsExaminedFor};
ghost use Rattle.import_replay.specs.Devices.{IsSizedFor};
ghost use Rattle.import_replay.specs.ImportRefusals.{IsFindRefusal, IsReason};
ghost use Rattle.import_replay.specs.ReadPools.{IsLoadedFor, IsReadPool};
ghost use Rattle.trees.specs.FreeBlocks.{AreUnnamed};
ghost use Rattle.uberblocks.specs.Slots.{fields_of};

use crate::inspection::{Inspected, report};
use base::PoolError;
use device_model::SectorDevice;
use import_replay::{Found, find_pool, frame_of, read_chain};
use intent_log::LoggedPiece;
use labels::Geometry;
use std::alloc::Global;
use trees::{BlockDamage, Examined, Loaded, examine};

/// Whether a pool is whole.
#[derive(Debug, PartialEq, Eq, Drop)]
pub enum Soundness {
    /// It is: this is what an import would mount.
    Whole(Inspected),
    /// It isn't: these are the damages of its tree, in the order of the walk. If the tree has none, it is the one
    /// damage of the log, of kind 6, with the address of the first block of the first record that can't take place.
    Damaged(Vec<BlockDamage>),
}

/// Finds whether the pool of a device is whole, as `inspect` does, and goes on after a damage of the tree. What lies
/// below a damaged block isn't read. It makes no write and no flush, also if it is refused.
///
/// # Errors
/// In this order: `BadGeometry`, before any device call; `NoPool`. `NoMemory` and `Read` when they happen, `Read`
/// exactly if the device refused a read. Never `Damaged`.
pub fn find_damages<D: SectorDevice>(alloc: Global, device: &mut D) -> Result<Soundness, PoolError>
    // The disk is as it was, and the device refused no call but a read.
    ensures reads { OnlyReads D.SectorDevice result device.old device.new }

    // It is what the image mounts, or at least one damage.
    ensures found { IsTrue D.keeps_model
        → IfOk result (IsSoundnessOf (bytes_of (D.disk device.old).now)) }
    ensures made { OnOk result (IsGeometry (D.size device.old)) }

    ensures refused { IfErr result
        (IsInspectionRefused D.SectorDevice device.old device.new) }
    ensures undamaged { IfErr result IsOfNoDamage }
{
    let geometry = Geometry::of(device.sectors())?;
    let examined = examine_pool(alloc, device, geometry)?;
    match examined {
        ExaminedPool::Whole(found, loaded, logged) => {
            judge_log(alloc, geometry, &found, loaded, logged)
        }
        ExaminedPool::Damaged(damages) => Ok(Soundness::Damaged(damages)),
    }
}

// What is read of a pool, if the walk goes on after a damage of the tree.
#[derive(Drop)]
enum ExaminedPool {
    // The tree is whole: this is what an import reads.
    Whole(Found, Loaded, Vec<LoggedPiece>),
    // These are the damages of the tree, in the order of the walk. The chain isn't read.
    Damaged(Vec<BlockDamage>),
}

// The pool of a device by the reads of an import, but the walk of its tree goes on after a damage. Nothing is written,
// and nothing is flushed.
fn examine_pool<D: SectorDevice>(
    alloc: Global,
    device: &mut D,
    geometry: Geometry,
) -> Result<ExaminedPool, PoolError>
    requires sized { IsSizedFor D.SectorDevice geometry device.old }
    ensures reads { OnlyReads D.SectorDevice result device.old device.new }
    ensures refused { IfErr result IsFindRefusal }
    ensures examined { IfOk result
        (IsExaminedFor D.keeps_model (bytes_of (D.disk device.old).now) geometry) }
    ensures reason { IsTrue D.keeps_model
        → IfErr result (IsReason (bytes_of (D.disk device.old).now)) }
{
    let found = find_pool(alloc, device, geometry)?;
    let frame = frame_of(&found.uberblock, geometry);
    let examined = examine(alloc, device, &frame, found.uberblock.root)?;
    match examined {
        Examined::Whole(loaded) => {
            let logged = read_chain(alloc, device, geometry, &found)?;
            Ok(ExaminedPool::Whole(found, loaded, logged))
        }
        Examined::Damaged(damages) => Ok(ExaminedPool::Damaged(damages)),
    }
}

// What is found of a pool whose tree is whole: what an import would mount, or the one damage of its log.
fn judge_log(
    alloc: Global,
    geometry: Geometry,
    found: &Found,
    loaded: Loaded,
    logged: Vec<LoggedPiece>,
) -> Result<Soundness, PoolError>
    requires loaded { IsLoadedFor (fields_of found.now.uberblock) (block_count geometry)
        loaded.tree logged.items }
    requires free { AreUnnamed (block_count geometry) loaded.tree loaded.free }
    ensures found { (image : List ℕ) → IsReadPool image geometry (fields_of found.now.uberblock)
        found.now.name loaded.tree logged.items
        → IfOk result (IsSoundnessOf image) }
    ensures refused { IfErr result (λ e. e ≡ PoolError.NoMemory) }
{
    match report(alloc, geometry, found, loaded, logged) {
        Ok(inspected) => Ok(Soundness::Whole(inspected)),
        Err(PoolError::Damaged { kind, address }) => {
            let mut damages = Vec::new(alloc);
            damages.push(BlockDamage { kind, address })?;
            Ok(Soundness::Damaged(damages))
        }
        Err(refusal) => Err(refusal),
    }
}
