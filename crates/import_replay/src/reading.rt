//! What an import reads: the pool that a device has, the tree under its root, and then the chain of log blocks. It keeps
//! the lengths of the objects, the tree's pointers down to what its directories name, and a flag for each block: whether
//! the tree leaves it free. No pointer below these stays in memory. The bytes of the objects are told.
//!
//! The calls of `inspections` read by these functions.

ghost use Rattle.std.specs.Prelude.{◌≡◌, All, IfErr, IfOk, IsTrue};
ghost use Rattle.base.specs.disk.Disk.{bytes_of};
ghost use Rattle.base.specs.formats.Geometry.{block_count};
ghost use Rattle.base.specs.tree.Mount.{IsChainOf};
ghost use Rattle.device_model.specs.Reading.{OnlyReads};
ghost use Rattle.trees.specs.FreeBlocks.{AreUnnamed};
ghost use Rattle.uberblocks.specs.Slots.{fields_of};
ghost use Rattle.intent_log.specs.Chains.{IsChainRefusal, IsSoundPiece};
ghost use Rattle.import_replay.specs.Devices.{IsSizedFor};
ghost use Rattle.import_replay.specs.Found.{HasFirstStage};
ghost use Rattle.import_replay.specs.ImportRefusals.{IsReason, IsWalkRefusal};
ghost use Rattle.import_replay.specs.LabelSyncs.{is_even};
ghost use Rattle.import_replay.specs.ReadPools.{IsLoadedFor, IsReadPool, frame_with};

use crate::finding::{Found, find_pool};
use base::PoolError;
use checked_blocks::Frame;
use device_model::SectorDevice;
use intent_log::{ChainHeader, LoggedPiece, chain};
use labels::Geometry;
use std::alloc::Global;
use trees::{Loaded, load};
use uberblocks::Uberblock;

/// Returns the pool of a device, with its tree, the lengths of its objects, the blocks that the tree leaves free, and
/// its chain. The bytes of the objects are told. Nothing is written, and nothing is flushed.
///
/// # Errors
/// In this order: `NoPool`; `Damaged` with the first damage of the tree. `NoMemory` and `Read` when they happen.
pub fn read_pool<D: SectorDevice>(
    alloc: Global,
    device: &mut D,
    geometry: Geometry,
) -> Result<(Found, Loaded, Vec<LoggedPiece>), PoolError>
    requires sized { IsSizedFor D.SectorDevice geometry device.old }
    ensures reads { OnlyReads D.SectorDevice result device.old device.new }
    ensures refused { IfErr result IsWalkRefusal }
    ensures loaded { IfOk result (λ r. IsLoadedFor (fields_of r.0.uberblock) (block_count geometry)
        r.1.tree r.2.items) }
    ensures free { IfOk result (λ r. AreUnnamed (block_count geometry) r.1.tree r.1.free) }
    ensures pool { IsTrue D.keeps_model
        → IfOk result (λ r. IsReadPool (bytes_of (D.disk device.old).now) geometry
        (fields_of r.0.uberblock) r.0.name r.1.tree r.2.items) }
    ensures first { IsTrue D.keeps_model → IfOk result
        (λ r. HasFirstStage (bytes_of (D.disk device.old).now) r.0.uberblock.guid
        r.0.uberblock.group.0 r.0.name (is_even r.0.first)) }
    ensures reason { IsTrue D.keeps_model
        → IfErr result (IsReason (bytes_of (D.disk device.old).now)) }
{
    let found = find_pool(alloc, device, geometry)?;
    let frame = frame_of(&found.uberblock, geometry);
    let loaded = load(alloc, device, &frame, found.uberblock.root)?;
    let logged = read_chain(alloc, device, geometry, &found)?;
    Ok((found, loaded, logged))
}

/// Returns the chain of log blocks that the active uberblock of a pool begins, by the rules of its version.
///
/// # Errors
/// `NoMemory` and `Read` when they happen.
pub fn read_chain<D: SectorDevice>(
    alloc: Global,
    device: &mut D,
    geometry: Geometry,
    found: &Found,
) -> Result<Vec<LoggedPiece>, PoolError>
    requires sized { IsSizedFor D.SectorDevice geometry device.old }
    ensures reads { OnlyReads D.SectorDevice result device.old device.new }
    ensures refused { IfErr result IsChainRefusal }
    ensures chain { IsTrue D.keeps_model → IfOk result (λ pieces. IsChainOf
        (bytes_of (D.disk device.old).now) (fields_of found.now.uberblock) pieces.items) }
    ensures sound { IfOk result (λ pieces. All (IsSoundPiece (block_count geometry)) pieces.items) }
{
    let header = ChainHeader {
        address: found.uberblock.log_address,
        number: found.uberblock.log_number,
        import_number: found.uberblock.import_number,
        version: found.uberblock.version,
    };
    chain(
        alloc,
        device,
        &frame_of(&found.uberblock, geometry),
        &header,
    )
}

/// Returns the frame of the blocks of a pool with this active uberblock.
pub fn frame_of(uberblock: &Uberblock, geometry: Geometry) -> Frame
    ensures { result ≡ frame_with (fields_of uberblock.now) (block_count geometry) }
{
    Frame::new(
        uberblock.version,
        uberblock.guid,
        geometry.blocks(),
        uberblock.group,
    )
}
