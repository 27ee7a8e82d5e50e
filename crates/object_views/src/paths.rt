//! What leads to the objects of a pool, found once: its labels, and its log chain. Each view and each list of the pool
//! begins with it.

ghost use Rattle.std.specs.Prelude.{IfErr, IfOk, IsTrue};
ghost use Rattle.base.specs.disk.Disk.{bytes_of};
ghost use Rattle.device_model.specs.Reading.{OnlyReads};
ghost use Rattle.object_views.specs.PoolPaths.{AreFoundOn, ArePathsOf, IsFindingRefused};

use base::PoolError;
use device_model::SectorDevice;
use import_replay::{Found, find_pool, read_chain};
use intent_log::LoggedPiece;
use labels::Geometry;
use std::alloc::Global;
use std::fmt;

/// What leads to the objects of a pool: its active uberblock, its name and its log chain. It doesn't hold the device:
/// each call is handed it.
#[derive(Drop)]
pub struct PoolPaths {
    pub(crate) geometry: Geometry,
    // The active uberblock, and the name.
    pub(crate) found: Found,
    // The chain of log blocks.
    pub(crate) logged: Vec<LoggedPiece>,
}

/// Finds what leads to the objects of the pool on a device, as an import would mount it. It reads the labels and the log
/// chain, makes no write and no flush, also if it is refused, and sees what a read returns, flushed or not. The log
/// chain stays in memory.
///
/// # Errors
/// In this order: `BadGeometry`, before any device call; `NoPool`. `NoMemory` and `Read` when they happen.
pub fn find_paths<D: SectorDevice>(alloc: Global, device: &mut D) -> Result<PoolPaths, PoolError>
    // The disk is as it was, and the device refused no call but a read.
    ensures reads { OnlyReads D.SectorDevice result device.old device.new }

    // They are those of the pool that the image has.
    ensures paths { IsTrue D.keeps_model
        → IfOk result (ArePathsOf (bytes_of (D.disk device.old).now)) }
    ensures fits { IfOk result (AreFoundOn (D.size device.old)) }
    ensures refused { IfErr result
        (IsFindingRefused D.SectorDevice device.old device.new) }
{
    let geometry = Geometry::of(device.sectors())?;
    let found = find_pool(alloc, device, geometry)?;
    let logged = read_chain(alloc, device, geometry, &found)?;
    Ok(PoolPaths {
        geometry,
        found,
        logged,
    })
}

/// The type's name alone.
impl fmt::Debug for PoolPaths {
    fn fmt<W: fmt::Write>(&self, f: &mut fmt::Formatter<W>) -> fmt::Result {
        f.debug_struct("PoolPaths").finish_non_exhaustive()
    }
}
