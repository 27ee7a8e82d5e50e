//! The sync of an import.

ghost use Rattle.std.specs.Prelude.{IfErr, IsTrue, OnOk};
ghost use Rattle.base.specs.disk.DiskCalls.{IsStoppedIn};
ghost use Rattle.uberblocks.specs.Slots.{IsWithinLimits, fields_of};
ghost use Rattle.import_replay.specs.Devices.{IsSizedFor, WritesAndFlushes};
ghost use Rattle.import_replay.specs.ImportViews.{EndsBehind, KeepsViews};
ghost use Rattle.import_replay.specs.LabelSyncs.{AreApartIn, IsGroupSynced, calls_of_import, import_writes, is_even};

use base::{PoolError, PoolName};
use device_model::SectorDevice;
use labels::{Geometry, Stage};
use sync::{SyncCall, SyncRun};
use tree_plans::PlannedBlock;
use uberblocks::Uberblock;

// Syncs the group of an import: writes its blocks, and then the labels in both stages, with this name in their configs.
// It takes no memory.
pub(crate) fn sync_group<D: SectorDevice>(
    device: &mut D,
    geometry: Geometry,
    uberblock: &Uberblock,
    name: &PoolName,
    blocks: Vec<PlannedBlock>,
    first: Stage,
) -> Result<(), PoolError>
    requires sized { IsSizedFor D.SectorDevice geometry device.old }
    requires limits { IsWithinLimits (fields_of uberblock.now) }
    requires blocks { AreApartIn geometry blocks.items }
    ensures calls { WritesAndFlushes D.SectorDevice result device.old device.new }
    ensures written { IsTrue D.keeps_model → OnOk result
        (IsGroupSynced (import_writes geometry name.now uberblock.now blocks) (is_even first)
        (D.disk device.old) (D.disk device.new)) }
    ensures stopped { IsTrue D.keeps_model → IfErr result (λ e.
        IsStoppedIn (calls_of_import
        (import_writes geometry name.now uberblock.now blocks) (is_even first)) e
        (D.disk device.old) (D.disk device.new)) }
    ensures views { IsTrue D.keeps_model
        → KeepsViews (import_writes geometry name.now uberblock.now blocks) first
        (D.disk device.old) (D.disk device.new) }
    ensures behind { IsTrue D.keeps_model → OnOk result
        (EndsBehind (import_writes geometry name.now uberblock.now blocks) first
        (D.disk device.old) (D.disk device.new)) }
{
    let mut run = SyncRun::new(geometry, blocks, uberblock, Some(name), first);
    while let SyncCall::More = run.next(device)? {}
    Ok(())
}
