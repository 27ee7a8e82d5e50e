//! What callers rest on: one function for each promise of this crate's calls, proved from the contract of the call
//! alone. So it is refused as soon as that contract says less.

ghost use Rattle.std.specs.Prelude.{◌≡◌, ◌<◌, [], IfErr, IsTrue, None, OnErr, OnOk, Some, slice_get, true, vec_len};
ghost use Rattle.std.specs.Option.{IsSomeAnd};
ghost use Rattle.base.specs.disk.Disk.{written};
ghost use Rattle.base.specs.formats.Geometry.{block_address};
ghost use Rattle.base.specs.formats.Uberblocks.{IsUberblock};
ghost use Rattle.labels.specs.Configs.{IsConfigBlock};
ghost use Rattle.tree_plans.specs.declared.planner.PlannedBlock.{PlannedBlock};
ghost use Rattle.uberblocks.specs.Slots.{IsWithinLimits, fields_of};
ghost use Rattle.sync.specs.Runs.{call_count};

use crate::run::{LabelStages, SyncCall, SyncRun};
use base::{PoolError, PoolName};
use device_model::SectorDevice;
use labels::{Geometry, Stage};
use std::alloc::Global;
use uberblocks::Uberblock;

// A new sync of a group that gives no name, without blocks, has six calls, and has made none. The uberblock of group
// 132 goes into slot 4.
fn a_sync_of_no_blocks_has_six_calls(
    alloc: Global,
    geometry: Geometry,
    uberblock: &Uberblock,
) -> SyncRun
    requires limits { IsWithinLimits (fields_of uberblock.now) }
    requires group { uberblock.now.group.0 ≡ 132 }
    ensures done { result.done ≡ 0 }
    ensures slot { result.slot ≡ 4 }
    ensures uberblock { IsUberblock result.uberblock (fields_of uberblock.now) }
{
    let run = SyncRun::new(geometry, Vec::new(alloc), uberblock, None, Stage::Even);
    let total = run.total();
    prove!(total == 6);
    run
}

// A name adds four configs and two flushes. The odd labels come first if the caller says so.
fn a_name_adds_six_calls(
    alloc: Global,
    geometry: Geometry,
    uberblock: &Uberblock,
    name: &PoolName,
) -> SyncRun
    requires limits { IsWithinLimits (fields_of uberblock.now) }
    ensures { IsSomeAnd result.stages (λ s. (s.first ≡ Stage.Odd) × IsConfigBlock s.config geometry
        (record { guid = uberblock.now.guid; group = uberblock.now.group.0; size = geometry; name = name.now })) }
{
    let run = SyncRun::new(geometry, Vec::new(alloc), uberblock, Some(name), Stage::Odd);
    let total = run.total();
    prove!(total == 12);
    run
}

// The first call of a sync of two blocks writes the first block at its place, and no other byte.
fn the_first_block_is_written_first<D: SectorDevice>(
    run: &mut SyncRun,
    device: &mut D,
) -> Result<SyncCall, PoolError>
    requires sized { D.size device.old ≡ run.old.geometry }
    requires begun { run.old.done ≡ 0 }
    requires two { vec_len run.old.blocks ≡ 2 }
    ensures first { IsTrue D.keeps_model → OnOk result ((b : PlannedBlock)
        → slice_get run.old.blocks.items 0 ≡ Some b
        → D.disk device.new ≡ written (block_address b.index) b.block true (D.disk device.old)) }
    ensures refused { IfErr result (λ e. e ≡ PoolError.Write) }
{
    run.next(device)
}

// A flush comes after the last block: it leaves nothing unflushed.
fn a_flush_follows_the_last_block<D: SectorDevice>(
    run: &mut SyncRun,
    device: &mut D,
) -> Result<SyncCall, PoolError>
    requires sized { D.size device.old ≡ run.old.geometry }
    requires written { run.old.done ≡ 1 }
    requires one { vec_len run.old.blocks ≡ 1 }
    ensures flushed { IsTrue D.keeps_model
        → OnOk result ((D.disk device.new).now.unflushed ≡ []) }
    ensures refused { IfErr result (λ e. e ≡ PoolError.Flush) }
{
    run.next(device)
}

// In a sync that gives a name, a flush comes after the configs of the first two labels.
fn a_flush_follows_the_first_configs<D: SectorDevice>(
    run: &mut SyncRun,
    device: &mut D,
    stages: &LabelStages,
) -> Result<SyncCall, PoolError>
    requires sized { D.size device.old ≡ run.old.geometry }
    requires written { run.old.done ≡ 3 }
    requires none { vec_len run.old.blocks ≡ 0 }
    requires named { run.old.stages ≡ Some stages.now }
    ensures flushed { IsTrue D.keeps_model
        → OnOk result ((D.disk device.new).now.unflushed ≡ []) }
    ensures refused { IfErr result (λ e. e ≡ PoolError.Flush) }
{
    let _ = stages;
    run.next(device)
}

// After three calls, a refused call remains the next one, and a call that the device makes is counted.
fn a_refused_call_is_the_next_one_still<D: SectorDevice>(
    run: &mut SyncRun,
    device: &mut D,
) -> Result<SyncCall, PoolError>
    requires sized { D.size device.old ≡ run.old.geometry }
    requires three { run.old.done ≡ 3 }
    requires left { 3 < call_count run.old }
    ensures refused { OnErr result (run.new.done ≡ 3) }
    ensures made { OnOk result (run.new.done ≡ 4) }
{
    run.next(device)
}

// The sixth call of six reports that it is the last, and the fifth does not.
fn the_sixth_call_of_six_is_the_last<D: SectorDevice>(
    run: &mut SyncRun,
    device: &mut D,
) -> Result<(), PoolError>
    requires sized { D.size device.old ≡ run.old.geometry }
    requires four { run.old.done ≡ 4 }
    requires plain { run.old.stages ≡ None }
    requires none { vec_len run.old.blocks ≡ 0 }
    ensures { OnOk result (run.new.done ≡ 6) }
{
    let fifth = run.next(device)?;
    let was_last = matches!(fifth, SyncCall::Last);
    prove!(!was_last);
    let sixth = run.next(device)?;
    let is_last = matches!(sixth, SyncCall::Last);
    prove!(is_last);
    Ok(())
}
