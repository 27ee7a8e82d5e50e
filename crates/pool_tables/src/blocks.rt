//! The free blocks of a pool, as its syncs take them and its log gives them back. What a synced group wrote stays with
//! the device, and its charges end.

ghost use Rattle.std.specs.Prelude.{◌≡◌, ◌+◌, map};
ghost use Rattle.base.specs.formats.Geometry.{AreBlocksOf, block_count};
ghost use Rattle.base.specs.steps.Exact.{log_addresses};
ghost use Rattle.intent_log.specs.Kept.{header_fields, log_shown};
ghost use Rattle.space.specs.FreeSets.{after_sync_end};
ghost use Rattle.throttle.specs.Blocks.{AreWholeBlocks, blocks_in};
ghost use Rattle.throttle.specs.DirtyBytes.{after_synced, sum_of, total_of};
ghost use Rattle.tree_plans.specs.Plans.{address_of};
ghost use Rattle.mounted.specs.GivenBlocks.{after_gives};
ghost use Rattle.pool_tables.specs.Areas.{addresses_before, after_sync_takes, blocks_from};
ghost use Rattle.pool_tables.specs.Forgotten.{HasNoneOf};

use base::{BLOCK_SIZE, Group};
use intent_log::{Log, LogHeader};
use labels::Geometry;
use object_maps::BlockReader;
use space::FreeSet;
use sync::SyncRun;
use throttle::Dirty;
use tree_plans::PlannedBlock;

/// What a group was charged ends once it is synced, and so does what was reserved for it.
pub fn end_charges(dirty: &mut Dirty, free: &mut FreeSet, group: Group)
    requires next { group.0 ≡ dirty.old.synced + 1 }
    requires whole { AreWholeBlocks dirty.old }
    requires reserved { free.old.reserved ≡ blocks_in (total_of dirty.old) }
    ensures dirty { dirty.new ≡ after_synced group.0 dirty.old }
    ensures free { free.new ≡ after_sync_end (blocks_in (sum_of dirty.old group.0)) free.old }
    ensures reserved { free.new.reserved ≡ blocks_in (total_of dirty.new) }
{
    let reserved = dirty.of(group) / BLOCK_SIZE as u64;
    dirty.synced(group);
    free.end_sync(reserved);
}

/// The sync that starts takes these blocks.
pub fn take_all(free: &mut FreeSet, blocks: &[PlannedBlock])
    requires { free.old.taken ≡ 0 }
    ensures { free.new ≡ after_sync_takes (map address_of blocks.now) free.old }
{
    for planned in blocks {
        free.take_for_sync(planned.index);
    }
}

/// The device keeps the blocks that a sync wrote.
pub fn keep_blocks<B: BlockReader>(device: &mut B, run: SyncRun)
    ensures size { B.size device.new ≡ B.size device.old }
    ensures disk { B.disk device.new ≡ B.disk device.old }
    ensures refused { B.refused device.new ≡ B.refused device.old }
    ensures cached { B.cached device.new ≡ B.cached device.old }
{
    let SyncRun {
        geometry,
        blocks,
        ..
    } = run;
    for planned in blocks {
        let PlannedBlock { index, block } = planned;
        device.keep_sealed(geometry.block_address(index as u64), block);
    }
}

/// No read takes a block at these addresses from memory any more.
pub fn forget_all<B: BlockReader>(device: &mut B, addresses: &[u64])
    ensures size { B.size device.new ≡ B.size device.old }
    ensures disk { B.disk device.new ≡ B.disk device.old }
    ensures refused { B.refused device.new ≡ B.refused device.old }
    ensures gone { HasNoneOf addresses.now (B.cached device.new) }
{
    for address in addresses {
        device.forget(*address);
    }
}

/// The kept log blocks before a header come back.
pub fn give_log(free: &mut FreeSet, geometry: Geometry, log: &mut Log, header: LogHeader)
    requires count { free.old.blocks ≡ block_count geometry }
    requires placed { AreBlocksOf (block_count geometry) (log_addresses (log_shown log.old)) }
    ensures free { free.new
        ≡ after_gives (addresses_before (header_fields header) log.old.kept) free.old }
    ensures kept { log_shown log.new ≡ record (log_shown log.old) {
      kept = blocks_from (header_fields header) log.old.kept;
    } }
    ensures records { log.new.records ≡ log.old.records }
    ensures placed { AreBlocksOf (block_count geometry) (log_addresses (log_shown log.new)) }
{
    while let Some(address) = log.give_back(header) {
        free.give(geometry.block_index(address) as usize);
    }
}
