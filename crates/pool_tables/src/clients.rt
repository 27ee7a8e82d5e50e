//! What the pool rests on of blocks that come back and are taken, proved from the contract of the call alone.

ghost use Rattle.std.specs.Prelude.{◌≡◌, ◌<◌, ◌∷◌, [], false, map, true};
ghost use Rattle.std.specs.FinSet as set;
ghost use Rattle.base.specs.formats.Geometry.{AreBlocksOf, block_count};
ghost use Rattle.base.specs.steps.Exact.{log_addresses};
ghost use Rattle.intent_log.specs.Kept.{log_shown};
ghost use Rattle.tree_plans.specs.Plans.{address_of};

use crate::blocks::{give_log, take_all};
use intent_log::{Log, LogHeader};
use labels::Geometry;
use space::FreeSet;
use tree_plans::PlannedBlock;

// A log block before the header of a sync is free again.
fn a_log_block_before_the_header_is_free_again(
    free: &mut FreeSet,
    geometry: Geometry,
    log: &mut Log,
    header: LogHeader,
)
    requires count { free.old.blocks ≡ block_count geometry }
    requires placed { AreBlocksOf (block_count geometry) (log_addresses (log_shown log.old)) }
    requires kept { log.old.kept
        ≡ record { address = 4202496; number = 3; begins = []; ends = []; flushed = true } ∷ [] }
    requires before { 3 < header.number }
    ensures free { set.contains free.new.free 4202496 ≡ true }
    ensures gone { log.new.kept ≡ [] }
{
    give_log(free, geometry, log, header);
}

// A block that a sync takes is free no more.
fn a_block_that_a_sync_takes_is_not_free(free: &mut FreeSet, blocks: &[PlannedBlock])
    requires none { free.old.taken ≡ 0 }
    requires one { map address_of blocks.now ≡ 4202496 ∷ [] }
    ensures { set.contains free.new.free 4202496 ≡ false }
{
    take_all(free, blocks);
}
