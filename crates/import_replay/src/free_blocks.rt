//! The free blocks of a pool, as an import finds and leaves them. A load tells which blocks its tree leaves free. Of
//! these the blocks of the chain are taken, then those of a plan, and what the plan replaces comes back.

ghost use Rattle.std.specs.Prelude.{◌≡◌, IfErr, IfOk};
ghost use Rattle.std.specs.List.{list_any};
ghost use Rattle.base.specs.formats.Geometry.{block_count};
ghost use Rattle.trees.specs.FreeBlocks.{BlocksTaken, is_block_at};
ghost use Rattle.import_replay.specs.FreeBlocks.{AreAllPlanned, IsLowestLeft, is_planned, logs_block};

use base::PoolError;
use intent_log::LoggedPiece;
use labels::Geometry;
use space::FreeSet;
use tree_plans::PlannedBlock;

/// Takes the blocks of a chain.
pub fn take_logged(free: &mut FreeSet, geometry: Geometry, logged: &[LoggedPiece])
    requires { free.old.blocks ≡ block_count geometry }
    ensures count { free.new.blocks ≡ block_count geometry }
    ensures taken { BlocksTaken (λ k. list_any (logs_block k) logged.now) free.old free.new }
{
    for piece in logged {
        take_block(free, geometry, piece.address());
        take_blocks(free, geometry, piece.behind());
    }
}

// Takes the blocks at these addresses.
fn take_blocks(free: &mut FreeSet, geometry: Geometry, addresses: &[u64])
    requires { free.old.blocks ≡ block_count geometry }
    ensures count { free.new.blocks ≡ block_count geometry }
    ensures taken { BlocksTaken (λ k. list_any (is_block_at k) addresses.now) free.old free.new }
{
    for address in addresses {
        take_block(free, geometry, *address);
    }
}

// Takes the block at an address, if there is one and it is free. Another place, or the chain, may have it too.
fn take_block(free: &mut FreeSet, geometry: Geometry, address: u64)
    requires { free.old.blocks ≡ block_count geometry }
    ensures count { free.new.blocks ≡ block_count geometry }
    ensures taken { BlocksTaken (λ k. is_block_at k address) free.old free.new }
{
    if geometry.is_block_address(address) {
        free.take(geometry.block_index(address) as usize);
    }
}

// The lowest free block that is none of these planned ones. It takes no memory.
pub(crate) fn lowest_left(mut spare: FreeSet, planned: &[PlannedBlock]) -> Result<usize, PoolError>
    ensures lowest { IfOk result (IsLowestLeft spare planned.now) }
    ensures full { IfErr result (λ _. AreAllPlanned spare planned.now) }
    ensures refused { IfErr result (λ e. e ≡ PoolError.NoSpace) }
{
    take_planned(&mut spare, planned);
    spare.take_lowest()
}

// The blocks of a plan are taken.
pub(crate) fn take_planned(free: &mut FreeSet, planned: &[PlannedBlock])
    ensures { BlocksTaken (λ k. is_planned k planned.now) free.old free.new }
{
    for block in planned {
        free.take(block.index);
    }
}
