//! The blocks that pointers name are taken from a set of free blocks.

ghost use Rattle.std.specs.Prelude.{◌≡◌, length};
ghost use Rattle.std.specs.List.{list_any};
ghost use Rattle.base.specs.formats.Limits.{payload_size};
ghost use Rattle.trees.specs.FreeBlocks.{BlocksTaken, is_block_at, names_block, payload_names};

use base::{BLOCK_SIZE, POINTER_COUNT, Pointer};
use checked_blocks::BLOCK_AREA;
use space::FreeSet;
use tree_blocks::pointer_in;

// Takes the block at an address, if there is one and it is free.
pub(crate) fn take_block(free: &mut FreeSet, address: u64)
    ensures { BlocksTaken (λ k. is_block_at k address) free.old free.new }
{
    if address >= BLOCK_AREA && (address - BLOCK_AREA) % BLOCK_SIZE as u64 == 0 {
        free.take(((address - BLOCK_AREA) / BLOCK_SIZE as u64) as usize);
    }
}

pub(crate) fn take_blocks(free: &mut FreeSet, pointers: &[Pointer])
    ensures { BlocksTaken (λ k. list_any (names_block k) pointers.now) free.old free.new }
{
    for pointer in pointers {
        take_block(free, pointer.address);
    }
}

// Takes the blocks that the pointers of a payload name.
pub(crate) fn take_named(free: &mut FreeSet, payload: &[u8])
    requires { length payload.now ≡ payload_size }
    ensures { BlocksTaken (λ k. payload_names k payload.now) free.old free.new }
{
    for index in 0..POINTER_COUNT {
        let pointer = pointer_in(payload, index);
        take_block(free, pointer.address);
    }
}
