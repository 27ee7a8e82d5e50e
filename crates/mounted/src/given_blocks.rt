//! Blocks that come back to the free ones.

ghost use Rattle.std.specs.Prelude.{◌≡◌};
ghost use Rattle.base.specs.formats.Geometry.{AreBlocksOf, block_count};
ghost use Rattle.mounted.specs.GivenBlocks.{after_gives};

use labels::Geometry;
use space::FreeSet;

/// The blocks at these addresses come back. It takes no memory.
pub fn give_all(free: &mut FreeSet, geometry: Geometry, addresses: &[u64])
    requires count { free.old.blocks ≡ block_count geometry }
    requires placed { AreBlocksOf (block_count geometry) addresses.now }
    ensures { free.new ≡ after_gives addresses.now free.old }
{
    for address in addresses {
        free.give(geometry.block_index(*address) as usize);
    }
}
