//! What callers rest on: one function for each promise of this crate's calls, proved from the contract of the call
//! alone. So it is refused as soon as that contract says less.

ghost use Rattle.std.specs.Prelude.{◌≡◌, ◌∷◌, [], true};
ghost use Rattle.base.specs.formats.Geometry.{AreBlocksOf, block_count};
ghost use Rattle.space.specs.FreeSets.{is_free};

use crate::given_blocks::give_all;
use labels::Geometry;
use space::FreeSet;

// The block at address 4,198,400 comes back: block 1 is free then.
fn a_block_that_comes_back_is_free(free: &mut FreeSet, geometry: Geometry, addresses: &[u64])
    requires count { free.old.blocks ≡ block_count geometry }
    requires placed { AreBlocksOf (block_count geometry) addresses.now }
    requires addresses { addresses.now ≡ 4198400 ∷ [] }
    ensures { is_free 1 free.new ≡ true }
{
    give_all(free, geometry, addresses);
}
