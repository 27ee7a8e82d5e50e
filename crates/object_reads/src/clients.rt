//! What callers rest on: one function for each promise of this crate's calls, proved from the contract of the call
//! alone. So it is refused as soon as that contract says less.

ghost use Rattle.std.specs.Prelude.{◌≡◌, ◌≤◌, ◌⊎◌, ◌∷◌, [], IfErr, IfOk, IsTrue, Some};
ghost use Rattle.std.specs.FinMap as finite;
ghost use Rattle.base.specs.declared.error.PoolError.TheVariants as error;
ghost use Rattle.base.specs.formats.Digest.{digest_of};
ghost use Rattle.base.specs.formats.Geometry.{block_address};
ghost use Rattle.contents.specs.Judging.{with_name};
ghost use Rattle.tree_blocks.specs.ListedObjects.{AreWithin};
ghost use Rattle.object_reads.specs.ShownTrees.{StandsOn, shown_objects};

use crate::shown_tree::ShownTree;
use base::{Bytes, ObjectId, PoolError, PoolName, Range};
use object_maps::BlockReader;
use std::alloc::Global;

// A read over a device that holds the tree gives the bytes of its range, from the first one on.
fn a_read_gives_the_bytes_of_its_range<B: BlockReader>(
    tree: &ShownTree<'_>,
    reader: &mut B,
    alloc: Global,
) -> Result<Bytes, PoolError>
    requires fits { block_address tree.now.frame.blocks ≤ B.size reader.old }
    requires stands { StandsOn B.SectorDevice reader.old tree.now }
    requires object { finite.get (shown_objects tree.now) 7 ≡ Some (10 ∷ 11 ∷ 12 ∷ 13 ∷ []) }
    ensures { IfOk result (λ bytes. bytes ≡ 11 ∷ 12 ∷ []) }
{
    tree.read_range(reader, alloc, ObjectId(7), Range { low: 1, high: 3 }, 4)
}

// Over such a device no read finds damage.
fn a_read_finds_no_damage<B: BlockReader>(
    tree: &ShownTree<'_>,
    reader: &mut B,
    alloc: Global,
) -> Result<Bytes, PoolError>
    requires fits { block_address tree.now.frame.blocks ≤ B.size reader.old }
    requires stands { StandsOn B.SectorDevice reader.old tree.now }
    requires object { finite.get (shown_objects tree.now) 7 ≡ Some (10 ∷ 11 ∷ 12 ∷ 13 ∷ []) }
    ensures { IfErr result (λ e. (e ≡ error.NoMemory) ⊎ (e ≡ error.Read)) }
{
    tree.read_range(reader, alloc, ObjectId(7), Range { low: 1, high: 3 }, 4)
}

// A digest over such a device is that of the contents that are shown, and is refused `Read` alone.
fn a_digest_is_of_the_shown_contents<B: BlockReader>(
    tree: &ShownTree<'_>,
    reader: &mut B,
    name: &PoolName,
) -> Result<[u8; 32], PoolError>
    requires fits { block_address tree.now.frame.blocks ≤ B.size reader.old }
    requires within { AreWithin (shown_objects tree.now) }
    requires stands { StandsOn B.SectorDevice reader.old tree.now }
    ensures digest { IfOk result
        (λ d. d ≡ digest_of (with_name (shown_objects tree.now) name.now)) }
    ensures refused { IfErr result (λ e. e ≡ error.Read) }
{
    tree.digest(reader, name)
}

// No call changes what the disk of a device that keeps the model gives.
fn a_digest_leaves_the_disk<B: BlockReader>(
    tree: &ShownTree<'_>,
    reader: &mut B,
    name: &PoolName,
) -> Result<[u8; 32], PoolError>
    requires fits { block_address tree.now.frame.blocks ≤ B.size reader.old }
    requires within { AreWithin (shown_objects tree.now) }
    requires keeps { IsTrue B.keeps_model }
    ensures { B.disk reader.new ≡ B.disk reader.old }
{
    tree.digest(reader, name)
}
