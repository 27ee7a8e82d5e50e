//! What an import mounts.

ghost use Rattle.std.specs.Prelude.{◌≡◌, ◌<◌, ◌≤◌};
ghost use Rattle.base.specs.formats.Geometry.{IsBlockAddress, IsGeometry, block_count};
ghost use Rattle.base.specs.formats.Limits.{first_group, last_number};
ghost use Rattle.base.specs.kept.PlacedTrees.{ArePlaced};
ghost use Rattle.tree_blocks.specs.Pointers.{pointers_of};
ghost use Rattle.space.specs.FreeSets.{IsIdle};

use base::Group;
use contents::SyncedTree;
use labels::Geometry;
use space::FreeSet;
use std::alloc::Global;
use std::fmt;

/// What an import mounted and wrote.
#[derive(Drop)]
pub struct Mounted {
    /// The allocator of the pool's tables.
    pub alloc: Global,
    /// The size of the device.
    pub geometry: Geometry,
    /// The guid of the pool.
    pub guid: u64,
    /// The group that the import synced.
    pub group: Group,
    /// How many imports the pool has had, this one included.
    pub import_number: u64,
    /// The pool's name and the tree that the import synced: the lengths of its objects, and the pointers down to what its
    /// directories name. The pointers below and the bytes of the objects are told.
    pub contents: SyncedTree,
    /// The blocks that are neither in the tree nor the first log block.
    pub free: FreeSet,
    /// The address of the first log block, in bytes.
    pub log_address: u64,
    /// How many records of the log chain were replayed.
    pub records: u64,
    /// How many bytes may be dirty.
    pub dirty_max: u64,
    ghost sized: { IsGeometry geometry },
    ghost free_sized: { free.blocks ≡ block_count geometry },
    ghost free_idle: { IsIdle free },
    ghost group_fits: { (first_group ≤ group.0) × (group.0 < last_number) },
    ghost import_fits: { import_number ≤ last_number },
    ghost log_placed: { ∥ IsBlockAddress (block_count geometry) log_address ∥₁ },
    ghost tree_placed: { ∥ ArePlaced (block_count geometry) (pointers_of contents.tree) ∥₁ },
}

/// The type's name alone.
impl fmt::Debug for Mounted {
    fn fmt<W: fmt::Write>(&self, f: &mut fmt::Formatter<W>) -> fmt::Result {
        f.debug_struct("Mounted").finish_non_exhaustive()
    }
}
