//! What an import makes of the pool that it read, before it writes: the records of the chain are replayed, and the tree
//! that they leave is planned. The plan reads of each object that they change the top and the indirect blocks that it
//! looks at, and each data block that they change in part. All memory of the import is taken here.
//!
//! The blocks of the old tree and of the chain stay as they are until the sync is done, so that a crash finds one pool
//! or the other: the new blocks and the first log block are none of them. After the sync the free blocks are all but
//! those of the new tree and the first log block. They are told from those that the load found: the blocks of the plan
//! are taken, and what the plan replaces comes back. So the new tree isn't walked.

ghost use Rattle.std.specs.Prelude.{◌≡◌, ◌+◌, false, IfErr, IfOk};
ghost use Rattle.base.specs.kept.Imports as numbers;
ghost use Rattle.base.specs.tree.Mount.{records_above};
ghost use Rattle.base.specs.formats.Geometry.{block_count};
ghost use Rattle.base.specs.kept.PlacedTrees.{ArePlaced};
ghost use Rattle.base.specs.tree.Places.{IsPlace, Place};
ghost use Rattle.device_model.specs.Reading.{OnlyReads};
ghost use Rattle.group_plans.specs.GroupPlans.{FitsIn, IsHeldRefusal, IsPlanRefusal, TakesLowest, plan_pointers};
ghost use Rattle.contents.specs.ContentsShown.{contents_of};
ghost use Rattle.extents.specs.Patches.{ArePatchesOf};
ghost use Rattle.extents.specs.Synced.{HaveLengthsAfter, patched_contents};
ghost use Rattle.extents.specs.Tables.{name_of, patches_of};
ghost use Rattle.log_replay.specs.Replays.{IsChainAllowed, IsReplayCause, IsReplayRefusal};
ghost use Rattle.tree_plans.specs.Marks.{pending_ops};
ghost use Rattle.trees.specs.FreeBlocks.{AreUnnamed};
ghost use Rattle.tree_blocks.specs.Pointers.{pointers_of};
ghost use Rattle.uberblocks.specs.Slots.{fields_of};
ghost use Rattle.import_replay.specs.Devices.{IsSizedFor};
ghost use Rattle.import_replay.specs.NextPools.{HoldsLoaded, HoldsNextObjects, IsNextRefused, IsPlannedPool, IsReplayedPool, MakesReadNext, TellsShortPlan, TellsShortTree, synced_with};

use crate::finding::Found;
use crate::free_blocks::{lowest_left, take_logged, take_planned};
use crate::reading::frame_of;
use base::{Group, PoolError};
use contents::SyncedTree;
use extents::Extents;
use group_plans::{GroupSource, plan_group};
use intent_log::LoggedPiece;
use labels::Geometry;
use log_replay::{Replayed, replay};
use mounted::give_all;
use object_maps::BlockReader;
use space::FreeSet;
use std::alloc::Global;
use tree_plans::{PlannedBlock, TreePlan};
use trees::Loaded;
use uberblocks::Uberblock;

/// A pool that was read, with the records of its chain replayed.
#[derive(Drop)]
pub struct ReplayedPool {
    /// The pool's name, and the tree that was loaded.
    pub synced: SyncedTree,
    /// The blocks that no pointer of that tree names.
    pub free: FreeSet,
    /// The blocks that neither that tree nor the chain has.
    pub spare: FreeSet,
    /// What the records of the chain change of these objects, and the records.
    pub replayed: Replayed,
}

/// The pool that an import is about to sync and mount.
#[derive(Drop)]
pub(crate) struct NextPool {
    /// The blocks that the sync writes.
    pub blocks: Vec<PlannedBlock>,
    /// The pool's name, and the tree that they make.
    pub contents: SyncedTree,
    /// The blocks that are neither in that tree nor the first log block.
    pub free: FreeSet,
    /// The address of the first log block, in bytes.
    pub log_address: u64,
    /// How many records were replayed.
    pub records: u64,
}

/// Replays the records of the chain on the objects of the tree and the chosen name.
///
/// # Errors
/// `Damaged` with kind 6 and the address of the first block of the first record that can't take place. `NoMemory` when
/// it happens.
pub fn replay_pool(
    alloc: Global,
    geometry: Geometry,
    found: &Found,
    loaded: Loaded,
    logged: Vec<LoggedPiece>,
) -> Result<ReplayedPool, PoolError>
    requires allowed { IsChainAllowed logged.items }
    requires free { AreUnnamed (block_count geometry) loaded.tree loaded.free }
    ensures replayed { IfOk result (IsReplayedPool geometry found.now.uberblock.group.0
        found.now.name loaded.tree logged.items) }
    ensures refused { IfErr result (IsReplayRefusal
        (records_above found.now.uberblock.group.0 logged.items)
        (synced_with found.now.name loaded.tree)) }
    ensures cause { IfErr result IsReplayCause }
{
    let mut spare = loaded.free.copy(alloc)?;
    take_logged(&mut spare, geometry, &logged);
    let synced = SyncedTree {
        name: found.name.copy(),
        tree: loaded.tree,
    };
    let replayed = replay(alloc, found.uberblock.group, &synced, logged)?;
    Ok(ReplayedPool {
        synced,
        free: loaded.free,
        spare,
        replayed,
    })
}

// Plans the tree that the records leave, as that of the import's group, and lays the records into the objects. The
// lowest block that neither the old tree nor the chain nor the new tree has becomes the first log block.
pub(crate) fn plan_pool<B: BlockReader>(
    alloc: Global,
    reader: &mut B,
    geometry: Geometry,
    uberblock: &Uberblock,
    pool: ReplayedPool,
) -> Result<NextPool, PoolError>
    requires device { IsSizedFor B.SectorDevice geometry reader.old }
    requires within { numbers.is_past_last uberblock.now.group.0 uberblock.now.import_number
        ≡ false }
    requires free { AreUnnamed (block_count geometry) pool.synced.tree pool.free }
    requires sized { pool.spare.blocks ≡ block_count geometry }
    requires placed { ∥ ArePlaced (block_count geometry) (pointers_of pool.synced.tree) ∥₁ }
    requires changes { ArePatchesOf
        (pending_ops (uberblock.now.group.0 + 4) pool.replayed.records.items)
        (patches_of pool.replayed.extents) }
    ensures reads { OnlyReads B.SectorDevice result reader.old reader.new }
    ensures planned { IfOk result (IsPlannedPool
        (HoldsLoaded B.SectorDevice reader.old geometry (fields_of uberblock.now) pool)
        geometry (fields_of uberblock.now) pool) }
    ensures refused { IfErr result (IsNextRefused
        (HoldsLoaded B.SectorDevice reader.old geometry (fields_of uberblock.now) pool)
        geometry (fields_of uberblock.now) pool) }
{
    let planned = plan_tree(alloc, reader, geometry, uberblock, &pool)?;
    let ReplayedPool {
        mut synced,
        mut free,
        spare,
        replayed,
    } = pool;
    let log_block = lowest_left(spare, &planned.blocks)?;
    take_planned(&mut free, &planned.blocks);
    give_all(&mut free, geometry, &planned.freed);
    free.take(log_block);
    let blocks = lay_plan(&replayed.extents, &mut synced, planned);
    Ok(NextPool {
        blocks,
        contents: synced,
        free,
        log_address: geometry.block_address(log_block as u64),
        records: replayed.records.len() as u64,
    })
}

// The tree that the records leave, planned as that of the import's group. Of each object that they change, rising, the
// top is read and the indirect blocks that the plan looks at. Then the data blocks that they change in part are read,
// for rising objects and in each for rising blocks.
fn plan_tree<B: BlockReader>(
    alloc: Global,
    reader: &mut B,
    geometry: Geometry,
    uberblock: &Uberblock,
    pool: &ReplayedPool,
) -> Result<TreePlan, PoolError>
    requires device { IsSizedFor B.SectorDevice geometry reader.old }
    requires within { numbers.is_past_last uberblock.now.group.0 uberblock.now.import_number
        ≡ false }
    requires sized { pool.now.spare.blocks ≡ block_count geometry }
    requires placed { ∥ ArePlaced (block_count geometry) (pointers_of pool.now.synced.tree) ∥₁ }
    ensures reads { OnlyReads B.SectorDevice result reader.old reader.new }
    ensures fits { IfOk result (FitsIn geometry) }
    ensures taken { IfOk result (TakesLowest pool.now.spare.free) }
    ensures tree { IfOk result (MakesReadNext geometry (fields_of uberblock.now) pool.now) }
    ensures objects { HoldsLoaded B.SectorDevice reader.old geometry
        (fields_of uberblock.now) pool.now
        → IfOk result (HoldsNextObjects geometry (fields_of uberblock.now) pool.now) }
    ensures no_space { IfErr result (TellsShortPlan (fields_of uberblock.now) pool.now) }
    ensures short { HoldsLoaded B.SectorDevice reader.old geometry
        (fields_of uberblock.now) pool.now
        → IfErr result (TellsShortTree (fields_of uberblock.now) pool.now) }
    ensures refused { IfErr result IsPlanRefusal }
    ensures sound { HoldsLoaded B.SectorDevice reader.old geometry
        (fields_of uberblock.now) pool.now
        → IfErr result IsHeldRefusal }
{
    let before = frame_of(uberblock, geometry);
    let source = GroupSource {
        alloc,
        geometry,
        guid: uberblock.guid,
        group: Group(uberblock.group.0 + 4),
        tree: &pool.synced.tree,
        free: &pool.spare,
    };
    plan_group(
        reader,
        &before,
        &source,
        &pool.replayed.records,
        &pool.replayed.extents,
    )
}

// Makes of the synced tree what the records and a plan of these make of it, and returns the blocks that are to be
// written for it. It takes no memory.
fn lay_plan(changes: &Extents, synced: &mut SyncedTree, planned: TreePlan) -> Vec<PlannedBlock>
    requires { HaveLengthsAfter (patches_of changes.now) planned.entries synced.old.tree }
    ensures contents { contents_of synced.new ≡ patched_contents (patches_of changes.now)
        (name_of changes.now) (contents_of synced.old) }
    ensures pointers { (place : Place) → IsPlace place
        → pointers_of synced.new.tree place ≡ plan_pointers synced.old.tree planned place }
    ensures blocks { result ≡ planned.blocks }
{
    let TreePlan {
        blocks,
        entries,
        directories,
        root,
        freed: _,
    } = planned;
    changes.lay_into(synced, root, directories, entries);
    blocks
}
