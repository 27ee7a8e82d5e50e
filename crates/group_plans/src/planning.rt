//! The tree after a group, planned from its transactions: `changed_objects` of `tree_plans` says what they do to each
//! object, `read_maps` reads the tops and the indirect blocks of these objects, `prepare` the records that change in
//! part, and `plan` takes a free block for each place that changes.

ghost use Rattle.std.specs.Prelude.{◌≡◌, ◌≤◌, ℕ, IfErr, IfOk, IsTrue, false, is_some, true};
ghost use Rattle.base.specs.disk.Disk.{bytes_of};
ghost use Rattle.base.specs.formats.Geometry.{block_address, block_count};
ghost use Rattle.base.specs.kept.PlacedTrees.{ArePlaced};
ghost use Rattle.device_model.specs.Reading.{OnlyReads};
ghost use Rattle.tree_blocks.specs.Pointers.{pointers_of};
ghost use Rattle.tree_blocks.specs.TreeObjects.{objects_of};
ghost use Rattle.base.specs.tree.Places.{Place};
ghost use Rattle.base.specs.declared.pointer.Pointer.{Pointer};
ghost use Rattle.tree_plans.specs.Changes.{written_frame};
ghost use Rattle.tree_plans.specs.Parts.{AreMapsRead, AreReady};
ghost use Rattle.tree_plans.specs.Plans.{IsWant};
ghost use Rattle.tree_plans.specs.Pointers.{entry_of};
ghost use Rattle.tree_plans.specs.TreePlans.{GivesBack, GivesTree, HasEntries, HasLengths, TakesBlocks, TellsFull};
ghost use Rattle.group_plans.specs.OldMaps.{AreMapsOf, AreMapsOfObjects, AreMapsReadFor, HoldsOwn};
ghost use Rattle.group_plans.specs.Prepared.{at_hand};
ghost use Rattle.group_plans.specs.SealedRecords.{prepared_objects};
ghost use Rattle.group_plans.specs.ReadPlans.{HoldsPlanned, IsShortFor, IsShortFrom, PlansReadTree};
ghost use Rattle.group_plans.specs.GroupPlans.{FitsIn, HoldsGroupObjects, IsHeldRefusal, IsPlanRefusal, IsRefusedShort, IsTreeShort, MakesReadTree, TakesLowest, frame_planned, objects_with};

use crate::old_maps::read_maps;
use crate::prepared::PreparedObjects;
use crate::preparing::prepare;
use crate::sealed_objects::SealedObjects;
use base::{Group, ObjectId, PoolError};
use checked_blocks::Frame;
use extents::Extents;
use labels::Geometry;
use object_maps::BlockReader;
use records::Record;
use space::FreeSet;
use std::alloc::Global;
use std::collections::BTreeMap;
use tree_blocks::Tree;
use tree_plans::{ObjectChanges, PlanSource, TreePlan, changed_objects, plan};

/// What the plan of a group is made of, beside the group's changes.
#[derive(Clone, Copy)]
pub struct GroupSource<'a> {
    /// Where the memory of the plan comes from.
    pub alloc: Global,
    /// The size of the device.
    pub geometry: Geometry,
    /// The guid of the pool.
    pub guid: u64,
    /// The group that is synced.
    pub group: Group,
    /// The pointers and lengths before the group. The pointers below those of its directories are told.
    pub tree: &'a Tree,
    /// The blocks that may be taken.
    pub free: &'a FreeSet,
}

/// Plans the tree after the group of a source. `records` are committed transactions in order, and those of other groups
/// are passed over. `extents` are the changes that those of the group make, over the objects of the tree. `before` is
/// the frame of that tree's blocks.
///
/// Of each object that the group changes, rising, it reads the top, if the object has two levels, and then the
/// indirect blocks of the strips that the plan looks at, rising: those of which a record changes, and all strips if
/// the object has one level after the group. Then it reads each record that the group changes in part, for rising
/// objects and in each for rising records.
///
/// - `fits`: each block that is written or comes back lies in the block area of the device.
/// - `taken`: the blocks are the lowest free ones, in their order.
/// - `tree`: the blocks make a tree after the group, with its pointers and its lengths, and what comes back is what
///   that tree replaces, by the pointers that were read: each once, if no two places had blocks at one address. If no
///   operation is on an object, the root stays and nothing is written. The blocks hold the records as they were read.
/// - `objects`: if the device keeps the model and holds the tree with its objects (`HoldsOwn`), these are the tree's
///   pointers, and the new tree has the objects after the group.
///
/// # Errors
/// - `NoSpace`, only if fewer blocks are free than there are places to write (`no_space`). If the device keeps the
///   model and holds the tree, these are the places that the group writes over it (`short`).
/// - `NoMemory`.
/// - `Read`, and `Damaged` if a block is none of the tree. A device that keeps the model and holds the tree gives none
///   that is damaged (`sound`).
pub fn plan_group<B: BlockReader>(
    reader: &mut B,
    before: &Frame,
    source: &GroupSource<'_>,
    records: &[Record],
    extents: &Extents,
) -> Result<TreePlan, PoolError>
    requires room { block_address before.now.blocks ≤ B.size reader.old }
    requires area { before.now.blocks ≡ block_count source.now.geometry }
    requires sized { source.now.free.now.blocks ≡ block_count source.now.geometry }
    requires placed { ∥ ArePlaced (block_count source.now.geometry)
        (pointers_of source.now.tree.now) ∥₁ }
    ensures reads { OnlyReads B.SectorDevice result reader.old reader.new }
    ensures fits { IfOk result (FitsIn source.now.geometry) }
    ensures taken { IfOk result (TakesLowest source.now.free.now.free) }
    ensures tree { IfOk result (MakesReadTree (frame_planned source.now) source.now.tree.now
        records.now (objects_with extents.now source.now.tree.now)) }
    ensures objects { IsTrue B.keeps_model
        → HoldsOwn (bytes_of (B.disk reader.old).now) before.now
        source.now.tree.now
        → IfOk result (HoldsGroupObjects (frame_planned source.now) source.now.tree.now records.now
        (objects_with extents.now source.now.tree.now)) }
    ensures no_space { IfErr result (IsRefusedShort source.now.group.0 source.now.tree.now
        records.now (objects_with extents.now source.now.tree.now) source.now.free.now.free) }
    ensures short { IsTrue B.keeps_model → HoldsOwn (bytes_of (B.disk reader.old).now) before.now
        source.now.tree.now
        → IfErr result (IsTreeShort source.now.group.0 source.now.tree.now records.now
        (objects_with extents.now source.now.tree.now) source.now.free.now.free) }
    ensures refused { IfErr result IsPlanRefusal }
    ensures sound { IsTrue B.keeps_model → HoldsOwn (bytes_of (B.disk reader.old).now) before.now
        source.now.tree.now
        → IfErr result IsHeldRefusal }
{
    let alloc = source.alloc;
    let tree = source.tree;
    let objects = changed_objects(alloc, &tree.entries, records, source.group)?;
    let old_maps = read_maps(reader, before, source, extents, &objects)?;
    let read = PlanSource {
        alloc,
        geometry: source.geometry,
        guid: source.guid,
        group: source.group,
        tree,
        old_maps: &old_maps,
        free: source.free,
    };
    plan_read(reader, before, &read, &objects, extents)
}

// Plans the tree after a group that changes these objects, whose old maps were read.
fn plan_read<B: BlockReader>(
    reader: &mut B,
    before: &Frame,
    read: &PlanSource<'_>,
    objects: &BTreeMap<ObjectId, ObjectChanges>,
    extents: &Extents,
) -> Result<TreePlan, PoolError>
    requires room { block_address before.now.blocks ≤ B.size reader.old }
    requires sized { read.now.free.now.blocks ≡ block_count read.now.geometry }
    requires placed { ∥ ArePlaced (block_count read.now.geometry)
        (pointers_of read.now.tree.now) ∥₁ }
    requires maps { AreMapsReadFor (objects_with extents.now read.now.tree.now) objects.now.entries
        read.now.old_maps.now.entries }
    requires none { (n : ℕ) → is_some (entry_of objects.now.entries n) ≡ false
        → is_some (entry_of read.now.old_maps.now.entries n) ≡ false }
    requires old { AreMapsOf (block_count read.now.geometry) read.now.tree.now
        (objects_of read.now.tree.now) read.now.old_maps.now.entries }
    ensures reads { OnlyReads B.SectorDevice result reader.old reader.new }
    ensures fits { IfOk result (FitsIn read.now.geometry) }
    ensures taken { IfOk result (TakesLowest read.now.free.now.free) }
    ensures tree { IfOk result (λ p. (old : Place → Pointer) × PlansReadTree
        (written_frame read.now.guid read.now.geometry read.now.group.0) old read.now.tree.now
        objects.now.entries (objects_with extents.now read.now.tree.now) p) }
    ensures objects { IsTrue B.keeps_model
        → HoldsOwn (bytes_of (B.disk reader.old).now) before.now
        read.now.tree.now
        → AreMapsOfObjects (pointers_of read.now.tree.now) read.now.old_maps.now.entries
        → IfOk result (HoldsPlanned
        (written_frame read.now.guid read.now.geometry read.now.group.0) read.now.tree.now
        objects.now.entries (objects_with extents.now read.now.tree.now)) }
    ensures no_space { IfErr result (IsShortFor objects.now.entries
        (objects_with extents.now read.now.tree.now) read.now.free.now.free) }
    ensures short { IsTrue B.keeps_model → HoldsOwn (bytes_of (B.disk reader.old).now) before.now
        read.now.tree.now
        → AreMapsOfObjects (pointers_of read.now.tree.now) read.now.old_maps.now.entries
        → IfErr result (IsShortFrom (pointers_of read.now.tree.now) objects.now.entries
        (objects_with extents.now read.now.tree.now) read.now.free.now.free) }
    ensures refused { IfErr result IsPlanRefusal }
    ensures sound { IsTrue B.keeps_model → HoldsOwn (bytes_of (B.disk reader.old).now) before.now
        read.now.tree.now
        → AreMapsOfObjects (pointers_of read.now.tree.now) read.now.old_maps.now.entries
        → IfErr result IsHeldRefusal }
{
    let after = prepare(reader, before, read, objects, extents)?;
    plan_sealed(read, &after, objects)
}

// Plans the tree of objects whose records are at hand, once these are sealed.
fn plan_sealed(
    read: &PlanSource<'_>,
    prepared: &PreparedObjects<'_>,
    objects: &BTreeMap<ObjectId, ObjectChanges>,
) -> Result<TreePlan, PoolError>
    requires free { read.now.free.now.blocks ≡ block_count read.now.geometry }
    requires ready { AreReady (λ n r. is_some (at_hand prepared.now.records n r) ≡ true)
        objects.now.entries }
    requires maps { AreMapsRead read.now (prepared_objects prepared.now) objects.now.entries }
    ensures taken { IfOk result
        (TakesBlocks read.now (prepared_objects prepared.now) objects.now) }
    ensures tree { IfOk result (GivesTree read.now (prepared_objects prepared.now) objects.now) }
    ensures lengths { IfOk result
        (HasLengths read.now (prepared_objects prepared.now) objects.now) }
    ensures entries { IfOk result (HasEntries (prepared_objects prepared.now) objects.now) }
    ensures freed { IfOk result (GivesBack read.now) }
    ensures full { IfErr result
        (TellsFull read.now (prepared_objects prepared.now) objects.now.entries) }
    ensures refused { IfErr result IsWant }
{
    let after = SealedObjects::new(read.alloc, prepared, read.guid, read.group)?;
    plan(read, &after, objects)
}
