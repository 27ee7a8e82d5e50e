//! What callers rest on of the plan of a tree, and of what operations change of objects.

ghost use Rattle.std.specs.Prelude.{◌≡◌, ◌<◌, ◌≤◌, ◌∷◌, [], ℕ, All, IfErr, IfOk, None, Ok, Some, false, is_some, length, map, nat_eq, true};
ghost use Rattle.std.specs.FinMap as finite;
ghost use Rattle.std.specs.List.{IsDistinct};
ghost use Rattle.base.specs.declared.error.PoolError.{PoolError};
ghost use Rattle.base.specs.declared.error.PoolError.TheVariants as error;
ghost use Rattle.base.specs.declared.operation.Op.TheVariants as op;
ghost use Rattle.base.specs.declared.record_state.RecordState.TheVariants as state;
ghost use Rattle.base.specs.formats.Fields.{number_at};
ghost use Rattle.base.specs.formats.Geometry.{block_count};
ghost use Rattle.base.specs.history.Contents.{Contents, length_of};
ghost use Rattle.base.specs.history.History.{apply_all};
ghost use Rattle.base.specs.tree.Places.{strip_number};
ghost use Rattle.base.specs.tree.Places.Place.{Data};
ghost use Rattle.base.specs.tree.Syncs.{is_dirty};
ghost use Rattle.tree_blocks.specs.declared.object_map.ObjectMap.{ObjectMap};
ghost use Rattle.tree_blocks.specs.Lengths.{length_in};
ghost use Rattle.tree_blocks.specs.TreeObjects.{lengths_of};
ghost use Rattle.records.specs.declared.record.Record.{Record};
ghost use Rattle.tree_plans.specs.Changes.{AreBornBefore, AreInRange, is_changed_in, state_at, state_in};
ghost use Rattle.tree_plans.specs.Parts.{AreMapsRead, AreReady};
ghost use Rattle.plan_clients.specs.NewBlocks.{HasNewIndirect, HasNewRecord, HasNewTop, ReturnsBlock};
ghost use Rattle.tree_plans.specs.Marks.{pending_ops};
ghost use Rattle.tree_plans.specs.Plans.{AreApart, IsAmong, address_of};
ghost use Rattle.tree_plans.specs.Pointers.{entry_of, planned_lengths, pointers_before};
ghost use Rattle.tree_plans.specs.TreePlans.{free_addresses, places_written};
ghost use Rattle.tree_plans.specs.Walks.{is_any_touched};

use base::{Group, ObjectId, Pointer, PoolError, RecordState};
use checked_blocks::Block;
use records::Record;
use std::alloc::Global;
use std::collections::BTreeMap;
use tree_blocks::{ObjectEntry, RecordPlace};
use tree_plans::{ObjectChanges, PlanSource, SealedSource, TreePlan, changed_objects, plan};

// A write of one byte makes its own record dirty, and no other.
#[tactic(auto, unfolding(base::specs::formats::Limits::record_count))]
fn a_write_makes_its_own_record_dirty(alloc: Global) -> Result<ObjectChanges, PoolError>
    ensures before { IfOk result (λ changes. state_at changes 0 ≡ state.Unchanged) }
    ensures here { IfOk result (λ changes. state_at changes 1 ≡ state.Dirty) }
    ensures changed { IfOk result (λ changes. changes.is_changed ≡ true) }
    ensures length { IfOk result (λ changes. changes.length ≡ 4033) }
{
    let mut changes = ObjectChanges::none(alloc, 0);
    changes.write(4_032, 1)?;
    Ok(changes)
}

// A cut to 5,000 bytes keeps record 0, goes into record 1 and leaves nothing of record 2.
#[tactic(auto, unfolding(base::specs::formats::Limits::record_count))]
fn a_cut_makes_the_record_that_it_goes_into_dirty(alloc: Global) -> Result<ObjectChanges, PoolError>
    ensures before { IfOk result (λ changes. state_at changes 0 ≡ state.Unchanged) }
    ensures here { IfOk result (λ changes. state_at changes 1 ≡ state.Dirty) }
    ensures after { IfOk result (λ changes. state_at changes 2 ≡ state.Hole) }
    ensures length { IfOk result (λ changes. changes.length ≡ 5000) }
{
    let mut changes = ObjectChanges::none(alloc, 12_096);
    changes.set_length(5_000)?;
    Ok(changes)
}

// A removed object has only holes, even if it was written before.
#[tactic(auto, unfolding(base::specs::formats::Limits::record_count))]
fn a_removed_object_has_holes_alone(alloc: Global) -> Result<ObjectChanges, PoolError>
    ensures first { IfOk result (λ changes. state_at changes 0 ≡ state.Hole) }
    ensures last { IfOk result (λ changes. state_at changes 83 ≡ state.Hole) }
    ensures length { IfOk result (λ changes. changes.length ≡ 0) }
{
    let mut changes = ObjectChanges::none(alloc, 0);
    changes.write(0, 5)?;
    changes.clear();
    Ok(changes)
}

// A write of the first byte of strip 1 leaves strip 0 as it is, and has a record of strip 1 to write.
fn a_write_is_in_its_own_strip(alloc: Global) -> Result<(bool, bool), PoolError>
    ensures first { IfOk result (λ told. told.0 ≡ false) }
    ensures own { IfOk result (λ told. told.1 ≡ true) }
{
    let mut changes = ObjectChanges::none(alloc, 0);
    changes.write(338_688, 1)?;
    Ok((changes.touches_strip(0), changes.writes_strip(1)))
}

// A strip with a record to write comes before the end of those that are written.
fn a_written_strip_comes_before_the_end(changes: &ObjectChanges) {
    if changes.writes_strip(5) {
        prove!(changes.written_end() > 5);
    }
}

// A record that no operation came to stays as it is.
fn a_record_without_operations_is_unchanged(alloc: Global) {
    let changes = ObjectChanges::none(alloc, 5_000);
    prove!(matches!(changes.state(1), RecordState::Unchanged));
}

// Operations of group 5 change nothing in group 6.
fn operations_of_another_group_are_left_out(
    alloc: Global,
    maps: &[ObjectEntry],
    pending: &[Record],
) -> Result<BTreeMap<ObjectId, ObjectChanges>, PoolError>
    requires { All (λ (c : Record). c.group.0 ≡ 5) pending.now }
    ensures { IfOk result (λ objects. (n : ℕ) → entry_of objects.entries n ≡ None) }
{
    changed_objects(alloc, maps, pending, Group(6))
}

// If the tree has 12,096 bytes, a new length of 5,000 is a cut: record 2 becomes a hole.
fn a_length_is_cut_from_that_of_the_tree(
    alloc: Global,
    maps: &[ObjectEntry],
    pending: &[Record],
) -> Result<BTreeMap<ObjectId, ObjectChanges>, PoolError>
    requires ops { pending_ops 5 pending.now ≡ op.SetLength (record { 0 = 7 }) 5000 ∷ [] }
    requires length { length_in maps.now 7 ≡ Some 12096 }
    ensures there { IfOk result (λ objects. is_some (entry_of objects.entries 7) ≡ true) }
    ensures cut { IfOk result (λ objects. (before after : Contents)
        → apply_all (pending_ops 5 pending.now) before ≡ Ok after
        → length_of before 7 ≡ Some 12096 → state_in objects.entries 7 2 ≡ state.Hole) }
    ensures refused { IfErr result (λ e. e ≡ error.NoMemory) }
{
    changed_objects(alloc, maps, pending, Group(5))
}

// Blocks 0, 1 and 4 are free: a plan of two blocks takes blocks 0 and 1.
fn a_plan_takes_the_lowest_free_blocks<O: SealedSource>(
    source: &PlanSource<'_>,
    after: &O,
    objects: &BTreeMap<ObjectId, ObjectChanges>,
) -> Result<TreePlan, PoolError>
    requires sized { source.now.free.now.blocks ≡ block_count source.now.geometry }
    requires free { free_addresses source.now ≡ 4194304 ∷ 4198400 ∷ 4210688 ∷ [] }
    requires ready { AreReady (O.has_record after.now) objects.now.entries }
    requires maps { AreMapsRead source.now (O.objects after.now) objects.now.entries }
    ensures { IfOk result (λ p. length p.blocks.items ≡ 2
        → map address_of p.blocks.items ≡ 4194304 ∷ 4198400 ∷ []) }
{
    plan(source, after, objects)
}

// A group that leaves no record dirty, writes no object, sets no length and leaves no object takes no block.
fn what_is_unchanged_is_not_written<O: SealedSource>(
    source: &PlanSource<'_>,
    after: &O,
    objects: &BTreeMap<ObjectId, ObjectChanges>,
) -> Result<TreePlan, PoolError>
    requires sized { source.now.free.now.blocks ≡ block_count source.now.geometry }
    requires in_range { AreInRange objects.now.entries (O.objects after.now) }
    requires ready { AreReady (O.has_record after.now) objects.now.entries }
    requires maps { AreMapsRead source.now (O.objects after.now) objects.now.entries }
    ensures { IfOk result (λ p.
        ((n r : ℕ) → is_dirty (state_in objects.now.entries n r) ≡ false)
        → ((n : ℕ) → is_changed_in objects.now.entries n ≡ false)
        → ((n : ℕ) → finite.get (O.objects after.now) n ≡ None) → p.blocks.items ≡ []) }
{
    plan(source, after, objects)
}

// A new block at record 2 of object 7 is data block 590 and holds that record.
fn a_new_data_block_has_its_record<O: SealedSource>(
    source: &PlanSource<'_>,
    after: &O,
    objects: &BTreeMap<ObjectId, ObjectChanges>,
) -> Result<TreePlan, PoolError>
    requires sized { source.now.free.now.blocks ≡ block_count source.now.geometry }
    requires ready { AreReady (O.has_record after.now) objects.now.entries }
    requires maps { AreMapsRead source.now (O.objects after.now) objects.now.entries }
    ensures { IfOk result
        (HasNewRecord source.now (O.objects after.now) objects.now.entries) }
{
    plan(source, after, objects)
}

// A new indirect block of object 7 has number 7 and holds the pointers to its records.
fn a_new_indirect_block_has_the_number_of_its_object<O: SealedSource>(
    source: &PlanSource<'_>,
    after: &O,
    objects: &BTreeMap<ObjectId, ObjectChanges>,
) -> Result<TreePlan, PoolError>
    requires sized { source.now.free.now.blocks ≡ block_count source.now.geometry }
    requires ready { AreReady (O.has_record after.now) objects.now.entries }
    requires maps { AreMapsRead source.now (O.objects after.now) objects.now.entries }
    ensures { IfOk result
        (HasNewIndirect source.now (O.objects after.now) objects.now.entries) }
{
    plan(source, after, objects)
}

// A new top of object 7 has number 7 and holds the pointers to its indirect blocks. One level doesn't hold the object.
fn a_new_top_has_the_number_of_its_object<O: SealedSource>(
    source: &PlanSource<'_>,
    after: &O,
    objects: &BTreeMap<ObjectId, ObjectChanges>,
) -> Result<TreePlan, PoolError>
    requires sized { source.now.free.now.blocks ≡ block_count source.now.geometry }
    requires ready { AreReady (O.has_record after.now) objects.now.entries }
    requires maps { AreMapsRead source.now (O.objects after.now) objects.now.entries }
    ensures { IfOk result (HasNewTop source.now (O.objects after.now) objects.now.entries) }
{
    plan(source, after, objects)
}

// If object 7 has three bytes after the group, the planned tree has that length. Object 8 keeps its own.
fn a_planned_object_has_its_new_length<O: SealedSource>(
    source: &PlanSource<'_>,
    after: &O,
    objects: &BTreeMap<ObjectId, ObjectChanges>,
) -> Result<TreePlan, PoolError>
    requires sized { source.now.free.now.blocks ≡ block_count source.now.geometry }
    requires object { finite.get (O.objects after.now) 7 ≡ Some (1 ∷ 2 ∷ 3 ∷ []) }
    requires touched { is_some (entry_of objects.now.entries 7) ≡ true }
    requires untouched { entry_of objects.now.entries 8 ≡ None }
    requires ready { AreReady (O.has_record after.now) objects.now.entries }
    requires maps { AreMapsRead source.now (O.objects after.now) objects.now.entries }
    ensures new { IfOk result (λ p. planned_lengths source.now p 7 ≡ Some 3) }
    ensures kept { IfOk result (λ p. planned_lengths source.now p 8
        ≡ lengths_of source.now.tree.now 8) }
{
    plan(source, after, objects)
}

// If an operation is on an object, the block of the old root comes back.
fn a_replaced_root_comes_back<O: SealedSource>(
    source: &PlanSource<'_>,
    after: &O,
    objects: &BTreeMap<ObjectId, ObjectChanges>,
) -> Result<TreePlan, PoolError>
    requires sized { source.now.free.now.blocks ≡ block_count source.now.geometry }
    requires touched { is_any_touched objects.now.entries ≡ true }
    requires root { source.now.tree.now.root.address ≡ 4194304 }
    requires ready { AreReady (O.has_record after.now) objects.now.entries }
    requires maps { AreMapsRead source.now (O.objects after.now) objects.now.entries }
    ensures { IfOk result (λ p.
        AreBornBefore source.now.group.0 (pointers_before source.now)
        → IsAmong p.freed.items 4194304) }
{
    plan(source, after, objects)
}

// If object 7 has three bytes after the group, the block comes back that its record 84 had, the first of its strip 1.
fn a_block_past_a_cut_comes_back<O: SealedSource>(
    source: &PlanSource<'_>,
    after: &O,
    objects: &BTreeMap<ObjectId, ObjectChanges>,
) -> Result<TreePlan, PoolError>
    requires sized { source.now.free.now.blocks ≡ block_count source.now.geometry }
    requires object { finite.get (O.objects after.now) 7 ≡ Some (1 ∷ 2 ∷ 3 ∷ []) }
    requires block { (pointers_before source.now (Data (strip_number 7 1) 0)).address ≡ 4194304 }
    requires ready { AreReady (O.has_record after.now) objects.now.entries }
    requires maps { AreMapsRead source.now (O.objects after.now) objects.now.entries }
    ensures { IfOk result (ReturnsBlock source.now (O.objects after.now) objects.now.entries) }
{
    plan(source, after, objects)
}

// If enough blocks are free, a plan may be refused only for memory.
fn free_blocks_suffice_for_the_places_written<O: SealedSource>(
    source: &PlanSource<'_>,
    after: &O,
    objects: &BTreeMap<ObjectId, ObjectChanges>,
) -> Result<TreePlan, PoolError>
    requires sized { source.now.free.now.blocks ≡ block_count source.now.geometry }
    requires in_range { AreInRange objects.now.entries (O.objects after.now) }
    requires room { length (places_written source.now (O.objects after.now) objects.now.entries)
        ≤ length (free_addresses source.now) }
    requires ready { AreReady (O.has_record after.now) objects.now.entries }
    requires maps { AreMapsRead source.now (O.objects after.now) objects.now.entries }
    ensures { IfErr result (λ e. e ≡ error.NoMemory) }
{
    plan(source, after, objects)
}

// No block comes back twice, if no two places of the tree had blocks at one address.
fn a_replaced_block_comes_back_once<O: SealedSource>(
    source: &PlanSource<'_>,
    after: &O,
    objects: &BTreeMap<ObjectId, ObjectChanges>,
) -> Result<TreePlan, PoolError>
    requires blocks { source.now.free.now.blocks ≡ block_count source.now.geometry }
    requires apart { AreApart (pointers_before source.now) }
    requires ready { AreReady (O.has_record after.now) objects.now.entries }
    requires maps { AreMapsRead source.now (O.objects after.now) objects.now.entries }
    ensures { IfOk result (λ p. IsDistinct nat_eq p.freed.items) }
{
    plan(source, after, objects)
}

// Of the maps of objects 7 and 8, object 8 has the second one.
fn an_object_has_its_own_map(source: &PlanSource<'_>) -> Pointer
    requires { is_some (entry_of source.now.old_maps.now.entries 8) ≡ true }
    ensures { (a b : ObjectMap) → source.now.old_maps.now.entries
        ≡ (record { 0 = 7 }, a) ∷ (record { 0 = 8 }, b) ∷ [] → result ≡ b.top }
{
    source.old_map(ObjectId(8)).top
}

// The sealed block of record 2 of object 7 is data block 590 of the pool and of the group that are asked for.
fn a_sealed_record_has_the_number_of_its_block<O: SealedSource>(
    after: &O,
) -> Result<Block, PoolError>
    requires { O.has_record after.now 7 2 }
    ensures kind { IfOk result (λ block. number_at block 0 ≡ 5) }
    ensures guid { IfOk result (λ block. number_at block 8 ≡ 3) }
    ensures group { IfOk result (λ block. number_at block 16 ≡ 6) }
    ensures number { IfOk result (λ block. number_at block 24 ≡ 590) }
{
    let place = RecordPlace {
        id: ObjectId(7),
        strip: 0,
        index: 2,
    };
    after.sealed_record(3, Group(6), place)
}
