//! The reads of a plan: each record that a group changes, as it is after the group. A plan itself reads nothing.

ghost use Rattle.std.specs.Prelude.{◌≡◌, ◌<◌, ◌≤◌, ℕ, IfErr, IfOk, IsTrue, OnOk, is_some, length, true};
ghost use Rattle.base.specs.declared.error.PoolError.TheVariants as error;
ghost use Rattle.base.specs.declared.record_state.RecordState.TheVariants.{Dirty};
ghost use Rattle.base.specs.disk.Disk.{bytes_of};
ghost use Rattle.base.specs.formats.Geometry.{block_address};
ghost use Rattle.base.specs.formats.Limits.{object_count, pointer_count, record_size};
ghost use Rattle.base.specs.kept.PlacedTrees.{HoldsTree};
ghost use Rattle.base.specs.tree.Places.{record_of_strip};
ghost use Rattle.device_model.specs.Reading.{OnlyReads};
ghost use Rattle.object_maps.specs.Cached.{IsReadRefusal};
ghost use Rattle.tree_blocks.specs.TreeObjects.{objects_of};
ghost use Rattle.extents.specs.Tables.{patches_of};
ghost use Rattle.tree_plans.specs.Changes.{state_at};
ghost use Rattle.tree_plans.specs.Parts.{AreReady};
ghost use Rattle.tree_plans.specs.Plans.{IsReady};
ghost use Rattle.tree_blocks.specs.ReadPointers.{read_record};
ghost use Rattle.tree_plans.specs.Pointers.{pointers_before};
ghost use Rattle.group_plans.specs.GroupPlans.{objects_with};
ghost use Rattle.group_plans.specs.OldMaps.{AreMapsReadFor, HasReadMap};
ghost use Rattle.group_plans.specs.Prepared.{AreBelow, AreExact, HoldsMap, HoldsRecord, HoldsRecords, IsPlainRefusal, IsPrepareRefusal, IsObjectRecord, KeepsHand, at_hand, number_of_record};

use crate::prepared::PreparedObjects;
use base::{OBJECT_COUNT, ObjectId, POINTER_COUNT, Pointer, PoolError, RECORD_SIZE, RecordState};
use checked_blocks::Frame;
use extents::Extents;
use object_maps::{BlockReader, read_part};
use std::collections::BTreeMap;
use tree_blocks::{ObjectMap, RecordPlace, Tree, strip_number};
use tree_plans::{ObjectChanges, PlanSource};

// Reads a record of the synced tree, if it is there and the group does not hide it.
fn read_below<B: BlockReader>(
    reader: &mut B,
    frame: &Frame,
    extents: &Extents,
    tree: &Tree,
    place: RecordPlace,
    pointer: &Pointer,
    into: &mut [u8],
) -> Result<(), PoolError>
    requires fits { block_address frame.now.blocks ≤ B.size reader.old }
    requires number { place.id.0 < object_count }
    requires strip { place.strip < pointer_count }
    requires index { place.index < pointer_count }
    requires size { length into.old ≡ record_size }
    ensures reads { OnlyReads B.SectorDevice result reader.old reader.new }
    ensures size { length into.new ≡ record_size }
    ensures refused { IfErr result IsReadRefusal }
    ensures exact { IsTrue B.keeps_model → HoldsRecord (bytes_of (B.disk reader.old).now)
        frame.now (objects_of tree.now) place pointer.now
        → OnOk result (AreBelow (patches_of extents.now) (objects_of tree.now)
        place.id.0 (number_of_record place) into.new) }
    ensures sound { IsTrue B.keeps_model → HoldsRecord (bytes_of (B.disk reader.old).now)
        frame.now (objects_of tree.now) place pointer.now
        → IfErr result (λ e. e ≡ error.Read) }
{
    let Some(size) = tree.length(place.id) else {
        return Ok(());
    };
    if extents.hides(place.id, place.number(), 0, RECORD_SIZE) {
        return Ok(());
    }
    let number = strip_number(place.id.0 as usize, place.strip);
    let size = size as usize;
    read_part(reader, frame, number, place.index, pointer, size, 0, into)
}

// Reads a record as it is after the group.
fn read_record<B: BlockReader>(
    reader: &mut B,
    frame: &Frame,
    extents: &Extents,
    tree: &Tree,
    place: RecordPlace,
    pointer: &Pointer,
    into: &mut [u8],
) -> Result<(), PoolError>
    requires fits { block_address frame.now.blocks ≤ B.size reader.old }
    requires number { place.id.0 < object_count }
    requires strip { place.strip < pointer_count }
    requires index { place.index < pointer_count }
    requires size { length into.old ≡ record_size }
    ensures reads { OnlyReads B.SectorDevice result reader.old reader.new }
    ensures size { length into.new ≡ record_size }
    ensures refused { IfErr result IsReadRefusal }
    ensures exact { IsTrue B.keeps_model → HoldsRecord (bytes_of (B.disk reader.old).now)
        frame.now (objects_of tree.now) place pointer.now
        → OnOk result (IsObjectRecord (objects_with extents.now tree.now)
        place.id.0 (number_of_record place) into.new) }
    ensures sound { IsTrue B.keeps_model → HoldsRecord (bytes_of (B.disk reader.old).now)
        frame.now (objects_of tree.now) place pointer.now
        → IfErr result (λ e. e ≡ error.Read) }
{
    read_below(reader, frame, extents, tree, place, pointer, into)?;
    extents.lay_on(place.id, place.number(), 0, into);
    Ok(())
}

// Puts a record at hand as it is after the group.
fn prepare_record<B: BlockReader>(
    reader: &mut B,
    frame: &Frame,
    prepared: &mut PreparedObjects<'_>,
    place: RecordPlace,
    pointer: &Pointer,
) -> Result<(), PoolError>
    requires fits { block_address frame.now.blocks ≤ B.size reader.old }
    requires number { place.id.0 < object_count }
    requires strip { place.strip < pointer_count }
    requires index { place.index < pointer_count }
    ensures reads { OnlyReads B.SectorDevice result reader.old reader.new }
    ensures extents { prepared.new.extents.now ≡ prepared.old.extents.now }
    ensures below { prepared.new.tree.now ≡ prepared.old.tree.now }
    ensures ready { OnOk result
        (is_some (at_hand prepared.new.records place.id.0 (number_of_record place)) ≡ true) }
    ensures kept { KeepsHand (at_hand prepared.old.records) (at_hand prepared.new.records) }
    ensures refused { IfErr result IsPrepareRefusal }
    ensures exact { IsTrue B.keeps_model → HoldsRecord (bytes_of (B.disk reader.old).now) frame.now
        (objects_of prepared.old.tree.now) place pointer.now
        → AreExact (at_hand prepared.old.records)
        (objects_with prepared.old.extents.now prepared.old.tree.now)
        → OnOk result (AreExact (at_hand prepared.new.records)
        (objects_with prepared.old.extents.now prepared.old.tree.now)) }
    ensures sound { IsTrue B.keeps_model → HoldsRecord (bytes_of (B.disk reader.old).now) frame.now
        (objects_of prepared.old.tree.now) place pointer.now
        → IfErr result IsPlainRefusal }
{
    let mut payload = [0; RECORD_SIZE];
    read_record(
        reader,
        frame,
        prepared.extents,
        prepared.tree,
        place,
        pointer,
        &mut payload,
    )?;
    prepared.put(place.id, place.number(), &mut payload)
}

// Puts a record at hand as it is after the group, if it changes. Its object has this map before the group.
fn prepare_dirty<B: BlockReader>(
    reader: &mut B,
    frame: &Frame,
    prepared: &mut PreparedObjects<'_>,
    place: RecordPlace,
    map: &ObjectMap,
    state: RecordState,
) -> Result<(), PoolError>
    requires fits { block_address frame.now.blocks ≤ B.size reader.old }
    requires number { place.id.0 < object_count }
    requires strip { place.strip < pointer_count }
    requires index { place.index < pointer_count }
    ensures reads { OnlyReads B.SectorDevice result reader.old reader.new }
    ensures extents { prepared.new.extents.now ≡ prepared.old.extents.now }
    ensures below { prepared.new.tree.now ≡ prepared.old.tree.now }
    ensures ready { OnOk result (state ≡ Dirty
        → is_some (at_hand prepared.new.records place.id.0 (number_of_record place)) ≡ true) }
    ensures kept { KeepsHand (at_hand prepared.old.records) (at_hand prepared.new.records) }
    ensures refused { IfErr result IsPrepareRefusal }
    ensures exact { IsTrue B.keeps_model → HoldsRecord (bytes_of (B.disk reader.old).now) frame.now
        (objects_of prepared.old.tree.now) place
        (read_record map.now place.strip place.index)
        → AreExact (at_hand prepared.old.records)
        (objects_with prepared.old.extents.now prepared.old.tree.now)
        → OnOk result (AreExact (at_hand prepared.new.records)
        (objects_with prepared.old.extents.now prepared.old.tree.now)) }
    ensures sound { IsTrue B.keeps_model → HoldsRecord (bytes_of (B.disk reader.old).now) frame.now
        (objects_of prepared.old.tree.now) place
        (read_record map.now place.strip place.index)
        → IfErr result IsPlainRefusal }
{
    match state {
        RecordState::Dirty => {
            let pointer = map.record(place.strip, place.index);
            prepare_record(reader, frame, prepared, place, &pointer)
        }
        RecordState::Unchanged | RecordState::Hole => Ok(()),
    }
}

// Puts the records of a strip of an object that change at hand, rising. The object has this map before the group.
fn prepare_strip<B: BlockReader>(
    reader: &mut B,
    frame: &Frame,
    prepared: &mut PreparedObjects<'_>,
    id: ObjectId,
    strip: usize,
    map: &ObjectMap,
    changes: &ObjectChanges,
) -> Result<(), PoolError>
    requires fits { block_address frame.now.blocks ≤ B.size reader.old }
    requires number { id.0 < object_count }
    requires strip { strip < pointer_count }
    ensures reads { OnlyReads B.SectorDevice result reader.old reader.new }
    ensures extents { prepared.new.extents.now ≡ prepared.old.extents.now }
    ensures below { prepared.new.tree.now ≡ prepared.old.tree.now }
    ensures ready { OnOk result ((k : ℕ) → k < pointer_count
        → state_at changes.now (record_of_strip strip k) ≡ Dirty
        → is_some (at_hand prepared.new.records id.0 (record_of_strip strip k)) ≡ true) }
    ensures kept { KeepsHand (at_hand prepared.old.records) (at_hand prepared.new.records) }
    ensures refused { IfErr result IsPrepareRefusal }
    ensures exact { IsTrue B.keeps_model → HoldsRecords (bytes_of (B.disk reader.old).now) frame.now
        (objects_of prepared.old.tree.now) id.0 strip map.now
        → AreExact (at_hand prepared.old.records)
        (objects_with prepared.old.extents.now prepared.old.tree.now)
        → OnOk result (AreExact (at_hand prepared.new.records)
        (objects_with prepared.old.extents.now prepared.old.tree.now)) }
    ensures sound { IsTrue B.keeps_model → HoldsRecords (bytes_of (B.disk reader.old).now) frame.now
        (objects_of prepared.old.tree.now) id.0 strip map.now
        → IfErr result IsPlainRefusal }
{
    for index in 0..POINTER_COUNT {
        let place = RecordPlace { id, strip, index };
        let state = changes.state(place.number());
        prepare_dirty(reader, frame, prepared, place, map, state)?;
    }
    Ok(())
}

// Puts the records of a strip of an object that change at hand, if there are any.
fn prepare_written<B: BlockReader>(
    reader: &mut B,
    frame: &Frame,
    prepared: &mut PreparedObjects<'_>,
    id: ObjectId,
    strip: usize,
    map: &ObjectMap,
    changes: &ObjectChanges,
) -> Result<(), PoolError>
    requires fits { block_address frame.now.blocks ≤ B.size reader.old }
    requires number { id.0 < object_count }
    requires strip { strip < pointer_count }
    ensures reads { OnlyReads B.SectorDevice result reader.old reader.new }
    ensures extents { prepared.new.extents.now ≡ prepared.old.extents.now }
    ensures below { prepared.new.tree.now ≡ prepared.old.tree.now }
    ensures ready { OnOk result ((k : ℕ) → k < pointer_count
        → state_at changes.now (record_of_strip strip k) ≡ Dirty
        → is_some (at_hand prepared.new.records id.0 (record_of_strip strip k)) ≡ true) }
    ensures kept { KeepsHand (at_hand prepared.old.records) (at_hand prepared.new.records) }
    ensures refused { IfErr result IsPrepareRefusal }
    ensures exact { IsTrue B.keeps_model → HoldsMap (bytes_of (B.disk reader.old).now) frame.now
        (objects_of prepared.old.tree.now) id.0 changes.now map.now
        → AreExact (at_hand prepared.old.records)
        (objects_with prepared.old.extents.now prepared.old.tree.now)
        → OnOk result (AreExact (at_hand prepared.new.records)
        (objects_with prepared.old.extents.now prepared.old.tree.now)) }
    ensures sound { IsTrue B.keeps_model → HoldsMap (bytes_of (B.disk reader.old).now) frame.now
        (objects_of prepared.old.tree.now) id.0 changes.now map.now
        → IfErr result IsPlainRefusal }
{
    if !changes.writes_strip(strip) {
        return Ok(());
    }
    prepare_strip(reader, frame, prepared, id, strip, map, changes)
}

// Puts the records of an object that change at hand, rising. The object has this map before the group.
fn prepare_object<B: BlockReader>(
    reader: &mut B,
    frame: &Frame,
    prepared: &mut PreparedObjects<'_>,
    id: ObjectId,
    map: &ObjectMap,
    changes: &ObjectChanges,
) -> Result<(), PoolError>
    requires fits { block_address frame.now.blocks ≤ B.size reader.old }
    requires number { id.0 < object_count }
    ensures reads { OnlyReads B.SectorDevice result reader.old reader.new }
    ensures extents { prepared.new.extents.now ≡ prepared.old.extents.now }
    ensures below { prepared.new.tree.now ≡ prepared.old.tree.now }
    ensures ready { OnOk result
        (IsReady (λ r. is_some (at_hand prepared.new.records id.0 r) ≡ true) changes.now) }
    ensures kept { KeepsHand (at_hand prepared.old.records) (at_hand prepared.new.records) }
    ensures refused { IfErr result IsPrepareRefusal }
    ensures exact { IsTrue B.keeps_model → HoldsMap (bytes_of (B.disk reader.old).now) frame.now
        (objects_of prepared.old.tree.now) id.0 changes.now map.now
        → AreExact (at_hand prepared.old.records)
        (objects_with prepared.old.extents.now prepared.old.tree.now)
        → OnOk result (AreExact (at_hand prepared.new.records)
        (objects_with prepared.old.extents.now prepared.old.tree.now)) }
    ensures sound { IsTrue B.keeps_model → HoldsMap (bytes_of (B.disk reader.old).now) frame.now
        (objects_of prepared.old.tree.now) id.0 changes.now map.now
        → IfErr result IsPlainRefusal }
{
    for strip in 0..changes.written_end() {
        prepare_written(reader, frame, prepared, id, strip, map, changes)?;
    }
    Ok(())
}

// Puts the records of an object that change at hand, if the tree has a place for it. Its map was read.
fn prepare_changed<B: BlockReader>(
    reader: &mut B,
    frame: &Frame,
    source: &PlanSource<'_>,
    prepared: &mut PreparedObjects<'_>,
    id: ObjectId,
    changes: &ObjectChanges,
) -> Result<(), PoolError>
    requires fits { block_address frame.now.blocks ≤ B.size reader.old }
    requires map { id.0 < object_count → HasReadMap
        (objects_with prepared.old.extents.now prepared.old.tree.now)
        source.now.old_maps.now.entries id.0 changes.now }
    ensures reads { OnlyReads B.SectorDevice result reader.old reader.new }
    ensures extents { prepared.new.extents.now ≡ prepared.old.extents.now }
    ensures below { prepared.new.tree.now ≡ prepared.old.tree.now }
    ensures ready { OnOk result (id.0 < object_count
        → IsReady (λ r. is_some (at_hand prepared.new.records id.0 r) ≡ true) changes.now) }
    ensures kept { KeepsHand (at_hand prepared.old.records) (at_hand prepared.new.records) }
    ensures refused { IfErr result IsPrepareRefusal }
    ensures exact { IsTrue B.keeps_model → HoldsTree (bytes_of (B.disk reader.old).now) frame.now
        (pointers_before source.now) (objects_of prepared.old.tree.now)
        → AreExact (at_hand prepared.old.records)
        (objects_with prepared.old.extents.now prepared.old.tree.now)
        → OnOk result (AreExact (at_hand prepared.new.records)
        (objects_with prepared.old.extents.now prepared.old.tree.now)) }
    ensures sound { IsTrue B.keeps_model → HoldsTree (bytes_of (B.disk reader.old).now) frame.now
        (pointers_before source.now) (objects_of prepared.old.tree.now)
        → IfErr result IsPlainRefusal }
{
    if id.0 >= OBJECT_COUNT {
        return Ok(());
    }
    prepare_object(reader, frame, prepared, id, source.old_map(id), changes)
}

// The objects after a group, with each record at hand that the group changes. It reads those that the group does not
// hide, for rising objects and in each for rising records. `extents` are the group's changes, over the objects of the
// tree of the source. The source has the maps of these objects, which were read.
//
// - `ready`: a plan of these changes finds what it needs.
// - `exact`: where the model is kept and the source has the pointers of the tree that is held, each record at hand is
//   that of the object after the group.
//
// It is refused `NoMemory`, `Read` or `Damaged`. Where the model is kept it is not `Damaged` (`sound`).
pub(crate) fn prepare<'a, B: BlockReader>(
    reader: &mut B,
    frame: &Frame,
    source: &PlanSource<'a>,
    objects: &BTreeMap<ObjectId, ObjectChanges>,
    extents: &'a Extents,
) -> Result<PreparedObjects<'a>, PoolError>
    requires fits { block_address frame.now.blocks ≤ B.size reader.old }
    requires maps { AreMapsReadFor (objects_with extents.now source.now.tree.now) objects.now.entries
        source.now.old_maps.now.entries }
    ensures reads { OnlyReads B.SectorDevice result reader.old reader.new }
    ensures extents { IfOk result (λ p. p.extents.now ≡ extents.now) }
    ensures below { IfOk result (λ p. p.tree.now ≡ source.now.tree.now) }
    ensures ready { IfOk result (λ p.
        AreReady (λ n r. is_some (at_hand p.records n r) ≡ true) objects.now.entries) }
    ensures refused { IfErr result IsPrepareRefusal }
    ensures exact { IsTrue B.keeps_model → HoldsTree (bytes_of (B.disk reader.old).now) frame.now
        (pointers_before source.now) (objects_of source.now.tree.now)
        → IfOk result (λ p. AreExact (at_hand p.records) (objects_with extents.now source.now.tree.now)) }
    ensures sound { IsTrue B.keeps_model → HoldsTree (bytes_of (B.disk reader.old).now) frame.now
        (pointers_before source.now) (objects_of source.now.tree.now)
        → IfErr result IsPlainRefusal }
{
    let mut prepared = PreparedObjects::new(source.alloc, extents, source.tree);
    for (id, changes) in objects.iter() {
        prepare_changed(reader, frame, source, &mut prepared, *id, changes)?;
    }
    Ok(prepared)
}
