//! The maps of objects before a group. A tree in memory has the pointers down to what its directories name. So of each
//! object that the group changes its top is read, if it has one, and then the indirect blocks of those strips that a
//! plan looks at: strips of which the group changes a record, and all strips if the object has one level after it.

ghost use Rattle.std.specs.Prelude.{◌≡◌, ◌<◌, ◌≤◌, ◌⊎◌, ℕ, List, IfErr, IfOk, IsTrue, None, OnOk, false, is_some, length, vec_len};
ghost use Rattle.std.specs.Ordering.{nat_cmp};
ghost use Rattle.std.specs.FinMap.{FinMap};
ghost use Rattle.base.specs.declared.error.PoolError.TheVariants as error;
ghost use Rattle.base.specs.declared.pointer.Pointer.{Pointer};
ghost use Rattle.base.specs.disk.Disk.{bytes_of};
ghost use Rattle.base.specs.formats.Fields.{no_pointer, pointer_in};
ghost use Rattle.base.specs.formats.Geometry.{block_address};
ghost use Rattle.base.specs.formats.Limits.{indirect_count, object_count, payload_size, pointer_count};
ghost use Rattle.base.specs.kept.PlacedTrees.{IsPlaced};
ghost use Rattle.base.specs.tree.Places.{Place, record_start, strip_number, strip_start};
ghost use Rattle.base.specs.tree.Places.Place.{Data, Indirect};
ghost use Rattle.device_model.specs.Reading.{OnlyReads};
ghost use Rattle.object_maps.specs.Cached.{HoldsStrip, HoldsTop, IsDamage, IsPointerInside};
ghost use Rattle.tree_blocks.specs.Pointers.{pointer_of_list, pointers_of};
ghost use Rattle.tree_plans.specs.Pointers.{entry_of};
ghost use Rattle.tree_blocks.specs.ReadPointers.{records_among};
ghost use Rattle.tree_blocks.specs.TreeObjects.{objects_of};
ghost use Rattle.group_plans.specs.GroupPlans.{objects_with};
ghost use Rattle.group_plans.specs.OldMaps.{AreMapsOf, AreMapsOfObjects, AreMapsReadFor, ArePointersOf, AreRecordsAt, AreMapRecords, AreMapStrips, AreStripsRead, HasReadMap, HoldsOwn, HoldsStripsOf, IsMapBefore, IsReadFor, IsStripRead, size_in};
ghost use Rattle.group_plans.specs.Prepared.{IsPlainRefusal, IsPrepareRefusal};

use crate::planning::GroupSource;
use base::{OBJECT_COUNT, ObjectId, POINTER_COUNT, Pointer, PoolError, RECORD_SIZE};
use checked_blocks::Frame;
use extents::{Extents, Laid};
use object_maps::{BlockReader, read_indirect, read_top, record_pointer, strip_pointer};
use std::alloc::Global;
use std::collections::BTreeMap;
use tree_blocks::{ObjectMap, ObjectSource, Tree, is_long, strip_number};
use tree_plans::ObjectChanges;

// An object whose map is read.
#[derive(Clone, Copy)]
pub(crate) struct OldObject<'a> {
    // Its number.
    pub(crate) id: ObjectId,
    // Its length before the group in bytes, 0 if it is absent.
    pub(crate) size: usize,
    // Whether it has two levels of indirect blocks after the group.
    pub(crate) is_long: bool,
    // What the group does to it.
    pub(crate) changes: &'a ObjectChanges,
}

impl OldObject<'_> {
    ghost use Rattle.std.specs.Prelude.{◌≡◌, ◌<◌};
    ghost use Rattle.base.specs.formats.Limits.{pointer_count};
    ghost use Rattle.tree_plans.specs.Plans.{is_strip_replaced};

    // Whether a plan looks at the indirect block of a strip.
    fn is_looked_at(&self, strip: usize) -> bool
        requires { strip < pointer_count }
        ensures { result ≡ is_strip_replaced self.now.is_long self.now.changes.now strip }
    {
        !self.is_long || self.changes.touches_strip(strip)
    }
}

// The pointers to the records of the strip of this number, in the payload of its indirect block.
fn records_in(
    alloc: Global,
    frame: &Frame,
    payload: &[u8],
    number: usize,
    size: usize,
) -> Result<Vec<Pointer>, PoolError>
    requires size { length payload.now ≡ payload_size }
    requires number { number < indirect_count }
    ensures count { IfOk result (λ l. vec_len l ≡ pointer_count) }
    ensures pointers { IfOk result (λ l. (k : ℕ) → k < pointer_count
        → pointer_of_list l.items k ≡ pointer_in payload.now k) }
    ensures records { IfOk result (λ l. AreMapRecords frame.now.blocks size number l.items) }
    ensures refused { IfErr result (λ e. (e ≡ error.NoMemory) ⊎ IsDamage e) }
    ensures sound { ((k : ℕ) → k < pointer_count → IsPointerInside frame.now.blocks size
        (record_start number k) (pointer_in payload.now k))
        → IfErr result (λ e. e ≡ error.NoMemory) }
{
    let mut pointers = Vec::with_capacity(alloc, POINTER_COUNT)?;
    for index in 0..POINTER_COUNT {
        let pointer = record_pointer(frame, payload, number, index, size)?;
        pointers.push_reserved(pointer);
    }
    Ok(pointers)
}

// The pointers to the records of the strip of this number, whose indirect block is read. Its object has this length.
fn read_records<B: BlockReader>(
    alloc: Global,
    reader: &mut B,
    frame: &Frame,
    number: usize,
    indirect: &Pointer,
    size: usize,
) -> Result<Vec<Pointer>, PoolError>
    requires fits { block_address frame.now.blocks ≤ B.size reader.old }
    requires number { number < indirect_count }
    ensures reads { OnlyReads B.SectorDevice result reader.old reader.new }
    ensures records { IfOk result (λ l. AreMapRecords frame.now.blocks size number l.items) }
    ensures refused { IfErr result IsPrepareRefusal }
    ensures exact { IsTrue B.keeps_model → (pointers : Place → Pointer) (bytes : List ℕ)
        → HoldsStrip (bytes_of (B.disk reader.old).now) frame.now number indirect.now pointers bytes
        → IfOk result (λ l. (k : ℕ) → k < pointer_count
        → pointer_of_list l.items k ≡ pointers (Data number k)) }
    ensures sound { IsTrue B.keeps_model → (pointers : Place → Pointer) (bytes : List ℕ)
        → HoldsStrip (bytes_of (B.disk reader.old).now) frame.now number indirect.now pointers bytes
        → length bytes ≡ size → IfErr result IsPlainRefusal }
{
    let mut payload = [0; RECORD_SIZE];
    read_indirect(reader, frame, number, indirect, &mut payload)?;
    records_in(alloc, frame, &payload, number, size)
}

// The pointers to the records of a strip, if a plan looks at it and it has an indirect block, which is read then.
fn read_strip<B: BlockReader>(
    alloc: Global,
    reader: &mut B,
    frame: &Frame,
    object: &OldObject<'_>,
    strip: usize,
    indirect: &Pointer,
) -> Result<Option<Vec<Pointer>>, PoolError>
    requires fits { block_address frame.now.blocks ≤ B.size reader.old }
    requires number { object.now.id.0 < object_count }
    requires strip { strip < pointer_count }
    ensures reads { OnlyReads B.SectorDevice result reader.old reader.new }
    ensures read { IfOk result (IsStripRead frame.now.blocks object.now strip indirect.now) }
    ensures refused { IfErr result IsPrepareRefusal }
    ensures exact { IsTrue B.keeps_model → (pointers : Place → Pointer) (indirects : List Pointer)
        → HoldsStripsOf (bytes_of (B.disk reader.old).now) frame.now object.now indirects pointers
        → pointer_of_list indirects strip ≡ indirect.now
        → IfOk result (AreRecordsAt pointers (strip_number object.now.id.0 strip)) }
    ensures sound { IsTrue B.keeps_model → (pointers : Place → Pointer) (indirects : List Pointer)
        → HoldsStripsOf (bytes_of (B.disk reader.old).now) frame.now object.now indirects pointers
        → pointer_of_list indirects strip ≡ indirect.now
        → IfErr result IsPlainRefusal }
{
    if !object.is_looked_at(strip) || indirect.is_none() {
        return Ok(None);
    }
    let number = strip_number(object.id.0 as usize, strip);
    let records = read_records(alloc, reader, frame, number, indirect, object.size)?;
    Ok(Some(records))
}

// The records of a strip go to those that were read, if there are any.
fn put_strip(
    strips: &mut BTreeMap<usize, Vec<Pointer>>,
    strip: usize,
    read: Option<Vec<Pointer>>,
) -> Result<(), PoolError>
    ensures here { OnOk result (records_among strips.old.entries strip ≡ None
        → records_among strips.new.entries strip ≡ read) }
    ensures others { OnOk result ((j : ℕ) → (strip ≡ j → ⊥)
        → records_among strips.new.entries j ≡ records_among strips.old.entries j) }
    ensures refused { IfErr result (λ e. e ≡ error.NoMemory) }
{
    if let Some(records) = read {
        strips.insert(strip, records)?;
    }
    Ok(())
}

// The records of the strips of an object that a plan looks at, rising. These are the pointers to its indirect blocks.
fn read_strips<B: BlockReader>(
    alloc: Global,
    reader: &mut B,
    frame: &Frame,
    object: &OldObject<'_>,
    indirects: &[Pointer],
) -> Result<BTreeMap<usize, Vec<Pointer>>, PoolError>
    requires fits { block_address frame.now.blocks ≤ B.size reader.old }
    requires number { object.now.id.0 < object_count }
    requires count { length indirects.now ≡ pointer_count }
    ensures reads { OnlyReads B.SectorDevice result reader.old reader.new }
    ensures read { IfOk result (λ strips.
        AreStripsRead frame.now.blocks object.now pointer_count indirects.now strips.entries) }
    ensures refused { IfErr result IsPrepareRefusal }
    ensures exact { IsTrue B.keeps_model → (pointers : Place → Pointer)
        → HoldsStripsOf (bytes_of (B.disk reader.old).now) frame.now object.now indirects.now
        pointers → IfOk result (λ strips. (j : ℕ) → j < pointer_count
        → AreRecordsAt pointers (strip_number object.now.id.0 j)
        (records_among strips.entries j)) }
    ensures sound { IsTrue B.keeps_model → (pointers : Place → Pointer)
        → HoldsStripsOf (bytes_of (B.disk reader.old).now) frame.now object.now indirects.now
        pointers → IfErr result IsPlainRefusal }
{
    let mut strips = BTreeMap::new(alloc);
    for strip in 0..POINTER_COUNT {
        let indirect = &indirects[strip];
        if indirect.is_none() {
            continue;
        }
        let read = read_strip(alloc, reader, frame, object, strip, indirect)?;
        put_strip(&mut strips, strip, read)?;
    }
    Ok(strips)
}

// The pointers to the indirect blocks of an object of this length, in the payload of its top.
fn strips_in(
    alloc: Global,
    frame: &Frame,
    payload: &[u8],
    size: usize,
) -> Result<Vec<Pointer>, PoolError>
    requires size { length payload.now ≡ payload_size }
    ensures count { IfOk result (λ l. vec_len l ≡ pointer_count) }
    ensures pointers { IfOk result (λ l. (j : ℕ) → j < pointer_count
        → pointer_of_list l.items j ≡ pointer_in payload.now j) }
    ensures placed { IfOk result (λ l. (j : ℕ) → j < pointer_count
        → IsPlaced frame.now.blocks (pointer_of_list l.items j)) }
    ensures refused { IfErr result (λ e. (e ≡ error.NoMemory) ⊎ IsDamage e) }
    ensures sound { ((j : ℕ) → j < pointer_count → IsPointerInside frame.now.blocks size
        (strip_start j) (pointer_in payload.now j))
        → IfErr result (λ e. e ≡ error.NoMemory) }
{
    let mut pointers = Vec::with_capacity(alloc, POINTER_COUNT)?;
    for index in 0..POINTER_COUNT {
        let pointer = strip_pointer(frame, payload, index, size)?;
        pointers.push_reserved(pointer);
    }
    Ok(pointers)
}

// The pointers to the indirect blocks of an object of two levels, whose top is read.
fn read_top_strips<B: BlockReader>(
    alloc: Global,
    reader: &mut B,
    frame: &Frame,
    id: ObjectId,
    top: &Pointer,
    size: usize,
) -> Result<Vec<Pointer>, PoolError>
    requires fits { block_address frame.now.blocks ≤ B.size reader.old }
    requires number { id.0 < object_count }
    ensures reads { OnlyReads B.SectorDevice result reader.old reader.new }
    ensures count { IfOk result (λ l. vec_len l ≡ pointer_count) }
    ensures placed { IfOk result (λ l. (j : ℕ) → j < pointer_count
        → IsPlaced frame.now.blocks (pointer_of_list l.items j)) }
    ensures refused { IfErr result IsPrepareRefusal }
    ensures exact { IsTrue B.keeps_model → (pointers : Place → Pointer) (bytes : List ℕ)
        → HoldsTop (bytes_of (B.disk reader.old).now) frame.now id.0 top.now pointers bytes
        → IfOk result (λ l. (j : ℕ) → j < pointer_count
        → pointer_of_list l.items j ≡ pointers (Indirect (strip_number id.0 j))) }
    ensures sound { IsTrue B.keeps_model → (pointers : Place → Pointer) (bytes : List ℕ)
        → HoldsTop (bytes_of (B.disk reader.old).now) frame.now id.0 top.now pointers bytes
        → length bytes ≡ size → IfErr result IsPlainRefusal }
{
    let mut payload = [0; RECORD_SIZE];
    read_top(reader, frame, id.0 as usize, top, &mut payload)?;
    strips_in(alloc, frame, &payload, size)
}

// The pointers to the indirect blocks of an object of one level: that of its first strip, and none for the others.
fn one_strip(alloc: Global, indirect: Pointer) -> Result<Vec<Pointer>, PoolError>
    ensures count { IfOk result (λ l. vec_len l ≡ pointer_count) }
    ensures first { IfOk result (λ l. pointer_of_list l.items 0 ≡ indirect) }
    ensures others { IfOk result (λ l. (j : ℕ) → 0 < j
        → pointer_of_list l.items j ≡ no_pointer) }
    ensures refused { IfErr result (λ e. e ≡ error.NoMemory) }
{
    let mut indirects = vec![in alloc; Pointer::NONE; POINTER_COUNT]?;
    indirects[0] = indirect;
    Ok(indirects)
}

// The pointers to the indirect blocks of an object, by strip. Its top is read, if it has two levels.
fn read_indirects<B: BlockReader>(
    alloc: Global,
    reader: &mut B,
    frame: &Frame,
    tree: &Tree,
    object: &OldObject<'_>,
) -> Result<Vec<Pointer>, PoolError>
    requires fits { block_address frame.now.blocks ≤ B.size reader.old }
    requires number { object.now.id.0 < object_count }
    ensures reads { OnlyReads B.SectorDevice result reader.old reader.new }
    ensures count { IfOk result (λ l. vec_len l ≡ pointer_count) }
    ensures strips { IfOk result (λ l.
        AreMapStrips frame.now.blocks tree.now object.now.id.0 l.items) }
    ensures refused { IfErr result IsPrepareRefusal }
    ensures exact { IsTrue B.keeps_model → HoldsOwn (bytes_of (B.disk reader.old).now) frame.now tree.now
        → IfOk result (λ l. (j : ℕ) → j < pointer_count → pointer_of_list l.items j
        ≡ pointers_of tree.now (Indirect (strip_number object.now.id.0 j))) }
    ensures sound { IsTrue B.keeps_model → HoldsOwn (bytes_of (B.disk reader.old).now) frame.now tree.now
        → object.now.size ≡ size_in (objects_of tree.now) object.now.id.0 → IfErr result IsPlainRefusal }
{
    let entry = &tree.entries[object.id.0 as usize];
    if entry.is_long() {
        return read_top_strips(alloc, reader, frame, object.id, &entry.pointer, object.size);
    }
    one_strip(alloc, entry.pointer)
}

// The map of an object before the group. Its top is read, if it has two levels, and then the indirect blocks of the
// strips that a plan looks at, rising.
fn read_map<B: BlockReader>(
    alloc: Global,
    reader: &mut B,
    frame: &Frame,
    tree: &Tree,
    object: &OldObject<'_>,
) -> Result<ObjectMap, PoolError>
    requires fits { block_address frame.now.blocks ≤ B.size reader.old }
    requires number { object.now.id.0 < object_count }
    ensures reads { OnlyReads B.SectorDevice result reader.old reader.new }
    ensures map { IfOk result
        (IsMapBefore frame.now.blocks tree.now object.now.size object.now.id.0) }
    ensures read { IfOk result (IsReadFor object.now.is_long object.now.changes.now) }
    ensures refused { IfErr result IsPrepareRefusal }
    ensures exact { IsTrue B.keeps_model → HoldsOwn (bytes_of (B.disk reader.old).now) frame.now tree.now
        → object.now.size ≡ size_in (objects_of tree.now) object.now.id.0
        → IfOk result (ArePointersOf (pointers_of tree.now) object.now.id.0) }
    ensures sound { IsTrue B.keeps_model → HoldsOwn (bytes_of (B.disk reader.old).now) frame.now tree.now
        → object.now.size ≡ size_in (objects_of tree.now) object.now.id.0 → IfErr result IsPlainRefusal }
{
    let top = tree.entries[object.id.0 as usize].top();
    let indirects = read_indirects(alloc, reader, frame, tree, object)?;
    let strips = read_strips(alloc, reader, frame, object, &indirects)?;
    Ok(ObjectMap {
        top,
        indirects,
        strips,
    })
}

// The map of an object before the group goes to those that were read, if the tree has a place for it.
fn read_changed<B: BlockReader>(
    reader: &mut B,
    frame: &Frame,
    source: &GroupSource<'_>,
    extents: &Extents,
    maps: &mut BTreeMap<ObjectId, ObjectMap>,
    id: ObjectId,
    changes: &ObjectChanges,
) -> Result<(), PoolError>
    requires fits { block_address frame.now.blocks ≤ B.size reader.old }
    ensures reads { OnlyReads B.SectorDevice result reader.old reader.new }
    ensures read { OnOk result (id.0 < object_count
        → HasReadMap (objects_with extents.now source.now.tree.now) maps.new.entries id.0 changes.now) }
    ensures others { OnOk result ((n : ℕ) → (id.0 ≡ n → ⊥)
        → entry_of maps.new.entries n ≡ entry_of maps.old.entries n) }
    ensures maps { OnOk result
        (AreMapsOf frame.now.blocks source.now.tree.now (objects_of source.now.tree.now)
        maps.old.entries
        → AreMapsOf frame.now.blocks source.now.tree.now (objects_of source.now.tree.now)
        maps.new.entries) }
    ensures refused { IfErr result IsPrepareRefusal }
    ensures exact { IsTrue B.keeps_model → HoldsOwn (bytes_of (B.disk reader.old).now) frame.now
        source.now.tree.now
        → OnOk result (AreMapsOfObjects (pointers_of source.now.tree.now) maps.old.entries
        → AreMapsOfObjects (pointers_of source.now.tree.now) maps.new.entries) }
    ensures sound { IsTrue B.keeps_model → HoldsOwn (bytes_of (B.disk reader.old).now) frame.now
        source.now.tree.now
        → IfErr result IsPlainRefusal }
{
    if id.0 >= OBJECT_COUNT {
        return Ok(());
    }
    let object = OldObject {
        id,
        size: source.tree.length(id).unwrap_or(0) as usize,
        is_long: is_long(Laid::new(extents, source.tree).length(id)),
        changes,
    };
    let map = read_map(source.alloc, reader, frame, source.tree, &object)?;
    maps.insert(id, map)?;
    Ok(())
}

// The map before the group of each of these objects that has a place in the tree of the source, which holds the objects
// that it has. They are read for rising objects: the top of each, and the indirect blocks that a plan looks at.
//
// It is refused `NoMemory`, `Read`, or `Damaged` if a block is none of the tree. A device that keeps the model and
// holds the tree gives none that is damaged (`sound`), and the maps are those of its objects then (`exact`).
pub(crate) fn read_maps<B: BlockReader>(
    reader: &mut B,
    frame: &Frame,
    source: &GroupSource<'_>,
    extents: &Extents,
    objects: &BTreeMap<ObjectId, ObjectChanges>,
) -> Result<BTreeMap<ObjectId, ObjectMap>, PoolError>
    requires fits { block_address frame.now.blocks ≤ B.size reader.old }
    ensures reads { OnlyReads B.SectorDevice result reader.old reader.new }
    ensures read { IfOk result (λ maps. AreMapsReadFor (objects_with extents.now source.now.tree.now)
        objects.now.entries maps.entries) }
    ensures none { IfOk result (λ maps. (n : ℕ) → is_some (entry_of objects.now.entries n) ≡ false
        → is_some (entry_of maps.entries n) ≡ false) }
    ensures maps { IfOk result (λ maps. AreMapsOf frame.now.blocks source.now.tree.now
        (objects_of source.now.tree.now) maps.entries) }
    ensures refused { IfErr result IsPrepareRefusal }
    ensures exact { IsTrue B.keeps_model → HoldsOwn (bytes_of (B.disk reader.old).now) frame.now
        source.now.tree.now
        → IfOk result (λ maps. AreMapsOfObjects (pointers_of source.now.tree.now) maps.entries) }
    ensures sound { IsTrue B.keeps_model → HoldsOwn (bytes_of (B.disk reader.old).now) frame.now
        source.now.tree.now
        → IfErr result IsPlainRefusal }
{
    let mut maps = BTreeMap::new(source.alloc);
    for (id, changes) in objects.iter() {
        read_changed(reader, frame, source, extents, &mut maps, *id, changes)?;
    }
    Ok(maps)
}
