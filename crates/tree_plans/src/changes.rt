//! What the operations of a group do to the records of each object, in their order.
//!
//! - A write makes each record dirty that it has a byte of.
//! - A new length below the old one is a cut: the record that it goes into is dirty, and those wholly past it are
//!   holes.
//! - A created or removed object has holes alone.
//! - A later write or cut may make a hole dirty again.
//!
//! OpenZFS does the same in `dbuf_dirty` and `dnode_free_range`.

ghost use Rattle.std.specs.Prelude.{◌≡◌, ◌≢◌, ◌<◌, ◌≤◌, ◌+◌, ◌*◌, ◌↔◌, ◌++◌, ◌∷◌, [], ℕ, List, unwrap_or, IfErr, IfOk, OnOk};
ghost use Rattle.base.specs.declared.error.PoolError.TheVariants as error;
ghost use Rattle.base.specs.declared.operation.Op.{Op};
ghost use Rattle.base.specs.formats.Limits.{max_length, pointer_count, record_count, record_size};
ghost use Rattle.tree_blocks.specs.Lengths.{length_in};
ghost use Rattle.tree_plans.specs.Changes.{is_changed_in, state_at, state_in};
ghost use Rattle.tree_plans.specs.Marks.{AreChangesOf, AreToldSoFar, NotesOp, length_so_far, pending_ops};
ghost use Rattle.tree_plans.specs.Pointers.{IsPut, entry_of};

use base::{Group, ObjectId, Op, POINTER_COUNT, PoolError, RECORD_SIZE, RecordState};
use records::Record;
use std::alloc::Global;
use std::collections::{BTreeMap, BTreeSet};
use tree_blocks::{ObjectEntry, RECORD_COUNT};

/// What the operations of a group do to an object.
#[derive(Drop)]
pub struct ObjectChanges {
    // The records that the sync writes, by their numbers.
    dirty: BTreeSet<usize>,
    // From this record on all others are holes.
    first_hole: Option<usize>,
    /// Whether an operation writes it or sets its length.
    pub is_changed: bool,
    // Its length after them in bytes, 0 if it is absent.
    length: u64,
}

impl ObjectChanges {
    ghost use Rattle.std.specs.Prelude.{◌≡◌, ◌<◌, ◌≤◌, ◌+◌, ℕ, max, nat_lt, true, false, if◌then◌else◌};
    ghost use Rattle.base.specs.declared.record_state.RecordState.TheVariants as state;
    ghost use Rattle.base.specs.tree.Syncs.{is_record_touched, state_after_cut};
    ghost use Rattle.tree_plans.specs.Changes.{is_strip_dirty, is_strip_touched, state_at};

    /// No operation yet, on an object of this length in bytes. It takes no memory.
    pub fn none(alloc: Global, length: u64) -> Self
        ensures records { (r : ℕ) → state_at result r ≡ state.Unchanged }
        ensures changed { result.is_changed ≡ false }
        ensures length { result.length ≡ length }
    {
        ObjectChanges {
            dirty: BTreeSet::new(alloc),
            first_hole: None,
            is_changed: false,
            length,
        }
    }

    /// What the sync does with a record of the object.
    pub fn state(&self, index: usize) -> RecordState
        ensures { result ≡ state_at self.now index }
    {
        if self.dirty.contains(&index) {
            return RecordState::Dirty;
        }
        match self.first_hole {
            Some(first) if first <= index => RecordState::Hole,
            _ => RecordState::Unchanged,
        }
    }

    /// Whether the operations left a record of the strip of this index otherwise than it was.
    pub fn touches_strip(&self, index: usize) -> bool
        requires { index < pointer_count }
        ensures { result ≡ is_strip_touched self.now index }
    {
        let end = POINTER_COUNT * (index + 1);
        match self.first_hole {
            Some(first) if first < end => true,
            _ => self.writes_strip(index),
        }
    }

    /// Whether the sync writes a record of the strip of this index.
    pub fn writes_strip(&self, index: usize) -> bool
        requires { index < pointer_count }
        ensures { result ≡ is_strip_dirty self.now index }
    {
        let first = POINTER_COUNT * index;
        self.dirty
            .range(first..first + POINTER_COUNT)
            .next()
            .is_some()
    }

    /// The strips from this index on have no record that the sync writes. It is at most 84.
    pub fn written_end(&self) -> usize
        ensures low { result ≤ pointer_count }
        ensures past { (j : ℕ) → result ≤ j → j < pointer_count
            → is_strip_dirty self.now j ≡ false }
    {
        match self.dirty.last() {
            Some(last) => POINTER_COUNT.min(*last / POINTER_COUNT + 1),
            None => 0,
        }
    }

    /// The object is created or removed. It takes no memory.
    pub fn clear(&mut self)
        ensures records { (r : ℕ) → r < record_count → state_at self.new r ≡ state.Hole }
        ensures changed { self.new.is_changed ≡ self.old.is_changed }
        ensures length { self.new.length ≡ 0 }
    {
        self.drop_from(0);
        self.length = 0;
    }

    /// So many bytes are written at an offset.
    ///
    /// # Errors
    /// `NoMemory`.
    pub fn write(&mut self, offset: u64, count: usize) -> Result<(), PoolError>
        ensures records { OnOk result ((r : ℕ) → r < record_count → state_at self.new r
            ≡ (if is_record_touched r offset count then state.Dirty else state_at self.old r)) }
        ensures changed { OnOk result (self.new.is_changed ≡ true) }
        ensures length { OnOk result (offset + count ≤ max_length
            → self.new.length ≡ max self.old.length (offset + count)) }
        ensures refused { IfErr result (λ e. e ≡ error.NoMemory) }
    {
        self.mark(offset, count)?;
        self.is_changed = true;
        self.length = self.length.max(offset.saturating_add(count as u64));
        Ok(())
    }

    /// The object gets this length in bytes.
    ///
    /// # Errors
    /// `NoMemory`.
    pub fn set_length(&mut self, length: u64) -> Result<(), PoolError>
        ensures records { OnOk result ((r : ℕ) → r < record_count → state_at self.new r
            ≡ (if nat_lt length self.old.length
            then state_after_cut r length (state_at self.old r) else state_at self.old r)) }
        ensures changed { OnOk result (self.new.is_changed ≡ true) }
        ensures length { OnOk result (self.new.length ≡ length) }
        ensures refused { IfErr result (λ e. e ≡ error.NoMemory) }
    {
        if length < self.length {
            self.cut(length)?;
        }
        self.is_changed = true;
        self.length = length;
        Ok(())
    }

    // Each record that has a byte of a write is dirty.
    fn mark(&mut self, offset: u64, count: usize) -> Result<(), PoolError>
        ensures records { OnOk result ((r : ℕ) → r < record_count → state_at self.new r
            ≡ (if is_record_touched r offset count then state.Dirty else state_at self.old r)) }
        ensures length { self.new.length ≡ self.old.length }
        ensures refused { IfErr result (λ e. e ≡ error.NoMemory) }
    {
        let first = first_touched(offset);
        let end = touched_end(offset, count);
        for index in first..end {
            self.dirty.insert(index)?;
        }
        Ok(())
    }

    // Each record past a cut is a hole, and the one that it goes into is dirty.
    fn cut(&mut self, length: u64) -> Result<(), PoolError>
        ensures records { OnOk result ((r : ℕ) → r < record_count
            → state_at self.new r ≡ state_after_cut r length (state_at self.old r)) }
        ensures refused { IfErr result (λ e. e ≡ error.NoMemory) }
    {
        let whole = length as usize / RECORD_SIZE;
        self.drop_from(whole);
        if length as usize % RECORD_SIZE != 0 {
            self.dirty.insert(whole)?;
        }
        Ok(())
    }

    // All records from this one on are holes.
    fn drop_from(&mut self, index: usize)
        ensures records { (r : ℕ) → state_at self.new r
            ≡ (if nat_lt r index then state_at self.old r else state.Hole) }
        ensures changed { self.new.is_changed ≡ self.old.is_changed }
        ensures length { self.new.length ≡ self.old.length }
    {
        self.dirty.retain(|record| *record < index);
        self.first_hole = match self.first_hole {
            Some(first) => Some(first.min(index)),
            None => Some(index),
        };
    }
}

// Where the last record of an object ends.
const END_OF_RECORDS: u64 = (RECORD_SIZE * RECORD_COUNT) as u64;

// The first record that has a byte from an offset on, and the one after the last that has a byte of a write: at most
// that after an object's last record.
#[tactic(auto, unfolding(base::specs::formats::Limits::record_count))]
fn first_touched(offset: u64) -> usize
    ensures { (r : ℕ) → r < record_count → (result ≤ r) ↔ (offset < record_size * (r + 1)) }
{
    offset.min(END_OF_RECORDS) as usize / RECORD_SIZE
}

#[tactic(auto, unfolding(base::specs::formats::Limits::record_count))]
fn touched_end(offset: u64, count: usize) -> usize
    ensures { (r : ℕ) → r < record_count → (r < result) ↔ (record_size * r < offset + count) }
{
    let end = offset.saturating_add(count as u64).min(END_OF_RECORDS);
    (end as usize).div_ceil(RECORD_SIZE)
}

/// The objects that a group's operations are on, rising, with what they do to each.
///
/// `maps` are those of the tree before the group, with the length of each object there: a set length is a cut if it is
/// below the length that the object has by then.
///
/// # Errors
/// `NoMemory`.
pub fn changed_objects(
    alloc: Global,
    maps: &[ObjectEntry],
    pending: &[Record],
    group: Group,
) -> Result<BTreeMap<ObjectId, ObjectChanges>, PoolError>
    ensures changes { IfOk result (λ objects.
        AreChangesOf (pending_ops group.0 pending.now) maps.now objects.entries) }
    ensures refused { IfErr result (λ e. e ≡ error.NoMemory) }
{
    let mut objects = BTreeMap::new(alloc);
    for committed in pending {
        note_committed(alloc, &mut objects, maps, committed, group)?;
    }
    Ok(objects)
}

fn note_committed(
    alloc: Global,
    objects: &mut BTreeMap<ObjectId, ObjectChanges>,
    maps: &[ObjectEntry],
    committed: &Record,
    group: Group,
) -> Result<(), PoolError>
    ensures told { OnOk result ((done : List Op)
        → AreToldSoFar done maps.now objects.old.entries
        → AreToldSoFar (done ++ pending_ops group.0 (committed.now ∷ [])) maps.now objects.new.entries) }
    ensures refused { IfErr result (λ e. e ≡ error.NoMemory) }
{
    if committed.group != group {
        return Ok(());
    }
    note_ops(alloc, objects, maps, committed.ops.as_slice())?;
    Ok(())
}

fn note_ops(
    alloc: Global,
    objects: &mut BTreeMap<ObjectId, ObjectChanges>,
    maps: &[ObjectEntry],
    ops: &[Op],
) -> Result<(), PoolError>
    ensures told { OnOk result ((done : List Op)
        → AreToldSoFar done maps.now objects.old.entries
        → AreToldSoFar (done ++ ops.now) maps.now objects.new.entries) }
    ensures refused { IfErr result (λ e. e ≡ error.NoMemory) }
{
    for op in ops {
        note_op(alloc, objects, maps, op)?;
    }
    Ok(())
}

fn note_op(
    alloc: Global,
    objects: &mut BTreeMap<ObjectId, ObjectChanges>,
    maps: &[ObjectEntry],
    op: &Op,
) -> Result<(), PoolError>
    ensures noted { OnOk result
        (NotesOp op.now maps.now objects.old.entries objects.new.entries) }
    ensures refused { IfErr result (λ e. e ≡ error.NoMemory) }
{
    match op {
        Op::Create(id) | Op::Remove(id) => {
            let mut changes = take_changes(alloc, objects, maps, *id);
            changes.clear();
            put_changes(objects, *id, changes)
        }
        Op::Write(id, offset, bytes) => {
            let mut changes = take_changes(alloc, objects, maps, *id);
            changes.write(*offset, bytes.len())?;
            put_changes(objects, *id, changes)
        }
        Op::SetLength(id, length) => {
            let mut changes = take_changes(alloc, objects, maps, *id);
            changes.set_length(*length)?;
            put_changes(objects, *id, changes)
        }
        Op::SetName(_) => Ok(()),
    }
}

// Takes out what was done to an object so far.
fn take_changes(
    alloc: Global,
    objects: &mut BTreeMap<ObjectId, ObjectChanges>,
    maps: &[ObjectEntry],
    id: ObjectId,
) -> ObjectChanges
    ensures records { (r : ℕ) → state_at result r ≡ state_in objects.old.entries id.0 r }
    ensures changed { result.is_changed ≡ is_changed_in objects.old.entries id.0 }
    ensures length { result.length ≡ length_so_far maps.now objects.old.entries id.0 }
    ensures others { (n : ℕ) → n ≢ id.0
        → entry_of objects.new.entries n ≡ entry_of objects.old.entries n }
{
    match objects.remove(&id) {
        Some(changes) => changes,
        None => ObjectChanges::none(alloc, length_before(maps, id)),
    }
}

// The length of an object before the group, 0 if it is absent.
fn length_before(maps: &[ObjectEntry], id: ObjectId) -> u64
    ensures { result ≡ unwrap_or (length_in maps.now id.0) 0 }
{
    maps.get(id.0 as usize)
        .and_then(|map| map.length)
        .unwrap_or(0)
}

fn put_changes(
    objects: &mut BTreeMap<ObjectId, ObjectChanges>,
    id: ObjectId,
    changes: ObjectChanges,
) -> Result<(), PoolError>
    ensures put { OnOk result (IsPut objects.old.entries id changes objects.new.entries) }
    ensures refused { IfErr result (λ e. e ≡ error.NoMemory) }
{
    objects.insert(id, changes)?;
    Ok(())
}
