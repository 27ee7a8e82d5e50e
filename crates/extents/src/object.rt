//! What a group made of one object.

ghost use Rattle.std.specs.Prelude.{ℕ, ◌≡◌, ◌<◌, ◌≤◌, ◌+◌, ◌*◌, ◌↔◌, None, false, true, cond, get_or, nat_lt, slice_get, IfSome, IsTrue, OnOk, length};
ghost use Rattle.base.specs.formats.Limits.{max_length, record_count, record_size};
ghost use Rattle.extents.specs.Patches.{IsSized, IsSized-prop, least_length};
ghost use Rattle.extents.specs.Records.{patch_with};

use crate::basis::Basis;
use crate::record::RecordPatch;
use base::RECORD_SIZE;
use indexmap::IndexMap;
use std::alloc::{AllocError, Global};
use std::cmp::Ordering;

/// What a group leaves of an object, and the bytes that it wrote, by records.
#[derive(Drop)]
pub struct ObjectPatch {
    /// What it leaves of the object below.
    pub basis: Basis,
    // The records that it may have written, by their numbers in the object.
    pub(crate) records: IndexMap<usize, RecordPatch>,
    ghost sized: { IsSized (patch_with basis records.entries) } by { IsSized-prop _ },
    ghost within: { least_length basis ≤ max_length },
}

impl ObjectPatch {
    ghost use Rattle.extents.specs.Patches.{basis_after_cut, basis_after_write, is_shown, written_after, written_below};
    ghost use Rattle.extents.specs.declared.basis.Basis.TheVariants.{Gone, Grown, Made};
    ghost use Rattle.extents.specs.Objects.{HasRoomAt, HasRoomFrom, HidesBelow, KeepsRoom, LaysOn, LaysOver, left_at_record, numbers_of, patch_of, written_at_record, written_in};

    /// An object that the group has not changed. It takes no memory.
    pub fn new(alloc: Global) -> Self
        ensures basis { result.basis ≡ Grown 0 }
        ensures written { (i : ℕ) → written_in result i ≡ None }
    {
        ObjectPatch {
            basis: Basis::Grown(0),
            records: IndexMap::new(alloc),
        }
    }

    // Takes the room for the bytes of a record.
    fn reserve_record(&mut self, index: usize) -> Result<(), AllocError>
        ensures room { OnOk result (HasRoomAt self.new index) }
        ensures stays { KeepsRoom self.old self.new }
        ensures basis { self.new.basis ≡ self.old.basis }
        ensures written { (i : ℕ) → written_in self.new i ≡ written_in self.old i }
    {
        if self.records.contains_key(&index) {
            return Ok(());
        }
        self.records.reserve(1)?;
        let record = RecordPatch::new(*self.records.allocator())?;
        self.records.insert(index, record).unwrap();
        Ok(())
    }

    /// Takes the room for a write of so many bytes at an offset. It is refused if no memory is left.
    pub fn reserve_write(&mut self, offset: usize, count: usize) -> Result<(), AllocError>
        requires some { 0 < count }
        requires within { offset + count ≤ max_length }
        ensures room { OnOk result (HasRoomFrom self.new offset count) }
        ensures stays { KeepsRoom self.old self.new }
        ensures basis { self.new.basis ≡ self.old.basis }
        ensures written { (i : ℕ) → written_in self.new i ≡ written_in self.old i }
    {
        for index in offset / RECORD_SIZE..(offset + count - 1) / RECORD_SIZE + 1 {
            self.reserve_record(index)?;
        }
        Ok(())
    }

    /// Writes bytes at an offset. The room is there.
    pub fn write(&mut self, offset: usize, content: &[u8])
        requires some { 0 < length content.now }
        requires within { offset + length content.now ≤ max_length }
        requires room { HasRoomFrom self.old offset (length content.now) }
        ensures stays { KeepsRoom self.old self.new }
        ensures basis { self.new.basis
            ≡ basis_after_write (offset + length content.now) self.old.basis }
        ensures written { (i : ℕ) → written_in self.new i
            ≡ written_after offset content.now (written_in self.old) i }
    {
        self.basis = self.basis.after_write((offset + content.len()) as u64);
        self.write_records(offset, content);
    }

    fn write_records(&mut self, offset: usize, content: &[u8])
        requires some { 0 < length content.now }
        requires within { offset + length content.now ≤ max_length }
        requires room { HasRoomFrom self.old offset (length content.now) }
        requires reached { basis_after_write (offset + length content.now) self.old.basis
            ≡ self.old.basis }
        ensures stays { KeepsRoom self.old self.new }
        ensures basis { self.new.basis ≡ self.old.basis }
        ensures written { (i : ℕ) → written_in self.new i
            ≡ written_after offset content.now (written_in self.old) i }
    {
        let end = offset + content.len();
        for index in offset / RECORD_SIZE..(end - 1) / RECORD_SIZE + 1 {
            self.write_record(index, offset, content);
        }
    }

    // Writes what lies in one record of bytes that begin at an offset of the object.
    fn write_record(&mut self, index: usize, offset: usize, content: &[u8])
        requires room { HasRoomAt self.old index }
        requires begun { offset < record_size * (index + 1) }
        requires ended { record_size * index < offset + length content.now }
        requires within { offset + length content.now ≤ max_length }
        requires reached { basis_after_write (offset + length content.now) self.old.basis
            ≡ self.old.basis }
        ensures stays { KeepsRoom self.old self.new }
        ensures basis { self.new.basis ≡ self.old.basis }
        ensures written { (i : ℕ) → written_in self.new i
            ≡ written_at_record index offset content.now (written_in self.old) i }
    {
        let begin = RECORD_SIZE * index;
        let low = offset.max(begin);
        let high = (offset + content.len()).min(begin + RECORD_SIZE);
        if let Some(record) = self.records.get_mut(&index) {
            record.write(low - begin, &content[low - offset..high - offset]);
        }
    }

    /// The object has no bytes but zeros up to its length: what was written is forgotten, and what lies below doesn't
    /// show.
    pub fn create(&mut self)
        ensures stays { KeepsRoom self.old self.new }
        ensures basis { self.new.basis ≡ Made 0 }
        ensures written { (i : ℕ) → written_in self.new i ≡ None }
    {
        self.forget_from(0);
        self.basis = Basis::Made(0);
    }

    /// The object is not there.
    pub fn remove(&mut self)
        ensures stays { KeepsRoom self.old self.new }
        ensures basis { self.new.basis ≡ Gone }
        ensures written { (i : ℕ) → written_in self.new i ≡ None }
    {
        self.forget_from(0);
        self.basis = Basis::Gone;
    }

    /// Sets the length of the object in bytes: what was written from there on is forgotten.
    pub fn set_length(&mut self, length: usize)
        requires { length ≤ max_length }
        ensures stays { KeepsRoom self.old self.new }
        ensures basis { self.new.basis ≡ basis_after_cut length self.old.basis }
        ensures written { (i : ℕ) → written_in self.new i
            ≡ written_below length (written_in self.old) i }
    {
        self.forget_from(length);
        self.basis = self.basis.after_cut(length as u64);
    }

    // Forgets what was written from an offset on. The room stays.
    fn forget_from(&mut self, offset: usize)
        ensures stays { KeepsRoom self.old self.new }
        ensures basis { self.new.basis ≡ self.old.basis }
        ensures written { (i : ℕ) → written_in self.new i
            ≡ written_below offset (written_in self.old) i }
    {
        for place in 0..self.records.len() {
            self.forget_at(place, offset);
        }
    }

    // Forgets what was written into the record at a place of the table from an offset of the object on. A record in
    // which nothing is written there costs no look-up.
    fn forget_at(&mut self, place: usize, offset: usize)
        ensures numbers { numbers_of self.new ≡ numbers_of self.old }
        ensures stays { KeepsRoom self.old self.new }
        ensures basis { self.new.basis ≡ self.old.basis }
        ensures written { IfSome (slice_get (numbers_of self.old) place) (λ index. (i : ℕ)
            → written_in self.new i ≡ left_at_record index offset (written_in self.old) i) }
    {
        if let Some((index, record)) = self.records.get_index(place) {
            let index = *index;
            if !record.ends_by(start_in_record(index, offset)) {
                self.forget_in_record(index, offset);
            }
        }
    }

    // Forgets what was written into one record from an offset of the object on.
    fn forget_in_record(&mut self, index: usize, offset: usize)
        ensures numbers { numbers_of self.new ≡ numbers_of self.old }
        ensures stays { KeepsRoom self.old self.new }
        ensures basis { self.new.basis ≡ self.old.basis }
        ensures written { (i : ℕ) → written_in self.new i
            ≡ left_at_record index offset (written_in self.old) i }
    {
        if let Some(record) = self.records.get_mut(&index) {
            record.clear_from(start_in_record(index, offset));
        }
    }

    /// Makes of bytes of a record of the object below, from the offset `start` in it on and with zeros after that
    /// object's end, those of this object. `below` is the length of the object below in bytes, `None` if there is no
    /// such object; its bytes are zeros then.
    pub fn lay_over(&self, index: usize, start: usize, below: Option<u64>, into: &mut [u8])
        requires index { index < record_count }
        requires within { start + length into.old ≤ record_size }
        ensures size { length into.new ≡ length into.old }
        ensures bytes { LaysOver (patch_of self.now) (record_size * index + start) below
            into.old into.new }
    {
        if self.basis.length_over(below).is_none() {
            into.fill(0);
            return;
        }
        self.lay_on(index, start, into);
    }

    /// As `lay_over`, of an object that is there. Of bytes that the group hides anything may be in `into`.
    pub(crate) fn lay_on(&self, index: usize, start: usize, into: &mut [u8])
        requires index { index < record_count }
        requires within { start + length into.old ≤ record_size }
        ensures size { length into.new ≡ length into.old }
        ensures bytes { LaysOn (patch_of self.now) (record_size * index + start) into.old into.new }
    {
        let shown = self.basis.shown_in(index).saturating_sub(start);
        clear_from(into, shown.min(into.len()));
        if let Some(record) = self.records.get(&index) {
            record.lay_over(start, into);
        }
    }

    /// Whether none of so many bytes of a record of the object below is seen, from the offset `start` in it on: each
    /// was written by the group, or is not left by it.
    pub(crate) fn hides(&self, index: usize, start: usize, count: usize) -> bool
        requires index { index < record_count }
        requires within { start + count ≤ record_size }
        ensures hidden { IsTrue result
            ↔ HidesBelow (patch_of self.now) (record_size * index + start) count }
        ensures shown { result ≡ false
            → is_shown self.now.basis (record_size * index + start) ≡ true }
    {
        let shown = self.basis.shown_in(index).saturating_sub(start);
        let count = shown.min(count);
        match self.records.get(&index) {
            Some(record) => record.covers(start, count),
            None => count == 0,
        }
    }
}

// The offset in a record from which on its bytes lie at or after an offset of the object.
fn start_in_record(index: usize, offset: usize) -> usize
    ensures { (k : ℕ) → k < record_size
        → nat_lt k result ≡ nat_lt (record_size * index + k) offset }
{
    match index.cmp(&(offset / RECORD_SIZE)) {
        Ordering::Less => RECORD_SIZE,
        Ordering::Equal => offset % RECORD_SIZE,
        Ordering::Greater => 0,
    }
}

fn clear_from(bytes: &mut [u8], offset: usize)
    requires { offset ≤ length bytes.old }
    ensures size { length bytes.new ≡ length bytes.old }
    ensures bytes { (k : ℕ) → k < length bytes.old
        → get_or bytes.new k 0 ≡ cond (nat_lt k offset) (get_or bytes.old k 0) 0 }
{
    bytes[offset..].fill(0);
}
