//! The forms of what the blocks of a tree hold (On-Disk Specification, chapter 2): pointers, and entries of objects
//! by the version of the tree's rules.

ghost use Rattle.std.specs.Prelude.{◌≡◌, ℕ, ◌<◌, ◌↔◌, IsTrue, length};
ghost use Rattle.base.specs.formats.Limits.{indirect_count, entry_count, payload_size, pointer_count};
ghost use Rattle.base.specs.formats.Fields.{pointer_in, entry_in, entry_present, entry_length, entry_pointer};
ghost use Rattle.base.specs.tree.Damages.{IsPointerForm, IsEntryForm, IsOneLevelForm, IsTwoLevelForm, IsRecordPointerForm};
ghost use Rattle.tree_blocks.specs.Pointers.{pointer_of_list};
ghost use Rattle.tree_blocks.specs.Forms.{AreRecordForms, AreStripForms};

use crate::strips::record_number;
use base::{
    ENTRY_COUNT, ENTRY_SIZE, MAX_LENGTH, ONE_LEVEL_LENGTH, POINTER_COUNT, POINTER_SIZE, Pointer,
    RECORD_SIZE, Version, read_pointer, read_u64,
};
use checked_blocks::Frame;

// Whether a pointer names a block or is all zeros.
fn has_form(pointer: &Pointer) -> bool
    ensures { IsTrue result ↔ IsPointerForm pointer.now }
{
    pointer.address != 0 || pointer.is_none()
}

/// The pointer of this index in a payload.
pub fn pointer_in(payload: &[u8], index: usize) -> Pointer
    requires size { length payload.now ≡ payload_size }
    requires in_range { index < pointer_count }
    ensures { result ≡ pointer_in payload.now index }
{
    read_pointer(payload, POINTER_SIZE * index)
}

/// Whether each pointer of a payload names a block or is all zeros.
pub fn have_form(payload: &[u8]) -> bool
    requires { length payload.now ≡ payload_size }
    ensures { IsTrue result ↔ ((d : ℕ) → d < pointer_count
        → IsPointerForm (pointer_in payload.now d)) }
{
    for index in 0..POINTER_COUNT {
        if !has_form(&pointer_in(payload, index)) {
            return false;
        }
    }
    true
}

/// Writes the pointers of a payload into these.
pub fn read_pointers(payload: &[u8], pointers: &mut [Pointer])
    requires payload { length payload.now ≡ payload_size }
    requires pointers { length pointers.old ≡ pointer_count }
    ensures { (k : ℕ) → k < pointer_count
        → pointer_of_list pointers.new k ≡ pointer_in payload.now k }
{
    for index in 0..POINTER_COUNT {
        pointers[index] = pointer_in(payload, index);
    }
}

/// An entry of a directory.
#[derive(Clone, Copy)]
pub struct Entry {
    /// The levels of indirect blocks of its object, 0 if the object is not there.
    pub present: u64,
    /// The length of the object in bytes.
    pub length: u64,
    /// The pointer to the object's top if it has two levels, or else to its one indirect block.
    pub pointer: Pointer,
}

/// The entry of this index of a directory's payload.
pub fn read_entry(payload: &[u8], index: usize) -> Entry
    requires size { length payload.now ≡ payload_size }
    requires in_range { index < entry_count }
    ensures present { result.present ≡ entry_present (entry_in payload.now index) }
    ensures length { result.length ≡ entry_length (entry_in payload.now index) }
    ensures pointer { result.pointer ≡ entry_pointer (entry_in payload.now index) }
{
    let at = ENTRY_SIZE * index;
    Entry {
        present: read_u64(payload, at),
        length: read_u64(payload, at + 8),
        pointer: read_pointer(payload, at + 16),
    }
}

// Whether an entry of one level of indirect blocks is absent and all zeros, or present with a length and a pointer
// within their limits.
fn is_short_entry(payload: &[u8], index: usize) -> bool
    requires size { length payload.now ≡ payload_size }
    requires in_range { index < entry_count }
    ensures { IsTrue result ↔ IsOneLevelForm (entry_in payload.now index) }
{
    let entry = read_entry(payload, index);
    match entry.present {
        0 => entry.length == 0 && entry.pointer.is_none(),
        1 => entry.length <= ONE_LEVEL_LENGTH && has_form(&entry.pointer),
        _ => false,
    }
}

// Whether an entry says that its object has two levels, with a length that needs them and a pointer.
fn is_long_entry(payload: &[u8], index: usize) -> bool
    requires size { length payload.now ≡ payload_size }
    requires in_range { index < entry_count }
    ensures { IsTrue result ↔ IsTwoLevelForm (entry_in payload.now index) }
{
    let entry = read_entry(payload, index);
    if entry.present != 2 || entry.length > MAX_LENGTH {
        return false;
    }
    if entry.length <= ONE_LEVEL_LENGTH {
        return false;
    }
    has_form(&entry.pointer)
}

// Whether an entry has its form in the version that the frame has.
fn has_entry_form(frame: &Frame, payload: &[u8], index: usize) -> bool
    requires size { length payload.now ≡ payload_size }
    requires in_range { index < entry_count }
    ensures { IsTrue result ↔ IsEntryForm frame.now (entry_in payload.now index) }
{
    match frame.version() {
        Version::One => is_short_entry(payload, index),
        Version::Two => is_short_entry(payload, index) || is_long_entry(payload, index),
    }
}

/// Whether each entry of a directory's payload has its form in the version that the frame has.
pub fn are_entries(frame: &Frame, payload: &[u8]) -> bool
    requires { length payload.now ≡ payload_size }
    ensures { IsTrue result ↔
        ((k : ℕ) → k < entry_count → IsEntryForm frame.now (entry_in payload.now k)) }
{
    for index in 0..ENTRY_COUNT {
        if !has_entry_form(frame, payload, index) {
            return false;
        }
    }
    true
}

// Whether a pointer to what begins at an offset of an object of this length names a block or is all zeros, and from the
// end of the object on is all zeros.
fn is_record_pointer(pointer: &Pointer, start: usize, size: usize) -> bool
    ensures { IsTrue result ↔ IsRecordPointerForm size start pointer.now }
{
    has_form(pointer) && (start < size || pointer.is_none())
}

/// Whether the pointers in an indirect block are those to the records of its strip, in an object of this length.
pub fn are_records(payload: &[u8], number: usize, size: usize) -> bool
    requires payload { length payload.now ≡ payload_size }
    requires number { number < indirect_count }
    ensures { IsTrue result ↔ AreRecordForms number size payload.now }
{
    for index in 0..POINTER_COUNT {
        let pointer = pointer_in(payload, index);
        if !is_record_pointer(&pointer, RECORD_SIZE * record_number(number, index), size) {
            return false;
        }
    }
    true
}

/// Whether the pointers in a top are those to the strips of an object of this length.
pub fn are_strips(payload: &[u8], size: usize) -> bool
    requires { length payload.now ≡ payload_size }
    ensures { IsTrue result ↔ AreStripForms size payload.now }
{
    for index in 0..POINTER_COUNT {
        let pointer = pointer_in(payload, index);
        if !is_record_pointer(&pointer, RECORD_SIZE * (POINTER_COUNT * index), size) {
            return false;
        }
    }
    true
}
