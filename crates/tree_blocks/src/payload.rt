//! The payloads of a tree's blocks as they are written (On-Disk Specification, chapter 2). `forms.rt` reads them.

ghost use Rattle.std.specs.Prelude.{◌≡◌, ◌≢◌, ◌<◌, ℕ, length, replicate, slice_index_or};
ghost use Rattle.base.specs.formats.Fields.{entry_in, entry_length, entry_pointer, entry_present, no_pointer, pointer_in};
ghost use Rattle.base.specs.formats.Limits.{entry_count, entry_size, payload_size, pointer_count};
ghost use Rattle.checked_blocks.specs.Sealing.{zeros};
ghost use Rattle.tree_blocks.specs.Entries.{IsEntryOfLength, levels_of};

use crate::tree::is_long;
use base::{ENTRY_SIZE, POINTER_SIZE, Pointer, write_pointer, write_u64};
use checked_blocks::PAYLOAD_SIZE;

/// A payload of pointers.
pub fn pointer_payload(pointers: &[Pointer]) -> [u8; PAYLOAD_SIZE]
    requires { length pointers.now ≡ pointer_count }
    ensures size { length result ≡ payload_size }
    ensures pointers { (r : ℕ) → r < pointer_count
        → pointer_in result r ≡ slice_index_or pointers.now r no_pointer }
{
    let mut payload = [0; PAYLOAD_SIZE];
    for (index, pointer) in pointers.iter().enumerate() {
        put_pointer(&mut payload, index, *pointer);
    }
    payload
}

// Writes the pointer of this number.
fn put_pointer(payload: &mut [u8], index: usize, pointer: Pointer)
    requires size { length payload.old ≡ payload_size }
    requires index { index < pointer_count }
    ensures size { length payload.new ≡ payload_size }
    ensures here { pointer_in payload.new index ≡ pointer }
    ensures others { (r : ℕ) → r ≢ index → pointer_in payload.new r ≡ pointer_in payload.old r }
{
    write_pointer(payload, POINTER_SIZE * index, &pointer);
}

/// A payload of zeros.
pub fn empty_payload() -> [u8; PAYLOAD_SIZE]
    ensures { result ≡ zeros payload_size }
{
    [0; PAYLOAD_SIZE]
}

/// Writes the entry of an object, if it is there. The entry is zeros before.
pub fn put_entry(payload: &mut [u8], index: usize, size: Option<u64>, pointer: Pointer)
    requires size { length payload.old ≡ payload_size }
    requires in_range { index < entry_count }
    requires empty { entry_in payload.old index ≡ replicate entry_size 0 }
    ensures size { length payload.new ≡ payload_size }
    ensures here { IsEntryOfLength (entry_in payload.new index) pointer size }
    ensures others { (k : ℕ) → k < entry_count → k ≢ index
        → entry_in payload.new k ≡ entry_in payload.old k }
{
    if let Some(size) = size {
        write_entry(payload, index, levels_of(size), size, pointer);
    }
}

// The levels of indirect blocks of an object of this length.
fn levels_of(size: u64) -> u64
    ensures { result ≡ levels_of size }
{
    if is_long(Some(size)) { 2 } else { 1 }
}

// Writes the entry of an object that is there: its levels, its length, and the pointer to its top or to its indirect
// block.
fn write_entry(payload: &mut [u8], index: usize, levels: u64, size: u64, pointer: Pointer)
    requires size { length payload.old ≡ payload_size }
    requires in_range { index < entry_count }
    ensures size { length payload.new ≡ payload_size }
    ensures present { entry_present (entry_in payload.new index) ≡ levels }
    ensures length { entry_length (entry_in payload.new index) ≡ size }
    ensures pointer { entry_pointer (entry_in payload.new index) ≡ pointer }
    ensures others { (k : ℕ) → k < entry_count → k ≢ index
        → entry_in payload.new k ≡ entry_in payload.old k }
{
    let at = ENTRY_SIZE * index;
    write_u64(payload, at, levels);
    write_u64(payload, at + 8, size);
    write_pointer(payload, at + 16, &pointer);
}
