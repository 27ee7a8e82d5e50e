//! What a group wrote into one record of an object.
//!
//! A patch takes the room for a whole record when it is made, so a write takes no memory. Its bytes and marks are
//! laid out up to the last byte that was written and no further: a short write costs no zeros for the rest of the
//! record, and a record that was cleared costs nothing to clear again.

ghost use Rattle.std.specs.Prelude.{ℕ, ◌≡◌, ◌<◌, ◌≤◌, ◌+◌, ◌↔◌, true, false, All, None, IfOk, IsTrue, get_or, is_some, length, max, replicate, unwrap_or, vec_capacity, vec_len};
ghost use Rattle.base.specs.disk.Disk.{put};
ghost use Rattle.base.specs.formats.Limits.{record_size};
ghost use Rattle.extents.specs.Marks.{is_mark, laid_byte, with_zeros};

use base::{RECORD_SIZE, are_all};
use std::alloc::{AllocError, Global};

// What marks a byte that was written. Others are marked by 0.
const WRITTEN: u8 = 255;

/// The bytes that a group wrote into a record, by their offsets in it. It has room for all of a record's bytes.
#[derive(Drop)]
pub(crate) struct RecordPatch {
    bytes: Vec<u8>,
    // 255 at each byte that was written
    mask: Vec<u8>,
    ghost all_marked: { vec_len bytes ≡ vec_len mask },
    ghost byte_room: { record_size ≤ vec_capacity bytes },
    ghost mark_room: { record_size ≤ vec_capacity mask },
    ghost marked: { All (λ m. is_mark m ≡ true) mask.items },
}

impl RecordPatch {
    ghost use Rattle.extents.specs.Patches.{written_after, written_below};
    ghost use Rattle.extents.specs.Records.{bytes_written};

    /// A record without a written byte.
    ///
    /// # Errors
    /// If no memory is left.
    pub fn new(alloc: Global) -> Result<Self, AllocError>
        ensures { IfOk result (λ patch. (k : ℕ) → bytes_written patch k ≡ None) }
    {
        let bytes = Vec::with_capacity(alloc, RECORD_SIZE)?;
        let mask = Vec::with_capacity(alloc, RECORD_SIZE)?;
        Ok(RecordPatch { bytes, mask })
    }

    /// Writes bytes at an offset of the record.
    pub fn write(&mut self, offset: usize, content: &[u8])
        requires { offset + length content.now ≤ record_size }
        ensures { (k : ℕ) → bytes_written self.new k
            ≡ written_after offset content.now (bytes_written self.old) k }
    {
        let end = offset + content.len();
        extend_to(&mut self.bytes, end);
        extend_to(&mut self.mask, end);
        overwrite(&mut self.bytes, offset, content);
        mark(&mut self.mask, offset, content.len());
    }

    /// Forgets what was written from an offset on.
    pub fn clear_from(&mut self, offset: usize)
        ensures { (k : ℕ) → bytes_written self.new k
            ≡ written_below offset (bytes_written self.old) k }
    {
        self.bytes.truncate(offset);
        self.mask.truncate(offset);
    }

    /// Whether nothing is written from an offset on.
    pub fn ends_by(&self, offset: usize) -> bool
        ensures { IsTrue result → (k : ℕ) → offset ≤ k → bytes_written self.now k ≡ None }
    {
        self.mask.len() <= offset
    }

    /// Whether each of so many bytes from the offset `start` of the record on was written.
    pub fn covers(&self, start: usize, count: usize) -> bool
        requires { start + count ≤ record_size }
        ensures written { IsTrue result
            ↔ ((k : ℕ) → k < count → is_some (bytes_written self.now (start + k)) ≡ true) }
        ensures some { result ≡ false → 0 < count }
    {
        if self.mask.len() < start + count {
            return count == 0;
        }
        are_all(&self.mask[start..start + count], WRITTEN)
    }

    /// Lays the bytes that were written from the offset `start` of the record on over others.
    pub fn lay_over(&self, start: usize, into: &mut [u8])
        ensures size { length into.new ≡ length into.old }
        ensures bytes { (k : ℕ) → k < length into.old → get_or into.new k 0
            ≡ unwrap_or (bytes_written self.now (start + k)) (get_or into.old k 0) }
    {
        let size = into.len();
        let end = self.bytes.len().min(RECORD_SIZE);
        if size <= end && start <= end - size && self.covers(start, size) {
            into.copy_from_slice(&self.bytes[start..start + size]);
            return;
        }
        let bytes = self.bytes.as_slice();
        let mask = self.mask.as_slice();
        let count = mask.len().saturating_sub(start).min(into.len());
        for i in 0..count {
            into[i] = laid_byte(into[i], bytes[start + i], mask[start + i]);
        }
    }
}

// Lays zeros out up to a length that there is room for.
fn extend_to(bytes: &mut Vec<u8>, length: usize)
    requires { length ≤ vec_capacity bytes.old }
    ensures bytes { bytes.new.items ≡ with_zeros length bytes.old.items }
    ensures length { vec_len bytes.new ≡ max (vec_len bytes.old) length }
    ensures room { vec_capacity bytes.old ≤ vec_capacity bytes.new }
{
    if bytes.len() < length {
        let Ok(()) = bytes.resize(length, 0) else {
            unreachable!();
        };
    }
}

fn overwrite(bytes: &mut Vec<u8>, offset: usize, content: &[u8])
    requires { offset + length content.now ≤ vec_len bytes.old }
    ensures bytes { bytes.new.items ≡ put offset content.now bytes.old.items }
    ensures length { vec_len bytes.new ≡ vec_len bytes.old }
    ensures room { vec_capacity bytes.new ≡ vec_capacity bytes.old }
{
    bytes[offset..offset + content.len()].copy_from_slice(content);
}

// Marks so many bytes from an offset on as written.
fn mark(mask: &mut Vec<u8>, offset: usize, count: usize)
    requires { offset + count ≤ vec_len mask.old }
    ensures marks { mask.new.items ≡ put offset (replicate count 255) mask.old.items }
    ensures length { vec_len mask.new ≡ vec_len mask.old }
    ensures room { vec_capacity mask.new ≡ vec_capacity mask.old }
{
    mask[offset..offset + count].fill(WRITTEN);
}

// The byte that was written, if the mark says so, and otherwise the one below.
fn laid_byte(below: u8, byte: u8, mark: u8) -> u8
    requires { is_mark mark ≡ true }
    ensures { result ≡ laid_byte mark byte below }
{
    (byte & mark) | (below & !mark)
}
