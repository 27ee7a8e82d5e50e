//! An object that operations are on, strip by strip: what a sync does with its records and with its indirect blocks.
//!
//! - In an object of two levels an indirect block is written if a record of its strip is written or cut off, and some
//!   pointer remains. The top is written if an operation wrote the object or set its length, and some indirect block
//!   remains.
//! - In an object of one level only the first strip may have blocks. Its indirect block is written if an operation
//!   wrote the object or set its length, and some pointer remains. All other strips that were there are freed.

use crate::changes::ObjectChanges;
use crate::payload::has_block;
use base::{ObjectId, POINTER_COUNT, Pointer, RecordState};
use tree_blocks::ObjectMap;

/// An object that operations are on.
#[derive(Clone, Copy)]
pub struct ChangedObject<'a> {
    /// Its number.
    pub id: ObjectId,
    /// Whether it has two levels of indirect blocks after the group.
    pub is_long: bool,
    /// The pointers that it had.
    pub old: &'a ObjectMap,
    /// What the operations do to it.
    pub changes: &'a ObjectChanges,
}

impl ChangedObject<'_> {
    ghost use Rattle.std.specs.Prelude.{◌≡◌, ◌<◌, ◌≤◌, ◌&&◌, ◌||◌, ℕ, false, is_some, not};
    ghost use Rattle.std.specs.List.{list_any};
    ghost use Rattle.base.specs.formats.Limits.{pointer_count};
    ghost use Rattle.tree_plans.specs.Changes.{has_address, is_strip_dirty, is_strip_touched, may_have_blocks};
    ghost use Rattle.tree_plans.specs.Plans.{kept_state};
    ghost use Rattle.tree_blocks.specs.ReadPointers.{records_among};

    /// What the sync does with a record. Those of a strip that may have no block are holes.
    pub fn state(&self, strip: usize, index: usize) -> RecordState
        requires strip { strip < pointer_count }
        requires index { index < pointer_count }
        ensures { result ≡ kept_state self.now.is_long self.now.changes.now strip index }
    {
        if !self.may_have_blocks(strip) {
            return RecordState::Hole;
        }
        self.changes.state(POINTER_COUNT * strip + index)
    }

    /// Whether a strip may have blocks after the group.
    pub fn may_have_blocks(&self, strip: usize) -> bool
        ensures { result ≡ may_have_blocks self.now.is_long self.now.changes.now.is_changed strip }
    {
        self.is_long || (strip == 0 && self.changes.is_changed)
    }

    /// Whether the indirect block of a strip stays, as no record of it changes.
    pub fn keeps_strip(&self, strip: usize) -> bool
        requires { strip < pointer_count }
        ensures { result ≡ (self.now.is_long && not (is_strip_touched self.now.changes.now strip)) }
    {
        self.is_long && !self.changes.touches_strip(strip)
    }

    /// Whether a strip that changes has an indirect block after the group, if these are the pointers to its records.
    pub fn has_indirect(&self, strip: usize, records: &[Pointer]) -> bool
        ensures { result
            ≡ (may_have_blocks self.now.is_long self.now.changes.now.is_changed strip
            && list_any has_address records.now) }
    {
        self.may_have_blocks(strip) && has_block(records)
    }

    /// Whether the object has a new top after the group, if these are the pointers to its indirect blocks.
    pub fn has_top(&self, indirects: &[Pointer]) -> bool
        ensures { result
            ≡ ((self.now.is_long && self.now.changes.now.is_changed) && list_any has_address indirects.now) }
    {
        self.is_long && self.changes.is_changed && has_block(indirects)
    }

    /// Whether the plan goes over the records of a strip: its pointers were read, or it has a record to write.
    pub fn is_met(&self, strip: usize) -> bool
        requires { strip < pointer_count }
        ensures { result ≡ (is_some (records_among self.now.old.now.strips.entries strip)
            || is_strip_dirty self.now.changes.now strip) }
    {
        self.old.has_read(strip) || self.changes.writes_strip(strip)
    }

    /// The plan goes over no strip from this index on. It is at most 84.
    pub fn met_end(&self) -> usize
        ensures low { result ≤ pointer_count }
        ensures unread { (j : ℕ) → result ≤ j → j < pointer_count
            → is_some (records_among self.now.old.now.strips.entries j) ≡ false }
        ensures clean { (j : ℕ) → result ≤ j → j < pointer_count
            → is_strip_dirty self.now.changes.now j ≡ false }
    {
        self.old.read_end().max(self.changes.written_end())
    }
}
