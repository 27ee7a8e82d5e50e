//! The pointers of an object before a group, as far as they were read. A tree in memory has none below the entries of
//! its directories, so they are read of each object that a group changes: those in its top, if it has one, and those in
//! the indirect blocks whose strips the group changes, or in all of them if the object has one level after the group.

ghost use Rattle.std.specs.Prelude.{vec_len, ◌≡◌};
ghost use Rattle.base.specs.formats.Limits.{pointer_count};
ghost use Rattle.tree_blocks.specs.Pointers.{pointer_of_list};

use base::{POINTER_COUNT, Pointer};
use std::collections::BTreeMap;

/// The pointers of an object before a group, as far as they were read.
#[derive(Drop)]
pub struct ObjectMap {
    /// The pointer to its top.
    pub top: Pointer,
    /// The pointer to the indirect block of each strip, by the strip's index.
    pub indirects: Vec<Pointer>,
    /// The pointers in the indirect blocks that were read, by the indexes of their strips.
    pub strips: BTreeMap<usize, Vec<Pointer>>,
    ghost all_indirects: { vec_len indirects ≡ pointer_count },
}

impl ObjectMap {
    ghost use Rattle.std.specs.Prelude.{◌≡◌, ◌<◌, ◌≤◌, ℕ, false, is_some};
    ghost use Rattle.base.specs.formats.Limits.{pointer_count};
    ghost use Rattle.tree_blocks.specs.Pointers.{pointer_of_list};
    ghost use Rattle.tree_blocks.specs.ReadPointers.{read_record, records_among};

    /// The pointer to the indirect block of a strip.
    pub fn indirect(&self, strip: usize) -> Pointer
        requires { strip < pointer_count }
        ensures { result ≡ pointer_of_list self.now.indirects.items strip }
    {
        self.indirects[strip]
    }

    /// Whether the indirect block of a strip was read.
    pub fn has_read(&self, strip: usize) -> bool
        ensures { result ≡ is_some (records_among self.now.strips.entries strip) }
    {
        self.strips.contains_key(&strip)
    }

    /// The indirect block of no strip from this index on was read. It is at most 84.
    pub fn read_end(&self) -> usize
        ensures low { result ≤ pointer_count }
        ensures past { (j : ℕ) → result ≤ j → j < pointer_count
            → is_some (records_among self.now.strips.entries j) ≡ false }
    {
        match self.strips.last_key_value() {
            Some((last, _)) => POINTER_COUNT.min(last.saturating_add(1)),
            None => 0,
        }
    }

    /// The pointer to a record, as it was read. A strip without an indirect block has none.
    pub fn record(&self, strip: usize, index: usize) -> Pointer
        requires { strip < pointer_count }
        ensures { result ≡ read_record self.now strip index }
    {
        pointer_of_list(self.records(strip), index)
    }

    /// The pointers to the records of a strip, as they were read: none for a strip without an indirect block.
    pub fn records(&self, strip: usize) -> &[Pointer]
        requires { strip < pointer_count }
        ensures { (k : ℕ) → pointer_of_list result.now k ≡ read_record self.now strip k }
    {
        if self.indirects[strip].address == 0 {
            return &[];
        }
        match self.strips.get(&strip) {
            Some(records) => records,
            None => &[],
        }
    }
}

/// The pointer of this number, none past the last one.
pub fn pointer_of_list(pointers: &[Pointer], index: usize) -> Pointer
    ensures { result ≡ pointer_of_list pointers.now index }
{
    pointers.get(index).copied().unwrap_or(Pointer::NONE)
}
