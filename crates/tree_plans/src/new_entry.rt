//! The entry of an object after a plan, with the pointers below it, which only clauses see.

ghost use Rattle.std.specs.Prelude.{◌≡◌, length as count, if◌then◌else◌};
ghost use Rattle.base.specs.formats.Limits.{pointer_count};
ghost use Rattle.tree_blocks.specs.Pointers.{pointer_of_list};
ghost use Rattle.tree_blocks.specs.Entries.{is_long_size};
ghost use Rattle.tree_plans.specs.Pointers.{entry_strips, strips_with};

use base::{Pointer, Told};
use std::collections::BTreeMap;
use tree_blocks::{ObjectEntry, StripsView, is_long};

/// What an entry tells of the strips of its object.
pub fn entry_strips(entry: &ObjectEntry) -> Told<StripsView>
    ensures { result.value ≡ entry_strips entry.now }
{
    Told::of(entry)
}

// The strips of an object that has these indirect blocks, and in them these pointers or those that were told before.
fn tell_strips(
    indirects: &[Pointer],
    strips: &BTreeMap<usize, Vec<Pointer>>,
    told: &Told<StripsView>,
) -> Told<StripsView>
    ensures { result.value ≡ strips_with indirects.now strips.now.entries told.now.value }
{
    Told::of(&(indirects, strips, told))
}

/// The entry of an object of this length that has this top, these indirect blocks, and in them these pointers or those
/// that were told before.
pub fn new_entry(
    length: Option<u64>,
    top: Pointer,
    indirects: &[Pointer],
    strips: &BTreeMap<usize, Vec<Pointer>>,
    told: &Told<StripsView>,
) -> ObjectEntry
    requires { count indirects.now ≡ pointer_count }
    ensures length { result.length ≡ length }
    ensures pointer { result.pointer
        ≡ (if is_long_size length then top else pointer_of_list indirects.now 0) }
    ensures strips { result.strips.value
        ≡ strips_with indirects.now strips.now.entries told.now.value }
{
    ObjectEntry {
        length,
        pointer: if is_long(length) { top } else { indirects[0] },
        strips: tell_strips(indirects, strips, told),
    }
}
