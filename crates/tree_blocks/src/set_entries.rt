//! Entries of objects that take the place of those before.

ghost use Rattle.std.specs.Prelude.{◌≡◌, ◌<◌, ℕ, List, vec_len};
ghost use Rattle.std.proofs.Math.ListN.{set};
ghost use Rattle.base.specs.declared.pointer.Pointer.{Pointer};
ghost use Rattle.base.specs.formats.Limits.{object_count};
ghost use Rattle.base.specs.tree.Places.{IsPlace, Place};
ghost use Rattle.tree_blocks.specs.Lengths.{length_in, with_lengths};
ghost use Rattle.tree_blocks.specs.Pointers.{entry_among, pointers_at, with_entries};

use crate::tree::ObjectEntry;
use base::ObjectId;
use std::collections::BTreeMap;

// Sets the entries of these objects, of which those with no place are dropped.
pub(crate) fn set_all(entries: &mut Vec<ObjectEntry>, new: BTreeMap<ObjectId, ObjectEntry>)
    requires { vec_len entries.old ≡ object_count }
    ensures count { vec_len entries.new ≡ object_count }
    ensures pointers { (root : Pointer) (directories : List Pointer) (place : Place)
        → IsPlace place → pointers_at root directories entries.new.items place
        ≡ with_entries (entry_among new) (pointers_at root directories entries.old.items) place }
    ensures lengths { (n : ℕ) → n < object_count → length_in entries.new.items n
        ≡ with_lengths (entry_among new) (length_in entries.old.items) n }
{
    for (id, entry) in new {
        set(entries, id, entry);
    }
}

fn set(entries: &mut Vec<ObjectEntry>, id: ObjectId, entry: ObjectEntry)
    ensures entries { entries.new.items ≡ set entries.old.items id.0 entry }
    ensures count { vec_len entries.new ≡ vec_len entries.old }
{
    if (id.0 as usize) < entries.len() {
        entries[id.0 as usize] = entry;
    }
}
