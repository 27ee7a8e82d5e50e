//! What callers rest on of a tree in memory: each object has its own entry.

ghost use Rattle.std.specs.Prelude.{ℕ, ◌≡◌, ◌<◌, ◌≤◌, ◌∷◌, [], IfOk, None, Some, false, vec_len};
ghost use Rattle.std.specs.FinMap as finite;
ghost use Rattle.base.specs.formats.Fields.{no_pointer};
ghost use Rattle.base.specs.formats.Limits.{object_count, pointer_count};
ghost use Rattle.base.specs.tree.Places.Place.{Root, Top};
ghost use Rattle.tree_blocks.specs.declared.tree.ObjectEntry.{ObjectEntry};
ghost use Rattle.tree_blocks.specs.Pointers.{entry_among, pointers_of, pointers_of_entry};
ghost use Rattle.tree_blocks.specs.ListedObjects.{AreWithin};
ghost use Rattle.tree_blocks.specs.Sources.{object_length};
ghost use Rattle.tree_blocks.specs.SyncedTrees.{lengths_after};
ghost use Rattle.tree_blocks.specs.TreeObjects.{lengths_of, objects_of};

use base::{ObjectId, Pointer, Told};
use std::alloc::{AllocError, Global};
use std::collections::BTreeMap;
use tree_blocks::{BytesView, ObjectEntry, ObjectsView, Tree, empty_entries, with_object};

// An object that has a new entry has its length and its pointer, and the root is the new one.
fn an_entry_that_is_laid_stays(
    tree: &mut Tree,
    root: Pointer,
    directories: Vec<Pointer>,
    entries: BTreeMap<ObjectId, ObjectEntry>,
    objects: Told<ObjectsView>,
)
    requires directories { vec_len directories ≡ pointer_count }
    requires lengths { (n : ℕ) → n < object_count
        → lengths_after entries tree.old n ≡ object_length objects.value n }
    requires numbered { (n : ℕ) → object_count ≤ n → finite.get objects.value n ≡ None }
    ensures root { pointers_of tree.new Root ≡ root }
    ensures length { (e : ObjectEntry) → entry_among entries 7 ≡ Some e
        → lengths_of tree.new 7 ≡ e.length }
    ensures top { (e : ObjectEntry) → entry_among entries 7 ≡ Some e
        → pointers_of tree.new (Top 7) ≡ (pointers_of_entry e).top }
    ensures others { entry_among entries 8 ≡ None → lengths_of tree.new 8 ≡ lengths_of tree.old 8 }
{
    tree.lay(root, directories, entries, objects)
}

// Entries that are made for a tree have no object, the last one included.
fn no_object_is_in_new_entries(alloc: Global) -> Result<bool, AllocError>
    ensures { IfOk result (λ there. there ≡ false) }
{
    let entries = empty_entries(alloc)?;
    Ok(entries[5_291].length.is_some())
}

// An object of one level has no top, and one of two levels has the pointer of its entry for it.
fn an_object_of_one_byte_has_no_top(entry: &ObjectEntry) -> Pointer
    requires { entry.now.length ≡ Some 1 }
    ensures { result ≡ no_pointer }
{
    entry.top()
}

fn a_long_object_has_a_top(entry: &ObjectEntry) -> Pointer
    requires { entry.now.length ≡ Some 338689 }
    ensures { result ≡ entry.now.pointer }
{
    entry.top()
}

// The length of an object is that of its bytes, and that of its entry.
fn length_7_is_that_of_object_7(tree: &Tree) -> Option<u64>
    ensures bytes { finite.get (objects_of tree.now) 7 ≡ Some (1 ∷ 2 ∷ 3 ∷ []) → result ≡ Some 3 }
    ensures entry { result ≡ lengths_of tree.now 7 }
{
    tree.length(ObjectId(7))
}

// An object is told under its number, and the others stay.
fn an_object_is_told_under_its_number(
    objects: &Told<ObjectsView>,
    bytes: &Told<BytesView>,
) -> Told<ObjectsView>
    ensures here { finite.get result.value 7 ≡ Some bytes.now.value }
    ensures others { finite.get result.value 8 ≡ finite.get objects.now.value 8 }
{
    with_object(objects, 7, bytes)
}

// The last object that there may be is listed, with its length.
fn the_last_object_is_listed(tree: &Tree, alloc: Global) -> Result<Vec<(ObjectId, u64)>, AllocError>
    requires within { AreWithin (objects_of tree.now) }
    requires alone { finite.entries (objects_of tree.now) ≡ (5291, 1 ∷ 2 ∷ 3 ∷ []) ∷ [] }
    ensures { IfOk result (λ list. list.items ≡ (record { 0 = 5291 }, 3) ∷ []) }
{
    tree.list_objects(alloc)
}
