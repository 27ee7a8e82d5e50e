//! The tree of blocks that holds a pool's objects (On-Disk Specification, chapter 2): a root, directories, and for each
//! object an indirect block over 84 records, or a top over 84 such blocks. The lengths of its objects, and its pointers
//! down to what the directories name, are kept in memory, and stand nowhere else. The pointers below these and the bytes
//! of the objects are told: they stand in the blocks.

ghost use Rattle.std.specs.Prelude.{◌≡◌, IfOk, All, vec_len};
ghost use Rattle.base.specs.formats.Limits.{object_count, pointer_count};
ghost use Rattle.tree_blocks.specs.EmptyEntries.{IsEmptyEntry};
ghost use Rattle.tree_blocks.specs.Entries.{is_long_size};
ghost use Rattle.tree_blocks.specs.Lengths.{HaveLengthsOf};

use crate::set_entries::set_all;
use crate::source::ObjectSource;
use crate::told_objects::ObjectsView;
use crate::told_strips::{StripsView, no_strips};
use base::{OBJECT_COUNT, ObjectId, POINTER_COUNT, Pointer, Told, has_two_levels};
use std::alloc::{AllocError, Global};
use std::collections::BTreeMap;

/// The most records of an object, 4,032 bytes each.
pub const RECORD_COUNT: usize = POINTER_COUNT * POINTER_COUNT;

/// Whether an object of this length has two levels of indirect blocks.
pub fn is_long(length: Option<u64>) -> bool
    ensures { result ≡ is_long_size length }
{
    match length {
        Some(length) => has_two_levels(length),
        None => false,
    }
}

/// What is kept in memory of one object of a tree: what its directory has of it.
#[derive(Drop)]
pub struct ObjectEntry {
    /// The length of the object in bytes, `None` if the tree has no such object.
    pub length: Option<u64>,
    /// The pointer to the object's top if it has two levels, or else to its indirect block. It is `Pointer::NONE` if
    /// there is none: then all records are holes.
    pub pointer: Pointer,
    /// The pointers below, of which none stands in memory.
    pub strips: Told<StripsView>,
}

impl ObjectEntry {
    ghost use Rattle.std.specs.Prelude.{◌≡◌};
    ghost use Rattle.tree_blocks.specs.Pointers.{is_long_entry, pointers_of_entry};

    /// Whether the object has two levels of indirect blocks.
    pub fn is_long(&self) -> bool
        ensures { result ≡ is_long_entry self.now }
    {
        is_long(self.length)
    }

    /// The pointer to the object's top, or to nothing.
    pub fn top(&self) -> Pointer
        ensures { result ≡ (pointers_of_entry self.now).top }
    {
        if self.is_long() {
            self.pointer
        } else {
            Pointer::NONE
        }
    }
}

/// The pointers of a tree down to what its directories name, and the lengths of its objects. The objects are told.
#[derive(Drop)]
pub struct Tree {
    /// The pointer to the root. It is `Pointer::NONE` if there is none: then no object is there.
    pub root: Pointer,
    /// The pointer to each directory, by the directory's number.
    pub directories: Vec<Pointer>,
    /// The entry of each object, by the object's number.
    pub entries: Vec<ObjectEntry>,
    /// The objects, of whose bytes none stands in memory. They have the lengths of the entries.
    pub objects: Told<ObjectsView>,
    ghost all_directories: { vec_len directories ≡ pointer_count },
    ghost all_objects: { vec_len entries ≡ object_count },
    ghost sized: { HaveLengthsOf entries.items objects.value },
}

/// The entries of objects of which none is there. It is refused if no memory is left.
pub fn empty_entries(alloc: Global) -> Result<Vec<ObjectEntry>, AllocError>
    ensures count { IfOk result (λ entries. vec_len entries ≡ object_count) }
    ensures empty { IfOk result (λ entries. All IsEmptyEntry entries.items) }
{
    let mut entries = Vec::with_capacity(alloc, OBJECT_COUNT as usize)?;
    for _i in 0..OBJECT_COUNT {
        entries.push_reserved(ObjectEntry {
            length: None,
            pointer: Pointer::NONE,
            strips: no_strips(),
        });
    }
    Ok(entries)
}

impl Tree {
    ghost use Rattle.std.specs.Prelude.{◌≡◌, ◌<◌, ◌≤◌, ℕ, None};
    ghost use Rattle.std.specs.FinMap as finite;
    ghost use Rattle.base.specs.formats.Limits.{object_count};
    ghost use Rattle.base.specs.tree.Places.{Place, IsPlace};
    ghost use Rattle.tree_blocks.specs.Pointers.{pointers_of};
    ghost use Rattle.tree_blocks.specs.ListedObjects.{AreWithin, listed};
    ghost use Rattle.tree_blocks.specs.Sources.{object_length};
    ghost use Rattle.tree_blocks.specs.SyncedTrees.{lengths_after, pointers_after};
    ghost use Rattle.tree_blocks.specs.TreeObjects.{lengths_of, objects_of};

    /// The length of an object in bytes, if it is there. It takes no memory.
    pub fn length(&self, id: ObjectId) -> Option<u64>
        ensures { result ≡ object_length (objects_of self.now) id.0 }
    {
        self.entries.get(id.0 as usize)?.length
    }

    /// Makes of the tree the one that a sync wrote: with this root, these directories, and new entries of these
    /// objects. Those with no place in the tree are dropped. The objects after the sync have the lengths that it then
    /// has. It takes no memory.
    pub fn lay(
        &mut self,
        root: Pointer,
        directories: Vec<Pointer>,
        entries: BTreeMap<ObjectId, ObjectEntry>,
        objects: Told<ObjectsView>,
    )
        requires directories { vec_len directories ≡ pointer_count }
        requires lengths { (n : ℕ) → n < object_count
            → lengths_after entries self.old n ≡ object_length objects.value n }
        requires numbered { (n : ℕ) → object_count ≤ n → finite.get objects.value n ≡ None }
        ensures pointers { (place : Place) → IsPlace place → pointers_of self.new place
            ≡ pointers_after root directories.items entries self.old place }
        ensures lengths { (n : ℕ) → n < object_count
            → lengths_of self.new n ≡ lengths_after entries self.old n }
        ensures objects { objects_of self.new ≡ objects.value }
        ensures root { self.new.root ≡ root }
    {
        self.root = root;
        self.directories = directories;
        set_all(&mut self.entries, entries);
        self.objects = objects;
    }

    /// The numbers of its objects, rising, each with the object's length. It is refused if no memory is left.
    pub fn list_objects(&self, alloc: Global) -> Result<Vec<(ObjectId, u64)>, AllocError>
        ensures { AreWithin (objects_of self.now)
            → IfOk result (λ list. list.items ≡ listed (objects_of self.now)) }
    {
        let mut list = Vec::new(alloc);
        for number in 0..OBJECT_COUNT {
            if let Some(length) = self.entries[number as usize].length {
                list.push((ObjectId(number), length))?;
            }
        }
        Ok(list)
    }
}

/// The objects of a tree.
impl ObjectSource for &Tree {
    ghost use Rattle.tree_blocks.specs.TreeObjects.{objects_of};

    ghost objects = { λ t. objects_of t.now };

    fn length(&self, id: ObjectId) -> Option<u64> {
        Tree::length(self, id)
    }
}
