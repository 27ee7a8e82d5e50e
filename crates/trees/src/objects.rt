//! What a walk puts its objects into, one after another: their bytes are told, and their entries are kept.

ghost use Rattle.std.specs.Prelude.{◌≡◌, vec_len};
ghost use Rattle.base.specs.formats.Limits.{object_count};
ghost use Rattle.tree_blocks.specs.Lengths.{HaveLengthsOf};

use crate::marks::{take_block, take_blocks};
use base::{Pointer, Told};
use space::FreeSet;
use std::alloc::{AllocError, Global};
use tree_blocks::{
    BytesView, ObjectEntry, ObjectsView, Tree, empty_entries, no_objects, with_object,
};

/// What a load of a tree gives: the tree in memory, and the blocks that it leaves free.
#[derive(Drop)]
pub struct Loaded {
    /// The pointers of the tree down to what its directories name, and the lengths of its objects. The objects are told.
    pub tree: Tree,
    /// The blocks that no pointer of the tree names.
    pub free: FreeSet,
}

/// The entry of each object number, and the objects.
#[derive(Drop)]
pub(crate) struct Objects {
    pub(crate) entries: Vec<ObjectEntry>,
    pub(crate) told: Told<ObjectsView>,
    ghost all_entries: { vec_len entries ≡ object_count },
    ghost sized: { HaveLengthsOf entries.items told.value },
}

impl Objects {
    ghost use Rattle.std.specs.Prelude.{◌≡◌, ◌<◌, ℕ, List, Some, IfOk, length as count, vec_len};
    ghost use Rattle.std.specs.Ordering.{nat_cmp};
    ghost use Rattle.std.specs.FinMap as finite;
    ghost use Rattle.std.specs.FinMap.{FinMap};
    ghost use Rattle.std.proofs.Math.ListN.{set};
    ghost use Rattle.base.specs.formats.Limits.{object_count, pointer_count};
    ghost use Rattle.tree_blocks.specs.TreeObjects.{objects_of};
    ghost use Rattle.trees.specs.FreeBlocks.{AreMarked, AreUnnamed};
    ghost use Rattle.trees.specs.Loaders.{StandFor};
    ghost use Rattle.trees.specs.Loading.{AreEmptyFrom};

    // No object is there.
    pub(crate) fn new(alloc: Global) -> Result<Self, AllocError>
        ensures objects { IfOk result (λ o. StandFor o finite.empty) }
        ensures empty { IfOk result (λ o. AreEmptyFrom 0 finite.empty o.entries.items) }
    {
        let entries = empty_entries(alloc)?;
        Ok(Objects {
            entries,
            told: no_objects(),
        })
    }

    // Puts an object into its place, with its entry.
    pub(crate) fn put(&mut self, number: usize, entry: ObjectEntry, bytes: Told<BytesView>)
        requires in_range { number < object_count }
        requires length { entry.length ≡ Some (count bytes.value) }
        ensures entries { self.new.entries.items ≡ set self.old.entries.items number entry }
        ensures objects { (objects : FinMap nat_cmp (List ℕ)) → StandFor self.old objects
            → StandFor self.new (finite.insert objects number bytes.value) }
    {
        self.told = with_object(&self.told, number, &bytes);
        self.entries[number] = entry;
    }

    // The tree of these objects under these pointers. The blocks of the root and of the directories are taken, so that
    // those are left that no pointer of the tree names.
    pub(crate) fn into_loaded(
        self,
        root: Pointer,
        directories: Vec<Pointer>,
        mut free: FreeSet,
    ) -> Loaded
        requires { vec_len directories ≡ pointer_count }
        ensures root { result.tree.root ≡ root }
        ensures directories { result.tree.directories ≡ directories }
        ensures entries { result.tree.entries ≡ self.entries }
        ensures objects { objects_of result.tree ≡ self.told.value }
        ensures free { (blocks : ℕ) → AreMarked self.entries.items blocks free
            → AreUnnamed blocks result.tree result.free }
    {
        let Objects { entries, told } = self;
        take_block(&mut free, root.address);
        take_blocks(&mut free, &directories);
        let tree = Tree {
            root,
            directories,
            entries,
            objects: told,
        };
        Loaded { tree, free }
    }
}
