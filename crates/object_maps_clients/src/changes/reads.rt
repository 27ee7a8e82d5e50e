//! What callers rest on of objects with changes laid over them: written bytes, and bytes below as far as they show.

ghost use Rattle.std.specs.Prelude.{ℕ, ◌≡◌, ◌∷◌, [], None, Some, false, get_or, length, vec_len};
ghost use Rattle.std.specs.FinMap as finite;
ghost use Rattle.contents.specs.ContentsShown.{contents_of};
ghost use Rattle.extents.specs.Patches.{no_patch};
ghost use Rattle.base.specs.formats.Limits.{pointer_count};
ghost use Rattle.extents.specs.Synced.{HaveLengthsAfter};
ghost use Rattle.extents.specs.Tables.{patches_of};
ghost use Rattle.unsynced_extents.specs.Unsynced.{changes_at};
ghost use Rattle.extents.specs.declared.basis.Basis.TheVariants as basis;

use base::{ObjectId, Pointer};
use contents::SyncedTree;
use extents::Extents;
use std::collections::BTreeMap;
use tree_blocks::ObjectEntry;
use unsynced_extents::UnsyncedExtents;

// Of an object that was cut to its first byte, and made three bytes long again, that byte shows and then zeros.
fn bytes_after_a_cut_are_laid_over(extents: &Extents, into: &mut [u8])
    requires basis { (patches_of extents.now 7).basis ≡ basis.Cut 1 3 }
    requires written { (i : ℕ) → (patches_of extents.now 7).written i ≡ None }
    requires bytes { into.old ≡ 1 ∷ 2 ∷ 3 ∷ [] }
    ensures first { get_or into.new 0 0 ≡ 1 }
    ensures second { get_or into.new 1 0 ≡ 0 }
{
    extents.lay_over(ObjectId(7), 0, 0, Some(3), into);
}

// Once the group is synced, bytes after its cut don't come back in the contents.
fn bytes_after_a_cut_do_not_come_back(
    extents: &Extents,
    synced: &mut SyncedTree,
    root: Pointer,
    directories: Vec<Pointer>,
    entries: BTreeMap<ObjectId, ObjectEntry>,
)
    requires directories { vec_len directories ≡ pointer_count }
    requires lengths { HaveLengthsAfter (patches_of extents.now) entries synced.old.tree }
    requires basis { (patches_of extents.now 7).basis ≡ basis.Cut 1 3 }
    requires written { (i : ℕ) → (patches_of extents.now 7).written i ≡ None }
    requires object { finite.get (contents_of synced.old).objects 7 ≡ Some (1 ∷ 2 ∷ 3 ∷ []) }
    ensures { finite.get (contents_of synced.new).objects 7 ≡ Some (1 ∷ 0 ∷ 0 ∷ []) }
{
    extents.lay_into(synced, root, directories, entries);
}

// An object that the group left alone hides no byte of the one below.
fn an_untouched_object_hides_nothing(extents: &Extents) -> bool
    requires { patches_of extents.now 7 ≡ no_patch }
    ensures { result ≡ false }
{
    extents.hides(ObjectId(7), 0, 5, 1)
}

// A byte that the group wrote is laid on those of the object below.
fn a_written_byte_is_laid_on(extents: &Extents, into: &mut [u8])
    requires basis { (patches_of extents.now 7).basis ≡ basis.Made 1 }
    requires written { (patches_of extents.now 7).written 0 ≡ Some 9 }
    requires size { length into.old ≡ 1 }
    ensures { get_or into.new 0 0 ≡ 9 }
{
    extents.lay_on(ObjectId(7), 0, 0, into);
}

// Of an object that no group touched, each byte of the synced tree shows.
fn bytes_that_no_group_touched_are_not_hidden(unsynced: &UnsyncedExtents) -> bool
    requires oldest { changes_at unsynced.now 0 7 ≡ no_patch }
    requires second { changes_at unsynced.now 1 7 ≡ no_patch }
    requires third { changes_at unsynced.now 2 7 ≡ no_patch }
    ensures { result ≡ false }
{
    unsynced.hides(ObjectId(7), 0, 5, 1)
}

// A byte that the newest group wrote is laid on those of the synced tree.
fn a_byte_of_the_newest_group_is_laid_on(unsynced: &UnsyncedExtents, into: &mut [u8])
    requires basis { (changes_at unsynced.now 2 7).basis ≡ basis.Made 1 }
    requires written { (changes_at unsynced.now 2 7).written 0 ≡ Some 9 }
    requires size { length into.old ≡ 1 }
    ensures { get_or into.new 0 0 ≡ 9 }
{
    unsynced.lay_on(ObjectId(7), 0, 0, into);
}
