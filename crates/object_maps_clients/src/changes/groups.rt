//! What callers rest on of the changes of groups: operations are applied to their own group, and groups move up.

ghost use Rattle.std.specs.Prelude.{◌≡◌, ◌∷◌, [], IfOk, None, OnOk, Some, vec_len};
ghost use Rattle.base.specs.formats.Limits.{pointer_count};
ghost use Rattle.extents.specs.Patches.{no_patch};
ghost use Rattle.contents.specs.ContentsShown.{contents_of};
ghost use Rattle.extents.specs.Synced.{HaveLengthsAfter};
ghost use Rattle.extents.specs.Tables.{name_of, patches_of};
ghost use Rattle.unsynced_extents.specs.Unsynced.{changes_at, extents_at, name_at};
ghost use Rattle.extents.specs.declared.basis.Basis.TheVariants as basis;

use base::{Bytes, ObjectId, Op, Pointer, PoolName};
use contents::SyncedTree;
use extents::Extents;
use std::alloc::{AllocError, Global};
use std::collections::BTreeMap;
use tree_blocks::ObjectEntry;
use unsynced_extents::UnsyncedExtents;

// Nothing is changed at first: an object has the length of the one below.
fn nothing_is_changed_at_first(alloc: Global) {
    let extents = Extents::new(alloc);
    prove!(extents.length_over(ObjectId(7), Some(500)) == Some(500));
}

// What an added operation makes of an object is seen, and of no other.
fn an_added_length_is_seen(alloc: Global) -> Result<(Option<u64>, Option<u64>), AllocError>
    ensures here { IfOk result (λ lengths. lengths.0 ≡ Some 100) }
    ensures other { IfOk result (λ lengths. lengths.1 ≡ Some 500) }
{
    let mut extents = Extents::new(alloc);
    extents.add(&[Op::SetLength(ObjectId(7), 100)])?;
    let here = extents.length_over(ObjectId(7), Some(500));
    let other = extents.length_over(ObjectId(8), Some(500));
    Ok((here, other))
}

// Operations that have their room are applied without memory.
fn an_applied_length_is_seen(extents: &mut Extents) -> Result<(), AllocError>
    requires { (patches_of extents.old 7).basis ≡ basis.Made 0 }
    ensures { OnOk result ((patches_of extents.new 7).basis ≡ basis.Made 100) }
{
    let ops = [Op::SetLength(ObjectId(7), 100)];
    extents.reserve(&ops)?;
    extents.apply(&ops);
    Ok(())
}

// The operations of the second group change what that group made, and not what the third one made.
fn operations_go_to_their_group(unsynced: &mut UnsyncedExtents) -> Result<(), AllocError>
    requires { (changes_at unsynced.old 1 7).basis ≡ basis.Made 0 }
    ensures here { OnOk result ((changes_at unsynced.new 1 7).basis ≡ basis.Made 100) }
    ensures others { OnOk result (extents_at unsynced.new 2 ≡ extents_at unsynced.old 2) }
{
    let ops = [Op::SetLength(ObjectId(7), 100)];
    unsynced.reserve(1, &ops)?;
    unsynced.apply(1, &ops);
    Ok(())
}

// Of two names that a group gives it gives the last.
fn the_last_name_is_given(
    extents: &mut Extents,
    first: Bytes,
    second: Bytes,
) -> Result<(), AllocError>
    requires first { first ≡ 97 ∷ [] }
    requires second { second ≡ 98 ∷ [] }
    ensures { OnOk result (name_of extents.new ≡ Some (98 ∷ [])) }
{
    extents.add(&[Op::SetName(first), Op::SetName(second)])
}

// A new group gives no name.
fn a_new_group_gives_no_name(alloc: Global) {
    let extents = Extents::new(alloc);
    prove!(extents.name().is_none());
}

// A group that gives a name returns that name.
fn the_name_of_a_group_is_returned(extents: &Extents) -> Option<PoolName>
    requires { name_of extents.now ≡ Some (97 ∷ []) }
    ensures { result ≡ Some (97 ∷ []) }
{
    Some(extents.name()?.copy())
}

// A group that gives a name decides, whatever the name below.
fn the_name_of_a_group_is_laid_over_the_one_below(extents: &Extents, below: &PoolName) -> PoolName
    requires { name_of extents.now ≡ Some (97 ∷ []) }
    ensures { result ≡ 97 ∷ [] }
{
    extents.name_over(below).copy()
}

// If the group gives no name, the one below stays.
fn the_name_below_stays(extents: &Extents, below: &PoolName) -> PoolName
    requires { name_of extents.now ≡ None }
    ensures { result ≡ below.now }
{
    extents.name_over(below).copy()
}

// The newest group that gives a name decides.
fn the_newest_name_is_laid_over_the_others(
    unsynced: &UnsyncedExtents,
    synced: &PoolName,
) -> PoolName
    requires oldest { name_at unsynced.now 0 ≡ Some (97 ∷ []) }
    requires second { name_at unsynced.now 1 ≡ Some (98 ∷ []) }
    requires third { name_at unsynced.now 2 ≡ None }
    ensures { result ≡ 98 ∷ [] }
{
    unsynced.name_over(synced).copy()
}

// So does the open group, if the oldest one gives another name.
fn the_name_of_the_open_group_is_laid_over_an_older_one(
    unsynced: &UnsyncedExtents,
    synced: &PoolName,
) -> PoolName
    requires oldest { name_at unsynced.now 0 ≡ Some (97 ∷ []) }
    requires third { name_at unsynced.now 2 ≡ Some (99 ∷ []) }
    ensures { result ≡ 99 ∷ [] }
{
    unsynced.name_over(synced).copy()
}

// If no group gives a name, the synced one stays.
fn the_synced_name_stays(unsynced: &UnsyncedExtents, synced: &PoolName) -> PoolName
    requires oldest { name_at unsynced.now 0 ≡ None }
    requires second { name_at unsynced.now 1 ≡ None }
    requires third { name_at unsynced.now 2 ≡ None }
    ensures { result ≡ synced.now }
{
    unsynced.name_over(synced).copy()
}

// Once the group is synced, the contents have its name.
fn a_synced_group_names_the_contents(
    extents: &Extents,
    synced: &mut SyncedTree,
    root: Pointer,
    directories: Vec<Pointer>,
    entries: BTreeMap<ObjectId, ObjectEntry>,
)
    requires directories { vec_len directories ≡ pointer_count }
    requires lengths { HaveLengthsAfter (patches_of extents.now) entries synced.old.tree }
    requires name { name_of extents.now ≡ Some (97 ∷ []) }
    ensures { (contents_of synced.new).name ≡ 97 ∷ [] }
{
    extents.lay_into(synced, root, directories, entries);
}

// The group after a synced one is the oldest then, with what it made, and the last place is free.
fn the_groups_move_up(unsynced: &mut UnsyncedExtents)
    requires { (changes_at unsynced.old 1 7).basis ≡ basis.Made 100 }
    ensures oldest { (changes_at unsynced.new 0 7).basis ≡ basis.Made 100 }
    ensures last { changes_at unsynced.new 2 7 ≡ no_patch }
{
    unsynced.drop_oldest();
}

// The oldest group has place 0.
fn the_oldest_group_has_place_0(unsynced: &UnsyncedExtents) -> Option<u64>
    requires { (changes_at unsynced.now 0 7).basis ≡ basis.Made 100 }
    ensures { result ≡ Some 100 }
{
    unsynced.oldest().length_over(ObjectId(7), None)
}
