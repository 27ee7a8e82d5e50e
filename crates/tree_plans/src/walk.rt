//! The walk of a sync over a tree: which blocks it writes, and in which order.
//!
//! Live blocks are never overwritten (On-Disk Specification, chapter 2), so a block that changes moves, and what points
//! to it changes too: a record changes its indirect block, that the top of an object of two levels. These change its
//! directory, and that the root. A pointer has the check of its block, so the walk goes from the records up:
//!
//! 1. each object that an operation is on, rising: its dirty records, rising, its indirect blocks, rising, and its top;
//! 2. each directory with such an object, rising;
//! 3. the root, if there is such an object.
//!
//! A block above the records is written if something below it is left: a record with a block, an object that is there.
//! Otherwise its place has no block any more, and what it had comes back. So does the block of a record that is a hole.
//!
//! Each block takes the lowest free place after the one before it. No flag of the free set changes here, so a plan that
//! is refused has changed nothing.

ghost use Rattle.std.specs.Prelude.{◌≡◌, ◌<◌, ◌||◌, [], List, Some, false, length, true, vec_len, IfOk, IfErr, OnOk};
ghost use Rattle.base.specs.declared.error.PoolError.TheVariants as error;
ghost use Rattle.base.specs.declared.names.ObjectId.{ObjectId};
ghost use Rattle.base.specs.formats.Geometry.{block_count};
ghost use Rattle.base.specs.formats.Limits.{object_count, pointer_count};
ghost use Rattle.base.specs.tree.Syncs.{is_dirty};
ghost use Rattle.tree_plans.specs.Changes.{AreInRange};
ghost use Rattle.tree_plans.specs.declared.changes.ObjectChanges.{ObjectChanges};
ghost use Rattle.tree_plans.specs.Parts.{AreMapsRead, AreReady, GoesOver, HasNothing, IsMapReadOf, PlansDirectories, PlansDirectory, PlansObjects, PlansRoot, PlansTree, TellsLack, group_in};
ghost use Rattle.tree_plans.specs.Plans.{IsReady, IsWant, state_above};
ghost use Rattle.tree_plans.specs.Pointers.{entry_of};
ghost use Rattle.tree_plans.specs.Room.{changed_blocks, count_if, directory_blocks, object_blocks, written_blocks};
ghost use Rattle.tree_plans.specs.TreePlans.{GivesBack, GivesTree, HasEntries, HasLengths, TakesBlocks, TellsFull};
ghost use Rattle.tree_plans.specs.Walks.{has_object, has_objects, is_directory_touched, is_emptied, root_state};

use crate::ahead::IndirectsAhead;
use crate::changed_object::ChangedObject;
use crate::changes::ObjectChanges;
use crate::new_entry::entry_strips;
use crate::payload::directory_payload;
use crate::plan_source::PlanSource;
use crate::planner::{Planner, TreePlan};
use crate::sealed_source::SealedSource;
use base::{ENTRY_COUNT, OBJECT_COUNT, ObjectId, POINTER_COUNT, Pointer, PoolError, RecordState};
use std::collections::BTreeMap;
use tree_blocks::{BlockPlace, ObjectEntry, ObjectSource, is_long, pointer_payload};

// Whether an operation is on an object of a directory.
fn is_touched(objects: &BTreeMap<ObjectId, ObjectChanges>, directory: usize) -> bool
    ensures { result ≡ is_directory_touched objects.now.entries directory }
{
    objects
        .keys()
        .any(|id| id.0 as usize / ENTRY_COUNT == directory)
}

// Whether an object of a directory is there.
fn has_object_in<O: ObjectSource>(after: &O, directory: usize) -> bool
    requires { directory < pointer_count }
    ensures { result ≡ has_object (O.objects after.now) directory }
{
    let first = ENTRY_COUNT * directory;
    (first..first + ENTRY_COUNT).any(|number| after.has(ObjectId(number as u32)))
}

// Whether an object of one of the directories is there.
fn has_any_object<O: ObjectSource>(after: &O) -> bool
    ensures { result ≡ has_objects (O.objects after.now) }
{
    (0..POINTER_COUNT).any(|directory| has_object_in(after, directory))
}

// Whether the operations leave no object.
fn is_emptied<O: ObjectSource>(objects: &BTreeMap<ObjectId, ObjectChanges>, after: &O) -> bool
    ensures { result ≡ is_emptied objects.now.entries (O.objects after.now) }
{
    !objects.is_empty() && !has_any_object(after)
}

// Whether something of a directory changes: an object of it, or all are gone, so that the root has no block either.
fn is_replaced(objects: &BTreeMap<ObjectId, ObjectChanges>, emptied: bool, directory: usize) -> bool
    ensures { result ≡ (emptied || is_directory_touched objects.now.entries directory) }
{
    emptied || is_touched(objects, directory)
}

// What the sync does with a place above the records, if something below it changes, and something is left there.
fn state_of(touched: bool, left: bool) -> RecordState
    ensures { result ≡ state_above touched left }
{
    match (touched, left) {
        (false, _) => RecordState::Unchanged,
        (true, true) => RecordState::Dirty,
        (true, false) => RecordState::Hole,
    }
}

/// Plans the tree after a group whose operations do this to objects: for rising objects their dirty records rising,
/// then their indirect blocks rising, then their top; then directories rising; then the root. Each takes the lowest
/// free block. Live blocks are not overwritten (On-Disk Specification, chapter 2): what is replaced, or has no place
/// any more, comes back by its address.
///
/// `after` gives the objects after the group. The records that are written are at hand as sealed blocks (`ready`).
/// The maps of the objects that operations are on were read (`maps`): in each map the pointers in the indirect block of
/// each strip of which a record changes, and for an object of one level after the group those of all its strips. The
/// pointers before are those maps' and otherwise the tree's. The work for an object goes with the strips that were read
/// or have a record to write.
///
/// - `taken`: the blocks are whole and the lowest free ones. If each object that an operation is on has a number below
///   5,292, and only records of strips that may have blocks are written (`AreInRange`), they stand in the order of the
///   places that the definitions write, one for each.
/// - `tree`: what becomes of each place of the tree. The states of the records have to cover all that differs from
///   before (`IsCoveredBy`), and to fit the objects after (`AreChanges`). The pointers before have to be those of a
///   tree (`AreTreePointers`). Each block has a pointer to it, and the root stays if no operation is on an object.
/// - `lengths`: of each object that an operation is on, the tree has the length that it has after the group, and of any
///   other the one that it had.
/// - `entries`: the plan has an entry of each object that an operation is on.
/// - `freed`: what comes back lies in the block area, and is what the plan replaces or clears, each once if no two
///   places had blocks at one address (`AreApart`).
///
/// # Errors
/// - `NoSpace`: if the changes are in range, only if fewer blocks are free than there are places to write (`full`).
/// - `NoMemory`.
pub fn plan<O: SealedSource>(
    source: &PlanSource<'_>,
    after: &O,
    objects: &BTreeMap<ObjectId, ObjectChanges>,
) -> Result<TreePlan, PoolError>
    requires free { source.now.free.now.blocks ≡ block_count source.now.geometry }
    requires ready { AreReady (O.has_record after.now) objects.now.entries }
    requires maps { AreMapsRead source.now (O.objects after.now) objects.now.entries }
    ensures taken { IfOk result (TakesBlocks source.now (O.objects after.now) objects.now) }
    ensures tree { IfOk result (GivesTree source.now (O.objects after.now) objects.now) }
    ensures lengths { IfOk result (HasLengths source.now (O.objects after.now) objects.now) }
    ensures entries { IfOk result (HasEntries (O.objects after.now) objects.now) }
    ensures freed { IfOk result (GivesBack source.now) }
    ensures full { IfErr result
        (TellsFull source.now (O.objects after.now) objects.now.entries) }
    ensures refused { IfErr result IsWant }
{
    let mut planner = Planner {
        alloc: source.alloc,
        geometry: source.geometry,
        guid: source.guid,
        group: source.group,
        next: 0,
        blocks: Vec::new(source.alloc),
        freed: Vec::new(source.alloc),
    };
    let tree = place_tree(&mut planner, source, after, objects)?;
    Ok(TreePlan {
        blocks: planner.blocks,
        entries: tree.entries,
        directories: tree.directories,
        root: tree.root,
        freed: planner.freed,
    })
}

// The pointers of the tree after a plan.
#[derive(Drop)]
struct NewTree {
    entries: BTreeMap<ObjectId, ObjectEntry>,
    directories: Vec<Pointer>,
    root: Pointer,
}

// The objects, the directories, the root.
fn place_tree<O: SealedSource>(
    planner: &mut Planner,
    source: &PlanSource<'_>,
    after: &O,
    objects: &BTreeMap<ObjectId, ObjectChanges>,
) -> Result<NewTree, PoolError>
    requires geometry { planner.old.geometry ≡ source.now.geometry }
    requires free { source.now.free.now.blocks ≡ block_count source.now.geometry }
    requires begun { HasNothing planner.old }
    requires ready { AreReady (O.has_record after.now) objects.now.entries }
    requires maps { AreMapsRead source.now (O.objects after.now) objects.now.entries }
    ensures geometry { planner.new.geometry ≡ planner.old.geometry }
    ensures planned { IfOk result
        (PlansTree source.now (O.objects after.now) objects.now planner.old planner.new) }
    ensures full { IfErr result (λ e. AreInRange objects.now.entries (O.objects after.now)
        → TellsLack source.now.free.now planner.old
        (written_blocks (group_in source.now (O.objects after.now) objects.now.entries)) e) }
    ensures kept { OnOk result (objects.now.entries ≡ [] → planner.new ≡ planner.old) }
    ensures refused { IfErr result IsWant }
{
    let entries = place_objects(planner, source, after, objects)?;
    let directories = place_directories(planner, source, after, objects, &entries)?;
    let root = place_root(planner, source, after, objects, &directories)?;
    Ok(NewTree {
        entries,
        directories,
        root,
    })
}

// The root, if an operation is on an object.
fn place_root<O: ObjectSource>(
    planner: &mut Planner,
    source: &PlanSource<'_>,
    after: &O,
    objects: &BTreeMap<ObjectId, ObjectChanges>,
    directories: &[Pointer],
) -> Result<Pointer, PoolError>
    requires geometry { planner.old.geometry ≡ source.now.geometry }
    requires free { source.now.free.now.blocks ≡ block_count source.now.geometry }
    requires count { length directories.now ≡ pointer_count }
    ensures geometry { planner.new.geometry ≡ planner.old.geometry }
    ensures planned { IfOk result
        (PlansRoot source.now (O.objects after.now) objects.now directories.now
        planner.old planner.new) }
    ensures full { IfErr result
        (TellsLack source.now.free.now planner.old
        (count_if (is_dirty (root_state objects.now.entries (O.objects after.now))))) }
    ensures kept { OnOk result (objects.now.entries ≡ [] → planner.new ≡ planner.old) }
    ensures refused { IfErr result IsWant }
{
    let root = &source.tree.root;
    match state_of(!objects.is_empty(), has_any_object(after)) {
        RecordState::Unchanged => Ok(*root),
        RecordState::Hole => planner.clear(root),
        RecordState::Dirty => {
            planner.place(
                source.free,
                BlockPlace::Root,
                &pointer_payload(directories),
                root,
            )
        }
    }
}

fn place_objects<O: SealedSource>(
    planner: &mut Planner,
    source: &PlanSource<'_>,
    after: &O,
    objects: &BTreeMap<ObjectId, ObjectChanges>,
) -> Result<BTreeMap<ObjectId, ObjectEntry>, PoolError>
    requires geometry { planner.old.geometry ≡ source.now.geometry }
    requires free { source.now.free.now.blocks ≡ block_count source.now.geometry }
    requires ready { AreReady (O.has_record after.now) objects.now.entries }
    requires maps { AreMapsRead source.now (O.objects after.now) objects.now.entries }
    ensures geometry { planner.new.geometry ≡ planner.old.geometry }
    ensures planned { IfOk result
        (PlansObjects source.now (O.objects after.now) objects.now planner.old planner.new) }
    ensures full { IfErr result (λ e. AreInRange objects.now.entries (O.objects after.now)
        → TellsLack source.now.free.now planner.old
        (changed_blocks (group_in source.now (O.objects after.now) objects.now.entries)) e) }
    ensures kept { OnOk result (objects.now.entries ≡ [] → planner.new ≡ planner.old) }
    ensures refused { IfErr result IsWant }
{
    let mut entries = BTreeMap::new(source.alloc);
    let mut ahead = IndirectsAhead::none(source.alloc);
    for (id, changes) in objects.iter() {
        ahead.go_on(source, after, objects, *id, planner.next);
        place_changed(planner, source, after, &mut entries, *id, changes, &ahead)?;
    }
    Ok(entries)
}

// An object that operations are on.
fn place_changed<O: SealedSource>(
    planner: &mut Planner,
    source: &PlanSource<'_>,
    after: &O,
    entries: &mut BTreeMap<ObjectId, ObjectEntry>,
    id: ObjectId,
    changes: &ObjectChanges,
    ahead: &IndirectsAhead,
) -> Result<(), PoolError>
    requires geometry { planner.old.geometry ≡ source.now.geometry }
    requires free { source.now.free.now.blocks ≡ block_count source.now.geometry }
    requires ready { id.0 < object_count → IsReady (O.has_record after.now id.0) changes.now }
    requires map { id.0 < object_count
        → IsMapReadOf source.now (O.objects after.now) id changes.now }
    ensures geometry { planner.new.geometry ≡ planner.old.geometry }
    ensures planned { OnOk result
        (GoesOver source.now (O.objects after.now) id changes.now entries.old.entries
        planner.old planner.new entries.new.entries) }
    ensures full { IfErr result (λ e. (objects : List (ObjectId × ObjectChanges))
        → entry_of objects id.0 ≡ Some changes.now
        → AreInRange objects (O.objects after.now)
        → TellsLack source.now.free.now planner.old
        (object_blocks (group_in source.now (O.objects after.now) objects) id.0) e) }
    ensures refused { IfErr result IsWant }
{
    if id.0 >= OBJECT_COUNT {
        return Ok(());
    }
    let object = ChangedObject {
        id,
        is_long: is_long(after.length(id)),
        old: source.old_map(id),
        changes,
    };
    let told = entry_strips(&source.tree.entries[id.0 as usize]);
    let entry = planner.place_object(source.free, &object, after, &told, ahead)?;
    entries.insert(id, entry)?;
    Ok(())
}

fn place_directories<O: ObjectSource>(
    planner: &mut Planner,
    source: &PlanSource<'_>,
    after: &O,
    objects: &BTreeMap<ObjectId, ObjectChanges>,
    entries: &BTreeMap<ObjectId, ObjectEntry>,
) -> Result<Vec<Pointer>, PoolError>
    requires geometry { planner.old.geometry ≡ source.now.geometry }
    requires free { source.now.free.now.blocks ≡ block_count source.now.geometry }
    ensures geometry { planner.new.geometry ≡ planner.old.geometry }
    ensures count { IfOk result (λ directories. vec_len directories ≡ pointer_count) }
    ensures planned { IfOk result (λ directories. PlansDirectories
        source.now (O.objects after.now) objects.now entries.now
        planner.old planner.new directories.items) }
    ensures full { IfErr result
        (TellsLack source.now.free.now planner.old
        (directory_blocks objects.now.entries (O.objects after.now))) }
    ensures kept { OnOk result (objects.now.entries ≡ [] → planner.new ≡ planner.old) }
    ensures refused { IfErr result IsWant }
{
    let emptied = is_emptied(objects, after);
    let mut directories = Vec::with_capacity(source.alloc, POINTER_COUNT)?;
    for index in 0..POINTER_COUNT {
        let touched = is_replaced(objects, emptied, index);
        let pointer = place_directory(planner, source, after, entries, index, touched)?;
        directories.push_reserved(pointer);
    }
    Ok(directories)
}

// A directory, if something of it changes.
fn place_directory<O: ObjectSource>(
    planner: &mut Planner,
    source: &PlanSource<'_>,
    after: &O,
    entries: &BTreeMap<ObjectId, ObjectEntry>,
    index: usize,
    touched: bool,
) -> Result<Pointer, PoolError>
    requires geometry { planner.old.geometry ≡ source.now.geometry }
    requires free { source.now.free.now.blocks ≡ block_count source.now.geometry }
    requires index { index < pointer_count }
    ensures geometry { planner.new.geometry ≡ planner.old.geometry }
    ensures planned { IfOk result
        (PlansDirectory source.now (O.objects after.now) entries.now index touched
        planner.old planner.new) }
    ensures full { IfErr result (TellsLack source.now.free.now planner.old
        (count_if (is_dirty (state_above touched (has_object (O.objects after.now) index))))) }
    ensures kept { OnOk result (touched ≡ false → planner.new ≡ planner.old) }
    ensures refused { IfErr result IsWant }
{
    let old = source.tree.directories[index];
    if !touched {
        return Ok(old);
    }
    if !has_object_in(after, index) {
        return planner.clear(&old);
    }
    let payload = directory_payload(after, source, entries, index);
    planner.place(source.free, BlockPlace::Directory(index), &payload, &old)
}
