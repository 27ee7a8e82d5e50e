//! What callers rest on: one function for each promise of this crate's calls, proved from the contract of the call
//! alone. So it is refused as soon as that contract says less.

ghost use Rattle.std.specs.Prelude.{◌≡◌, ◌≤◌, IfOk, None, Some, false, length, map, true};
ghost use Rattle.std.specs.Global.{Vec};
ghost use Rattle.std.specs.FinMap as finite;
ghost use Rattle.base.specs.formats.Geometry.{block_address};
ghost use Rattle.base.specs.formats.Fields.{no_pointer};
ghost use Rattle.base.specs.declared.pointer.Pointer.{Pointer};
ghost use Rattle.tree_blocks.specs.Pointers.{pointer_of_list};
ghost use Rattle.tree_blocks.specs.Sources.{object_length};
ghost use Rattle.tree_blocks.specs.TreeObjects.{objects_of};
ghost use Rattle.tree_plans.specs.declared.changes.ObjectChanges.{ObjectChanges};
ghost use Rattle.tree_blocks.specs.declared.object_map.ObjectMap.{ObjectMap};
ghost use Rattle.tree_plans.specs.Changes.{has_two_levels, is_strip_touched};
ghost use Rattle.tree_plans.specs.Pointers.{entry_of};
ghost use Rattle.tree_blocks.specs.ReadPointers.{records_among};
ghost use Rattle.group_plans.specs.GroupPlans.{objects_with};

use crate::old_maps::read_maps;
use crate::planning::GroupSource;
use base::{ObjectId, PoolError};
use checked_blocks::Frame;
use extents::Extents;
use object_maps::BlockReader;
use std::collections::BTreeMap;
use tree_blocks::ObjectMap;
use tree_plans::ObjectChanges;

// An object of 8,064 bytes has the records 0 and 1: the map that is read of it has no pointer to record 2.
fn a_map_has_no_pointer_past_the_end<B: BlockReader>(
    reader: &mut B,
    frame: &Frame,
    source: &GroupSource<'_>,
    extents: &Extents,
    objects: &BTreeMap<ObjectId, ObjectChanges>,
) -> Result<BTreeMap<ObjectId, ObjectMap>, PoolError>
    requires fits { block_address frame.now.blocks ≤ B.size reader.old }
    requires length { object_length (objects_of source.now.tree.now) 7 ≡ Some 8064 }
    ensures { IfOk result (λ maps. (m : ObjectMap) (v : Vec Pointer)
        → entry_of maps.entries 7 ≡ Some m → records_among m.strips.entries 0 ≡ Some v
        → pointer_of_list v.items 2 ≡ no_pointer) }
{
    read_maps(reader, frame, source, extents, objects)
}

// If an object has two levels after a group that changes no record of its strip 1, its map has no pointers in it.
fn an_untouched_strip_of_a_long_object_is_in_no_map<B: BlockReader>(
    reader: &mut B,
    frame: &Frame,
    source: &GroupSource<'_>,
    extents: &Extents,
    objects: &BTreeMap<ObjectId, ObjectChanges>,
) -> Result<BTreeMap<ObjectId, ObjectMap>, PoolError>
    requires fits { block_address frame.now.blocks ≤ B.size reader.old }
    requires long { has_two_levels
        (finite.get (objects_with extents.now source.now.tree.now) 7) ≡ true }
    ensures { IfOk result (λ maps. (m : ObjectMap) (changes : ObjectChanges)
        → entry_of objects.now.entries 7 ≡ Some changes → is_strip_touched changes 1 ≡ false
        → entry_of maps.entries 7 ≡ Some m → records_among m.strips.entries 1 ≡ None) }
{
    read_maps(reader, frame, source, extents, objects)
}
