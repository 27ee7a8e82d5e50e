//! What a plan is made of.

use base::{Group, ObjectId};
use labels::Geometry;
use space::FreeSet;
use std::alloc::Global;
use std::collections::BTreeMap;
use tree_blocks::{ObjectMap, Tree};

/// What a plan is made of, beside the objects.
#[derive(Clone, Copy)]
pub struct PlanSource<'a> {
    /// Where the memory of the plan comes from.
    pub alloc: Global,
    /// The size of the device.
    pub geometry: Geometry,
    /// The guid of the pool.
    pub guid: u64,
    /// The group that is synced.
    pub group: Group,
    /// The pointers and lengths before the group.
    pub tree: &'a Tree,
    /// The maps before the group that were read, one of each object that an operation is on: its top's pointers, and
    /// those in the indirect block of each strip that the group changes, or of all its strips if the object has one
    /// level after the group. What wasn't read is as the tree tells it.
    pub old_maps: &'a BTreeMap<ObjectId, ObjectMap>,
    /// The blocks that may be taken.
    pub free: &'a FreeSet,
}

impl PlanSource<'_> {
    ghost use Rattle.std.specs.Prelude.{◌≡◌, is_some, Some, true};
    ghost use Rattle.tree_plans.specs.Pointers.{entry_of};

    /// The map before the group of an object of which it was read.
    pub fn old_map(&self, id: ObjectId) -> &ObjectMap
        requires { is_some (entry_of self.now.old_maps.now.entries id.0) ≡ true }
        ensures { entry_of self.now.old_maps.now.entries id.0 ≡ Some result.now }
    {
        let Some(map) = self.old_maps.get(&id) else {
            unreachable!()
        };
        map
    }
}
