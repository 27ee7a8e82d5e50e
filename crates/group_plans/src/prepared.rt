//! The objects after a group, of which the records that change are at hand. So a plan of them reads nothing.

ghost use Rattle.std.specs.Prelude.{◌≡◌, ◌<◌, ◌+◌, ◌*◌, ℕ, IfErr, None, OnOk, is_some, length, true};
ghost use Rattle.base.specs.declared.error.PoolError.TheVariants as error;
ghost use Rattle.base.specs.formats.Limits.{record_count, record_size};
ghost use Rattle.tree_blocks.specs.Sources.{object_bytes};
ghost use Rattle.group_plans.specs.GroupPlans.{objects_with};
ghost use Rattle.group_plans.specs.Prepared.{AreClearedPast, IsClearedPast, KeepsFront, KeepsHand, PutsRecord, at_hand, with_records};

use base::{Bytes, ObjectId, PoolError, RECORD_SIZE};
use extents::{Extents, Laid};
use std::alloc::Global;
use std::collections::BTreeMap;
use tree_blocks::{ObjectSource, RECORD_COUNT, Tree};

// The objects that a tree has with the changes of a group laid over them. Some of their records are at hand, and
// stand in the place of their own.
#[derive(Drop)]
pub(crate) struct PreparedObjects<'a> {
    alloc: Global,
    pub(crate) extents: &'a Extents,
    pub(crate) tree: &'a Tree,
    pub(crate) records: BTreeMap<u64, Bytes>,
    ghost cut: { AreClearedPast (at_hand records) (objects_with extents.now tree.now) },
}

// The number of a record among those of all objects.
#[tactic(auto, unfolding(base::specs::formats::Limits::record_count))]
pub(crate) fn record_number(id: ObjectId, index: usize) -> u64
    requires { index < record_count }
    ensures { result ≡ record_count * id.0 + index }
{
    RECORD_COUNT as u64 * id.0 as u64 + index as u64
}

impl<'a> PreparedObjects<'a> {
    // The objects of a tree with the changes laid over them, of which no record is at hand.
    pub(crate) fn new(alloc: Global, extents: &'a Extents, tree: &'a Tree) -> Self
        ensures extents { result.extents.now ≡ extents.now }
        ensures below { result.tree.now ≡ tree.now }
        ensures none { (n r : ℕ) → at_hand result.records n r ≡ None }
    {
        PreparedObjects {
            alloc,
            extents,
            tree,
            records: BTreeMap::new(alloc),
        }
    }

    // Clears what lies past an object's end in one of its records.
    #[tactic(auto, unfolding(base::specs::formats::Limits::record_count))]
    fn cut(&self, id: ObjectId, index: usize, payload: &mut [u8])
        requires index { index < record_count }
        requires size { length payload.old ≡ record_size }
        ensures cut { IsClearedPast
            (object_bytes (objects_with self.now.extents.now self.now.tree.now) id.0)
            index payload.new }
        ensures kept { KeepsFront
            (object_bytes (objects_with self.now.extents.now self.now.tree.now) id.0)
            index payload.old payload.new }
    {
        let length = Laid::new(self.extents, self.tree).length(id).unwrap_or(0) as usize;
        let end = RECORD_SIZE.min(length.saturating_sub(RECORD_SIZE * index));
        payload[end..].fill(0);
    }

    // Puts a record of an object at hand. What lies past the object's end becomes zeros. It is refused `NoMemory`.
    pub(crate) fn put(
        &mut self,
        id: ObjectId,
        index: usize,
        payload: &mut [u8],
    ) -> Result<(), PoolError>
        requires index { index < record_count }
        requires size { length payload.old ≡ record_size }
        ensures extents { self.new.extents.now ≡ self.old.extents.now }
        ensures below { self.new.tree.now ≡ self.old.tree.now }
        ensures cut { IsClearedPast
            (object_bytes (objects_with self.old.extents.now self.old.tree.now) id.0)
            index payload.new }
        ensures front { KeepsFront
            (object_bytes (objects_with self.old.extents.now self.old.tree.now) id.0)
            index payload.old payload.new }
        ensures put { OnOk result (PutsRecord id.0 index payload.new
            (at_hand self.old.records) (at_hand self.new.records)) }
        ensures kept { KeepsHand (at_hand self.old.records) (at_hand self.new.records) }
        ensures refused { IfErr result (λ e. e ≡ error.NoMemory) }
    {
        self.cut(id, index, payload);
        let bytes = Bytes::from_slice(self.alloc, payload)?;
        self.records.insert(record_number(id, index), bytes)?;
        Ok(())
    }
}
