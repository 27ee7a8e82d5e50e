//! What the unsynced groups made of the objects of a pool.
//!
//! At most three groups are unsynced: one that is written out, one that quiesces and the open one. Each has a place,
//! the oldest one place 0, and keeps what it made until it is synced: then the tree has it, and the others move up by
//! one place. So the contents are the objects of the tree with the changes at places 0, 1 and 2 laid over them, and the
//! name is that of the newest group that gives one, else the synced one. A transaction of an older group that is
//! committed late names the pool only if no newer group has: both touch the name, so the newer one would wait.

ghost use Rattle.std.specs.Prelude.{ℕ, ◌≡◌, ◌<◌, true, None, Some, OnOk};
ghost use Rattle.std.specs.List.{list_all};

use base::{ObjectId, Op, PoolName};
use extents::{Extents, Laid};
use std::alloc::{AllocError, Global};
use std::mem;
use tree_blocks::ObjectSource;

/// The changes of the unsynced groups, oldest first: at most three are there, one that is written out, one that
/// quiesces and the open one.
#[derive(Drop)]
pub struct UnsyncedExtents {
    alloc: Global,
    oldest: Extents,
    second: Extents,
    third: Extents,
}

impl UnsyncedExtents {
    ghost use Rattle.std.specs.Prelude.{◌+◌, ◌*◌, ◌≤◌, IsTrue, length};
    ghost use Rattle.base.specs.formats.Limits.{record_count, record_size};
    ghost use Rattle.unsynced_extents.specs.LaidReads.{HidesAll, LaysOnAll};
    ghost use Rattle.base.specs.formats.Records.{is_content_allowed};
    ghost use Rattle.contents.specs.Ops.{AreOpsAllowed};
    ghost use Rattle.extents.specs.Patches.{no_patch};
    ghost use Rattle.unsynced_extents.specs.Unsynced.{AppliesAt, CanApplyAt, CanStillApplyAt, KeepsOtherPlaces, LeavesChanges, MovesUp, RoomMovesUp, changes_at, extents_at, laid_all, name_at, name_over};

    /// No changes of any group. It takes no memory.
    pub fn new(alloc: Global) -> Self
        ensures patches { (place n : ℕ) → changes_at result place n ≡ no_patch }
        ensures names { (place : ℕ) → name_at result place ≡ None }
    {
        UnsyncedExtents {
            alloc,
            oldest: Extents::new(alloc),
            second: Extents::new(alloc),
            third: Extents::new(alloc),
        }
    }

    /// Takes the room that operations of the group at a place need, so that `apply` takes no memory. What the groups
    /// made stays, and so does the room that was taken before.
    ///
    /// # Errors
    /// If no memory is left.
    pub fn reserve(&mut self, place: usize, ops: &[Op]) -> Result<(), AllocError>
        requires place { place < 3 }
        requires allowed { AreOpsAllowed ops.now }
        ensures room { OnOk result (CanApplyAt place self.new ops.now) }
        ensures bytes { OnOk result (list_all is_content_allowed ops.now ≡ true) }
        ensures same { LeavesChanges self.old self.new }
        ensures others { KeepsOtherPlaces place self.old self.new }
        ensures kept { CanStillApplyAt self.old self.new }
    {
        match place {
            0 => self.oldest.reserve(ops),
            1 => self.second.reserve(ops),
            _ => self.third.reserve(ops),
        }
    }

    /// Adds operations that have their room to what the group at a place made, in order. It takes no memory, and all
    /// room stays.
    pub fn apply(&mut self, place: usize, ops: &[Op])
        requires place { place < 3 }
        requires allowed { AreOpsAllowed ops.now }
        requires room { CanApplyAt place self.old ops.now }
        ensures applied { AppliesAt place ops.now self.old self.new }
        ensures others { KeepsOtherPlaces place self.old self.new }
        ensures kept { CanStillApplyAt self.old self.new }
    {
        match place {
            0 => self.oldest.apply(ops),
            1 => self.second.apply(ops),
            _ => self.third.apply(ops),
        }
    }

    /// What the oldest group made. It takes no memory.
    pub fn oldest(&self) -> &Extents
        ensures { Some result.now ≡ extents_at self.now 0 }
    {
        &self.oldest
    }

    /// The name that the newest of the groups gives that give one, or else the synced one. It takes no memory.
    pub fn name_over<'a>(&'a self, synced: &'a PoolName) -> &'a PoolName
        ensures { result.now ≡ name_over self.now synced.now }
    {
        let oldest = self.oldest.name_over(synced);
        let second = self.second.name_over(oldest);
        self.third.name_over(second)
    }

    /// The objects of a source with the changes of all groups laid over them. It takes no memory.
    pub fn over<'a, O: ObjectSource>(&'a self, below: O) -> Laid<'a, Laid<'a, Laid<'a, O>>>
        ensures { ⟦<Laid<'a, Laid<'a, Laid<'a, O>>> as ObjectSource>⟧.objects result
            ≡ laid_all self.now (O.objects below) }
    {
        let oldest = Laid::new(&self.oldest, below);
        let second = Laid::new(&self.second, oldest);
        Laid::new(&self.third, second)
    }

    /// Whether a group hides all of so many bytes of a record of an object of the synced tree, from the offset `start`
    /// in it on: none of them is seen then.
    pub fn hides(&self, id: ObjectId, index: usize, start: usize, count: usize) -> bool
        requires index { index < record_count }
        requires within { start + count ≤ record_size }
        ensures { IsTrue result → HidesAll self.now id.0 (record_size * index + start) count }
    {
        self.third.hides(id, index, start, count)
            || self.second.hides(id, index, start, count)
            || self.oldest.hides(id, index, start, count)
    }

    /// Makes of bytes of a record of an object of the synced tree, from the offset `start` in it on, those of the
    /// object with the changes of all groups, which is there. If a group hides them all, anything may be in `into`. It
    /// takes no memory.
    pub fn lay_on(&self, id: ObjectId, index: usize, start: usize, into: &mut [u8])
        requires index { index < record_count }
        requires within { start + length into.old ≤ record_size }
        ensures size { length into.new ≡ length into.old }
        ensures bytes { LaysOnAll self.now id.0 (record_size * index + start) into.old into.new }
    {
        self.oldest.lay_on(id, index, start, into);
        self.second.lay_on(id, index, start, into);
        self.third.lay_on(id, index, start, into);
    }

    /// The oldest group is synced: its changes go, the other groups move up by one place with their room, and the group
    /// at the last place has no changes. It takes no memory.
    pub fn drop_oldest(&mut self)
        ensures changes { MovesUp self.old self.new }
        ensures room { RoomMovesUp self.old self.new }
    {
        let third = mem::replace(&mut self.third, Extents::new(self.alloc));
        self.oldest = mem::replace(&mut self.second, third);
    }
}
