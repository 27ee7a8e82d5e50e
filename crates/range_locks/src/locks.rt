//! The table of held range locks (`zfs_rlock.c`).
//!
//! Locks are named by the number of grants before them, so no name is used twice, and are held in order of grant. Of
//! two held locks that overlap, whoever owns them, both are of readers.

ghost use Rattle.std.specs.Prelude.{◌≡◌, [], IsOk, IfOk, IfErr, OnOk, OnErr, IsSome, ◌↔◌};
ghost use Rattle.std.specs.List.{list_any};
ghost use Rattle.base.specs.history.Plans.{lies_in, number_range};
ghost use Rattle.range_locks.specs.Locks.{blocks_own, covers, covers_for_writing, grant_of};

use crate::held::{HeldLock, HeldPiece};
use crate::numbers::Numbers;
use crate::table::{HeldLocks, HeldTable};
use base::{
    LAST_NUMBER, LockId, MAX_LENGTH, MAX_LOCKS, Mode, OBJECT_COUNT, ObjectId, ObjectRange, Owner,
    PoolError, Range,
};
use std::alloc::Global;
use std::marker::Model;

/// The held range locks in order of grant, and the number of grants so far. Contracts see these two.
#[derive(Drop)]
pub struct RangeLocks {
    held: HeldTable,
    numbers: Numbers,
}

impl Model for RangeLocks {
    ghost use Rattle.std.specs.Prelude.{map};
    ghost use Rattle.range_locks.specs.Locks.{LockTable, grant_of};
    ghost use Rattle.range_locks.specs.Parts.{AreAllCounted};

    ghost Value = { LockTable };

    ghost view = { λ a. record { locks = map grant_of a.held.entries; next = a.held.next } };

    ghost invariant = { λ a. AreAllCounted (record { locks = map grant_of a.held.entries; next = a.held.next }) a.numbers.parts };
}

impl RangeLocks {
    ghost use Rattle.std.specs.Option.{option_map_or};
    ghost use Rattle.std.specs.Prelude.{option_map, map, length, ◌≤◌, ◌<◌, false};
    ghost use Rattle.std.specs.List.{find};
    ghost use Rattle.std.specs.Map.Iter.{ShowsInOrder, deref_pair};
    ghost use Rattle.base.specs.formats.Limits.{max_locks};
    ghost use Rattle.base.specs.steps.Locks.{AreLocksSound, is_blocked, is_covered, is_covered_for_writing};
    ghost use Rattle.range_locks.specs.Locks.{AnswersBy, Appends, first_append_refusal, GrantsOne, grant_of, is_blocked_by_own, is_named, first_lock_refusal, without};
    ghost use Rattle.range_locks.specs.Pieces.{pieces_of};

    /// No locks. It takes no memory.
    pub fn new(alloc: Global) -> Self
        ensures none { result.locks ≡ [] }
        ensures next { result.next ≡ 0 }
    {
        RangeLocks {
            held: HeldTable::new(alloc),
            numbers: Numbers::new(alloc),
        }
    }

    /// Grants a lock, and answers its name: the number of grants before it.
    ///
    /// # Errors
    /// In this order: `BadRange` where the number is above that of the pool's name, or the range is not one that may be
    /// locked; `Busy` exactly if it overlaps a held lock and not both are of readers; `TooMany` where 256 locks are
    /// held or the next name is past the last one; `NoMemory` where a growth of the table is refused. Then nothing has
    /// changed.
    pub fn lock(
        &mut self,
        owner: Owner,
        range: ObjectRange,
        mode: Mode,
    ) -> Result<LockId, PoolError>
        ensures refused { AnswersBy (first_lock_refusal (number_range range) mode self.old) result }
        ensures granted { IfOk result
            (λ id. GrantsOne id owner (number_range range) mode self.old self.new) }
        ensures unchanged { OnErr result (self.new ≡ self.old) }
    {
        if range.object.0 > OBJECT_COUNT || !range.range.is_allowed() {
            return Err(PoolError::BadRange);
        }
        let place = self.numbers.place_of(range.object);
        if self.numbers.blocks(place, &range, mode) {
            return Err(PoolError::Busy);
        }
        if self.held.len() >= MAX_LOCKS || self.held.next_name().0 > LAST_NUMBER {
            return Err(PoolError::TooMany);
        }
        self.held.make_room()?;
        let id = self.held.next_name();
        self.numbers.add(place, &range, id, mode)?;
        Ok(self.held.insert(HeldLock { owner, range, mode }))
    }

    /// Grants a writer lock from the end of an object to the top of each range, and answers its name and its range. The
    /// length is the object's, `None` where there is no such object.
    ///
    /// # Errors
    /// In this order: `BadRange` where the number is no object's, `NoObject` where the object has no length, `BadRange`
    /// where its length is the greatest, and then as `lock`.
    pub fn lock_append(
        &mut self,
        owner: Owner,
        object: ObjectId,
        length: Option<u64>,
    ) -> Result<(LockId, Range), PoolError>
        ensures refused { AnswersBy (first_append_refusal object.0 length self.old) result }
        ensures granted { IfOk result
            (λ a. Appends a.0 a.1 owner object length self.old self.new) }
        ensures unchanged { OnErr result (self.new ≡ self.old) }
    {
        if object.0 >= OBJECT_COUNT {
            return Err(PoolError::BadRange);
        }
        let Some(low) = length else {
            return Err(PoolError::NoObject);
        };
        let range = Range {
            low,
            high: MAX_LENGTH,
        };
        let id = self.lock(owner, ObjectRange { object, range }, Mode::Writer)?;
        Ok((id, range))
    }

    /// The owner's lock of this name.
    pub fn find(&self, owner: Owner, id: LockId) -> Option<&HeldLock>
        ensures { option_map (λ lock. grant_of (id, lock.now)) result
            ≡ find (is_named id.0 owner.0) self.now.locks }
    {
        match self.held.get(id) {
            Some(lock) if lock.owner.0 == owner.0 => Some(lock),
            _ => None,
        }
    }

    /// Lets a lock go. It takes no memory.
    ///
    /// # Errors
    /// `NoSuchLock` where the owner holds no lock of this name.
    pub fn unlock(&mut self, owner: Owner, id: LockId) -> Result<(), PoolError>
        ensures found { IsOk result ↔ IsSome (find (is_named id.0 owner.0) self.old.locks) }
        ensures refused { IfErr result (λ e. e ≡ PoolError.NoSuchLock) }
        ensures let_go { OnOk result (self.new ≡ without id.0 self.old) }
        ensures unchanged { OnErr result (self.new ≡ self.old) }
    {
        let Some(lock) = self.find(owner, id) else {
            return Err(PoolError::NoSuchLock);
        };
        let HeldLock { range, mode, .. } = *lock;
        self.held.let_go(id);
        self.numbers.remove(&range, mode);
        Ok(())
    }

    /// Whether one lock of the owner covers a range.
    pub fn covers(&self, owner: Owner, range: &ObjectRange) -> bool
        ensures { result ≡ is_covered owner.0 (number_range range.now) self.now.locks }
    {
        if range.range.low < range.range.high {
            let part = self.numbers.part_at(range.object, range.range.low);
            if let Some(id) = part.writer {
                return self.lock_covers(owner, id, range);
            }
            if part.readers == 0 {
                return false;
            }
        }
        any_covers(&self.held, owner, range)
    }

    /// Whether one writer lock of the owner covers a range.
    pub fn covers_for_writing(&self, owner: Owner, range: &ObjectRange) -> bool
        ensures { result
            ≡ is_covered_for_writing owner.0 (number_range range.now) self.now.locks }
    {
        if range.range.low < range.range.high {
            let part = self.numbers.part_at(range.object, range.range.low);
            return match part.writer {
                Some(id) => self.lock_covers(owner, id, range),
                None => false,
            };
        }
        any_covers_for_writing(&self.held, owner, range)
    }

    /// Whether the owner's lock of this name covers a range.
    fn lock_covers(&self, owner: Owner, id: LockId, range: &ObjectRange) -> bool
        ensures { result ≡ option_map_or (λ g. lies_in (number_range range.now) g.range)
            (find (is_named id.0 owner.0) self.now.locks) false }
    {
        match self.find(owner, id) {
            Some(lock) => range.lies_in(&lock.range),
            None => false,
        }
    }

    /// Whether a lock that the owner holds itself overlaps a range, and not both are of readers. Then only the owner
    /// can make way for a lock of that range.
    pub fn is_blocked_by_own(&self, owner: Owner, range: &ObjectRange, mode: Mode) -> bool
        ensures { result
            ≡ is_blocked_by_own owner.0 (number_range range.now) mode self.now.locks }
    {
        any_own_blocks(&self.held, owner, range, mode)
    }

    /// The held locks in order of grant, each with its name.
    pub fn held(&self) -> HeldLocks<'_>
        ensures locks { map grant_of result ≡ self.now.locks }
        ensures sound { AreLocksSound self.now.locks }
        ensures count { length result ≤ max_locks }
        ensures runs { ShowsInOrder (deref_pair {K = LockId} {X = HeldLock}) }
    {
        self.held.iter()
    }

    /// The pieces of a number, rising: the parts between neighbouring ends of its held locks that some lock covers.
    ///
    /// # Errors
    /// `NoMemory`.
    pub fn pieces(&self, number: ObjectId) -> Result<Vec<HeldPiece>, PoolError>
        ensures pieces { IfOk result
            (λ pieces. pieces.items ≡ pieces_of number.0 self.now.locks) }
        ensures refused { IfErr result (λ e. e ≡ PoolError.NoMemory) }
    {
        self.numbers.pieces(number)
    }

    /// The name of the next lock: the number of grants so far.
    pub fn next_name(&self) -> LockId
        ensures { result.0 ≡ self.now.next }
    {
        self.held.next_name()
    }
}

fn any_covers(held: &HeldTable, owner: Owner, range: &ObjectRange) -> bool
    ensures { result
        ≡ list_any (λ e. covers owner.0 (number_range range.now) (grant_of e)) held.now.entries }
{
    held.iter().any(|(_, lock)| lock.owner.0 == owner.0 && range.lies_in(&lock.range))
}

fn any_own_blocks(held: &HeldTable, owner: Owner, range: &ObjectRange, mode: Mode) -> bool
    ensures { result
        ≡ list_any (λ e. blocks_own owner.0 (number_range range.now) mode (grant_of e))
        held.now.entries }
{
    held.iter().any(|(_, lock)| lock.owner.0 == owner.0
        && (lock.range.overlaps(range) && !(lock.mode.is_reader() && mode.is_reader())))
}

fn any_covers_for_writing(held: &HeldTable, owner: Owner, range: &ObjectRange) -> bool
    ensures { result
        ≡ list_any (λ e. covers_for_writing owner.0 (number_range range.now) (grant_of e))
        held.now.entries }
{
    held.iter().any(|(_, lock)| !lock.mode.is_reader()
        && (lock.owner.0 == owner.0 && range.lies_in(&lock.range)))
}
