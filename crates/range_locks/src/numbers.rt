//! The parts of each number that held locks are of, so that a lock costs the same whatever other numbers have locks.

ghost use Rattle.std.specs.Prelude.{ℕ, ◌≡◌, ◌≢◌, ◌≤◌, ◌<◌, false, None, Some, IfSome, IfOk, OnOk, OnErr, IfErr};
ghost use Rattle.base.specs.history.Plans.{number_range};
ghost use Rattle.base.specs.steps.Locks.{is_blocked};
ghost use Rattle.range_locks.specs.declared.parts.Parts.{Parts};
ghost use Rattle.range_locks.specs.Locks.{LockTable};
ghost use Rattle.range_locks.specs.Pieces.{pieces_of};
ghost use Rattle.range_locks.specs.Parts.{AreAllCounted, BecomesOf, CanRecount, change_of_grant, change_of_release, HasCounts, HasNoParts, HoldsOf, IsPlaceOf, IsTableOf, most_counted, parts_of, with_lock, without_lock};

use crate::held::HeldPiece;
use crate::parts::{NOTHING, Part, Parts};
use base::{LockId, Mode, ObjectId, ObjectRange, PoolError};
use indexmap::IndexMap;
use std::alloc::Global;

/// The parts by number. A number that no held lock is of has none.
#[derive(Drop)]
pub(crate) struct Numbers {
    parts: IndexMap<u32, Parts>,
    ghost none_empty: { (n : ℕ) (p : Parts) → parts_of parts n ≡ Some p → HasNoParts p.table → ⊥ },
}

impl Numbers {
    /// No parts. It takes no memory.
    pub fn new(alloc: Global) -> Self
        ensures { (n : ℕ) → parts_of result.parts n ≡ None }
    {
        Numbers {
            parts: IndexMap::new(alloc),
        }
    }

    /// What covers an offset of a number, and how many locks begin or end there.
    pub fn part_at(&self, number: ObjectId, at: u64) -> Part
        ensures { HoldsOf (parts_of self.now.parts number.0) (λ f. result ≡ f at) }
    {
        match self.parts.get(&number.0) {
            Some(parts) => parts.part_at(at),
            None => NOTHING,
        }
    }

    /// The place of a number's parts in the table, if it has some. A call that is handed it needn't find them again.
    pub fn place_of(&self, number: ObjectId) -> Option<usize>
        ensures { IsPlaceOf self.now.parts number.0 result }
    {
        match self.parts.get_full(&number.0) {
            Some((place, _, _)) => Some(place),
            None => None,
        }
    }

    /// One more lock covers a range of the number whose place is given. If there is no memory, it is refused, and
    /// nothing has changed.
    pub fn add(
        &mut self,
        place: Option<usize>,
        range: &ObjectRange,
        id: LockId,
        mode: Mode,
    ) -> Result<(), PoolError>
        requires place { IsPlaceOf self.old.parts range.now.object.0 place }
        requires ordered { range.now.range.low ≤ range.now.range.high }
        requires counted { IfSome (parts_of self.old.parts range.now.object.0)
            (λ parts. HasCounts most_counted parts.table) }
        ensures added { OnOk result (HoldsOf (parts_of self.old.parts range.now.object.0)
            (λ f. IsTableOf (parts_of self.new.parts range.now.object.0)
            (with_lock range.now.range (change_of_grant id mode) f))) }
        ensures unchanged { OnErr result (HoldsOf (parts_of self.old.parts range.now.object.0)
            (λ f. IsTableOf (parts_of self.new.parts range.now.object.0) f)) }
        ensures others { (n : ℕ) → n ≢ range.now.object.0
            → parts_of self.new.parts n ≡ parts_of self.old.parts n }
        ensures refused { IfErr result (λ e. e ≡ PoolError.NoMemory) }
    {
        if let Some(place) = place {
            let parts = self.parts.get_index_mut(place).unwrap();
            return parts.add(range.range, id, mode);
        }
        self.parts.reserve(1)?;
        let mut parts = Parts::new(*self.parts.allocator());
        parts.add(range.range, id, mode)?;
        self.parts.insert(range.object.0, parts).unwrap();
        Ok(())
    }

    /// One lock fewer covers a range. A number without parts is released. It takes no memory.
    pub fn remove(&mut self, range: &ObjectRange, mode: Mode)
        requires ordered { range.now.range.low ≤ range.now.range.high }
        requires counted { IfSome (parts_of self.old.parts range.now.object.0)
            (λ parts. CanRecount range.now.range (change_of_release mode) parts.table) }
        ensures removed { BecomesOf (parts_of self.old.parts range.now.object.0)
            (without_lock range.now.range (change_of_release mode))
            (parts_of self.new.parts range.now.object.0) }
        ensures others { (n : ℕ) → n ≢ range.now.object.0
            → parts_of self.new.parts n ≡ parts_of self.old.parts n }
    {
        let Some(place) = self.place_of(range.object) else {
            return;
        };
        let parts = self.parts.get_index_mut(place).unwrap();
        parts.remove(range.range, mode);
        if parts.is_empty() {
            self.parts.swap_remove_index(place);
        }
    }

    /// Whether some part of a range keeps a lock of this mode away. The place is that of the range's number.
    pub fn blocks(&self, place: Option<usize>, range: &ObjectRange, mode: Mode) -> bool
        requires place { IsPlaceOf self.now.parts range.now.object.0 place }
        requires some_bytes { range.now.range.low < range.now.range.high }
        ensures { (held : LockTable) → AreAllCounted held self.now.parts
            → result ≡ is_blocked (number_range range.now) mode held.locks }
    {
        match place {
            Some(place) => self.parts[place].blocks(range.range, mode),
            None => false,
        }
    }

    /// The pieces of a number, rising.
    pub fn pieces(&self, number: ObjectId) -> Result<Vec<HeldPiece>, PoolError>
        ensures pieces { IfOk result (λ pieces. (held : LockTable)
            → AreAllCounted held self.now.parts → pieces.items ≡ pieces_of number.0 held.locks) }
        ensures refused { IfErr result (λ e. e ≡ PoolError.NoMemory) }
    {
        let alloc = *self.parts.allocator();
        match self.parts.get(&number.0) {
            Some(parts) => parts.pieces(alloc),
            None => Ok(Vec::new(alloc)),
        }
    }
}
