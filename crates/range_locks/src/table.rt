//! The held locks by name, in order of grant.
//!
//! A lock that is released leaves its place empty, so that those after it needn't move. Where there are twice as many
//! places as locks may be held, the empty ones are swept out: these are at least half of them, so on average a lock
//! costs the same however many are held.

ghost use Rattle.std.specs.Prelude.{◌≡◌, ◌+◌, ◌<◌, ◌≤◌, ◌^◌, [], ◌∷◌, ◌++◌, length, IsSome, OnOk, nat_eq, filter, is_some};
ghost use Rattle.std.specs.Iterator.{at_most};
ghost use Rattle.std.specs.Option.{option_copied};
ghost use Rattle.std.specs.Map.{lookup, remove_entry};
ghost use Rattle.std.specs.Map.Iter.{ShowsInOrder, TakesFirst, deref_pair};
ghost use Rattle.base.specs.formats.Limits.{last_number};

use crate::held::HeldLock;
use base::{LockId, MAX_LOCKS};
use indexmap::IndexMap;
use indexmap::map::Iter;
use std::alloc::{AllocError, Global};
use std::marker::Model;

/// The held locks, and the name of the next one.
#[derive(Drop)]
pub(crate) struct HeldTable {
    /// By name, rising: `None` is where a lock was released.
    places: IndexMap<LockId, Option<HeldLock>>,
    /// How many are held.
    count: usize,
    /// The number of grants so far.
    next: u64,
}

impl Model for HeldTable {
    ghost use Rattle.std.specs.HashMap.{spare};
    ghost use Rattle.range_locks.specs.Table.{ArePlaces, HeldEntries, held_in};

    ghost Value = { HeldEntries };

    ghost view = { λ a. record { entries = held_in a.places.entries; next = a.next; room = spare a.places } };

    ghost invariant = { λ a. ArePlaces a.places.entries a.count a.next };
}

impl HeldTable {
    /// No locks. It takes no memory.
    pub fn new(alloc: Global) -> Self
        ensures none { result.entries ≡ [] }
        ensures next { result.next ≡ 0 }
    {
        HeldTable {
            places: IndexMap::new(alloc),
            count: 0,
            next: 0,
        }
    }

    /// How many locks are held.
    pub fn len(&self) -> usize
        ensures { result ≡ length self.now.entries }
    {
        self.count
    }

    /// The name of the next lock: the number of grants so far.
    pub fn next_name(&self) -> LockId
        ensures { result.0 ≡ self.now.next }
    {
        LockId(self.next)
    }

    /// The lock of a name.
    pub fn get(&self, id: LockId) -> Option<&HeldLock>
        ensures value { option_copied result ≡ lookup (λ k. nat_eq id.0 k.0) self.now.entries }
    {
        match self.places.get(&id) {
            Some(place) => place.as_ref(),
            None => None,
        }
    }

    /// Makes room for one more lock.
    pub fn make_room(&mut self) -> Result<(), AllocError>
        ensures room { OnOk result (0 < self.new.room) }
        ensures entries { self.new.entries ≡ self.old.entries }
        ensures next { self.new.next ≡ self.old.next }
    {
        self.places.reserve(1)
    }

    /// Grants a lock under the next name. It takes no memory.
    pub fn insert(&mut self, lock: HeldLock) -> LockId
        requires room { 0 < self.old.room }
        requires named { self.old.next ≤ last_number }
        requires few { length self.old.entries < 2 ^ 60 }
        ensures name { result.0 ≡ self.old.next }
        ensures entries { self.new.entries ≡ self.old.entries ++ (result, lock) ∷ [] }
        ensures next { self.new.next ≡ self.old.next + 1 }
    {
        let id = LockId(self.next);
        self.places.insert(id, Some(lock)).unwrap();
        self.count += 1;
        self.next += 1;
        id
    }

    /// Lets the lock of a name go. It takes no memory.
    pub fn let_go(&mut self, id: LockId)
        requires { IsSome (lookup (λ k. nat_eq id.0 k.0) self.old.entries) }
        ensures entries { self.new.entries
            ≡ remove_entry (λ k. nat_eq id.0 k.0) self.old.entries }
        ensures next { self.new.next ≡ self.old.next }
    {
        *self.places.get_mut(&id).unwrap() = None;
        self.count -= 1;
        if self.places.len() >= 2 * MAX_LOCKS {
            sweep(&mut self.places);
        }
    }

    /// The locks in order of grant, each with its name.
    pub fn iter(&self) -> HeldLocks<'_>
        ensures rest { result ≡ self.now.entries }
        ensures fits { length result < 2 ^ 63 }
        ensures runs { ShowsInOrder (deref_pair {K = LockId} {X = HeldLock}) }
    {
        HeldLocks {
            places: self.places.iter(),
        }
    }
}

/// Takes the empty places out. It takes no memory.
fn sweep(places: &mut IndexMap<LockId, Option<HeldLock>>)
    ensures { places.new.entries ≡ filter (λ e. is_some e.1) places.old.entries }
{
    places.retain(
        |_id: &LockId, place: &mut Option<HeldLock>| -> bool
            ensures { (result ≡ is_some place.old) × (place.new ≡ place.old) }
        { place.is_some() },
    );
}

/// The held locks in order of grant, each with its name.
#[derive(Debug, Drop)]
pub struct HeldLocks<'a> {
    places: Iter<'a, LockId, Option<HeldLock>>,
}

impl<'a> Model for HeldLocks<'a> {
    ghost use Rattle.std.specs.Prelude.{List};
    ghost use Rattle.base.specs.declared.names.LockId.{LockId};
    ghost use Rattle.range_locks.specs.declared.held.HeldLock.{HeldLock};
    ghost use Rattle.range_locks.specs.Table.{held_in};

    ghost Value = { List (LockId × HeldLock) };

    ghost view = { λ a. held_in a.places };
}

impl<'a> Iterator for HeldLocks<'a> {
    type Item = (&'a LockId, &'a HeldLock);

    ghost next_gives = { TakesFirst deref_pair };

    ghost remaining = { λ s. at_most (length s) };

    fn next(&mut self) -> Option<(&'a LockId, &'a HeldLock)> {
        while let Some((id, place)) = self.places.next() {
            if let Some(lock) = place {
                return Some((id, lock));
            }
        }
        None
    }
}
