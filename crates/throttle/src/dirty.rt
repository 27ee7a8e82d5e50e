//! The dirty bytes of the unsynced groups: a sum for each and a limit for all (as `dsl_pool.c` of OpenZFS sums them by
//! group; that a charge past the limit is refused at once is this project's rule). A transaction is charged before it
//! begins. Its group's sum has the charge until the transaction is given up or the group is synced.
//!
//! Three groups at most are unsynced, one that is syncing, one in the middle and the open one, and they are numbered
//! one after another. So there are three sums, from that of the group after the synced one on, and no memory is taken.

ghost use Rattle.std.specs.Prelude.{◌≡◌, ◌+◌, ◌-◌, ◌<◌, ◌≤◌, ◌↔◌, IsErr, IsTrue, IfErr, OnErr, OnOk};
ghost use Rattle.throttle.specs.DirtyBytes.{
  AreWithinLimit,
  MayBeUnsynced,
  after_admit,
  after_cancel,
  after_synced,
  dirty_behind,
  is_throttled,
  sum_of,
  total_of,
};

use base::{Group, PoolError};
use std::marker::Model;

/// The bytes that are charged to each unsynced group, and their limit.
///
/// Contracts see them as a map from a group's number to its sum, with the limit and the synced group.
#[derive(Drop)]
pub struct Dirty {
    limit: u64,
    synced: Group,
    // of the groups after the synced one, in order
    sums: [u64; 3],
}

impl Model for Dirty {
    ghost use Rattle.throttle.specs.DirtyBytes.{DirtyBytes, dirty_code};

    ghost Value = { DirtyBytes };

    ghost coded = { dirty_code };

    ghost use Rattle.throttle.specs.DirtyFields.{IsWithinLimit, dirty_bytes_of};

    ghost view = { dirty_bytes_of };

    ghost invariant = { IsWithinLimit };
}

impl Dirty {
    /// Nothing is charged yet. The limit is in bytes; that of a pool is from `LEAST_DIRTY_MAX` to `GREATEST_DIRTY_MAX`.
    pub fn new(limit: u64, synced: Group) -> Self
        ensures { result ≡ dirty_behind limit synced.0 }
    {
        Dirty {
            limit,
            synced,
            sums: [0; 3],
        }
    }

    /// How many bytes may be charged to all groups together.
    pub fn limit(&self) -> u64
        ensures { result ≡ self.now.limit }
    {
        self.limit
    }

    /// The bytes that are charged to all groups together.
    pub fn total(&self) -> u64
        ensures total { result ≡ total_of self.now }
        ensures within { AreWithinLimit self.now }
    {
        let [first, second, third] = self.sums;
        first + second + third
    }

    /// The bytes that are charged to a group; none to one that is synced, or that can't be open yet.
    pub fn of(&self, group: Group) -> u64
        ensures { result ≡ sum_of self.now group.0 }
    {
        if (1..=3).contains(&group.0.saturating_sub(self.synced.0)) {
            self.sums[place(self.synced, group)]
        } else {
            0
        }
    }

    /// Whether so many more bytes would pass the limit.
    pub fn is_throttled(&self, charge: u64) -> bool
        ensures { result ≡ is_throttled charge self.now }
    {
        charge > self.limit - self.total()
    }

    /// So many bytes are charged to a group, one of the three after the synced one.
    ///
    /// # Errors
    /// `Throttled` exactly if all charges would pass the limit. Then nothing has changed.
    pub fn admit(&mut self, group: Group, charge: u64) -> Result<(), PoolError>
        requires { MayBeUnsynced self.old group.0 }
        ensures throttled { IsErr result ↔ IsTrue (is_throttled charge self.old) }
        ensures error { IfErr result (λ e. e ≡ PoolError.Throttled) }
        ensures unchanged { OnErr result (self.new ≡ self.old) }
        ensures admitted { OnOk result (self.new ≡ after_admit group.0 charge self.old) }
        ensures sum { OnOk result (sum_of self.new group.0 ≡ sum_of self.old group.0 + charge) }
        ensures total { OnOk result (total_of self.new ≡ total_of self.old + charge) }
    {
        if self.is_throttled(charge) {
            return Err(PoolError::Throttled);
        }
        self.sums[place(self.synced, group)] += charge;
        Ok(())
    }

    /// So many of a group's bytes are charged no more: its transaction was given up.
    pub fn cancel(&mut self, group: Group, charge: u64)
        requires unsynced { MayBeUnsynced self.old group.0 }
        requires charged { charge ≤ sum_of self.old group.0 }
        ensures canceled { self.new ≡ after_cancel group.0 charge self.old }
        ensures sum { sum_of self.new group.0 + charge ≡ sum_of self.old group.0 }
        ensures total { total_of self.new + charge ≡ total_of self.old }
    {
        self.sums[place(self.synced, group)] -= charge;
    }

    /// The group after the synced one is synced: none of its bytes is dirty any more.
    pub fn synced(&mut self, group: Group)
        requires { group.0 ≡ self.old.synced + 1 }
        ensures synced { self.new ≡ after_synced group.0 self.old }
        ensures total { total_of self.new + sum_of self.old group.0 ≡ total_of self.old }
    {
        let [_, second, third] = self.sums;
        self.sums = [second, third, 0];
        self.synced = group;
    }
}

// Where the sum of a group lies.
fn place(synced: Group, group: Group) -> usize
    requires { (synced.0 < group.0) × (group.0 ≤ synced.0 + 3) }
    ensures place { result ≡ group.0 - synced.0 - 1 }
    ensures low { result < 3 }
{
    (group.0 - synced.0 - 1) as usize
}
