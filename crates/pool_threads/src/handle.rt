//! A thread's handle on a pool.
ghost use Rattle.std.specs.Prelude.{◌≡◌};
ghost use Rattle.word_lock.specs.Seats.{IsIdle, lock_table, seat_table};

use crate::rule::PoolRule;
use crate::shared::Shared;
use device_model::SectorDevice;
use pool_core::PoolState;
use word_lock::Seat;

/// A thread's access to a pool: its calls read and change the pool, one step at a time.
///
/// Each call takes the pool's lock, makes its step and frees the lock. So a call waits while another thread makes a
/// step; a flush of a sync is such a step. `transact` makes a whole transaction, of several steps, in one turn, and
/// `fetch` a read under a lock.
///
/// For proofs: a handle is a seat at the pool's lock. Its calls say that its number stays, except for `split`, which
/// adds 1, and `join`, which adds the number of the handle that it takes in. No call but `join` has a seat from
/// elsewhere, and `join` lists the turns of that seat. So none makes a step in a turn that the handle does not show.
#[derive(Drop)]
pub struct Handle<'p, D: SectorDevice> {
    pub(crate) shared: &'p Shared<D>,
    pub(crate) seat: Seat<Box<PoolState<D>>, PoolRule<D>>,
    pub(crate) ghost own: { seat_table seat ≡ lock_table shared.now.lock },
    pub(crate) ghost idle: { IsIdle seat },
}

/// For proofs: what a handle had seen as it left its pool, and the turns that it had. The pool then can be closed.
#[derive(Drop)]
pub struct LastSeen<D: SectorDevice> {
    pub(crate) seat: Seat<Box<PoolState<D>>, PoolRule<D>>,
    pub(crate) ghost idle: { IsIdle seat },
}

impl<'p, D: SectorDevice> Handle<'p, D> {
    ghost use Rattle.pool_threads.specs.Handles.{HasJoined, HasSplit, IsLeftBehind, IsOfSamePool, IsSplitOff};

    /// For proofs: a handle for another thread, which has seen as much. A program takes `Pool::handle`.
    ///
    /// The new handle has had no turn. This one's number is one more then, and the new one has it too.
    pub fn split(&mut self) -> Handle<'p, D>
        ensures this { HasSplit self.old self.new }
        ensures other { IsSplitOff self.old result }
    {
        let shared = self.shared;
        let seat = self.seat.split(&shared.lock);
        Handle { shared, seat }
    }

    /// For proofs: takes in what another handle of the same pool has seen, and takes over the turns that it had.
    pub fn join(&mut self, other: Handle<'p, D>)
        requires { IsOfSamePool self.old other }
        ensures { HasJoined self.old other.entry self.new }
    {
        let Handle { shared: _, seat } = other;
        self.seat.join(&self.shared.lock, seat);
    }

    /// For proofs: leaves the pool, with what the handle has seen, for `close_after`, or for `OwnedPool::handle_after`.
    /// A program drops the handle.
    pub fn leave(self) -> LastSeen<D>
        ensures { IsLeftBehind self.entry result }
    {
        let Handle { shared: _, seat } = self;
        LastSeen { seat }
    }
}
