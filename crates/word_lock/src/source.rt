//! What makes seats at any time.
ghost use Rattle.std.specs.Prelude.{◌≡◌};
ghost use Rattle.word_lock.specs.Seats.{opening, seat_table, seen, source_table, IsNewSeat, IsSourceOf};

use crate::lock::WordLock;
use crate::plays::Sit;
use crate::rule::LockRule;
use crate::seat::Seat;
use base::Told;
use std::alloc::Allocator;

/// A right to make seats of one lock. It has no bytes, threads share it by reference, and only
/// `WordLock::with_source` makes one.
///
/// It is no part of the lock, so whoever has a lock and a seat of it makes no other seat but by `Seat::split`, which
/// the seat's number shows. So a call that has been given a lock and a seat makes no step on the value by a seat that
/// its caller does not see.
#[derive(Drop)]
pub struct SeatSource<T, R: LockRule<T>> {
    // The seat that the lock opened with, which names the lock's table.
    pub(crate) first: Told<Seat<T, R>>,
}

impl<T, R: LockRule<T>> SeatSource<T, R> {
    // The source of the lock that this seat is for.
    pub(crate) fn beside(first: &Seat<T, R>) -> SeatSource<T, R>
        ensures { source_table result ≡ seat_table first.now }
    {
        SeatSource {
            first: Told::of(first),
        }
    }

    /// One more seat of the source's lock, at any time. It has seen a view that goes on from the one that the lock
    /// opened with, and has had no turn. It never waits.
    pub fn seat<A: Allocator>(&self, lock: &WordLock<T, R, A>) -> Seat<T, R>
        requires own { IsSourceOf lock.now self.now }
        ensures seat { IsNewSeat lock.now result }
        ensures seen { R.grows (opening lock.now) (seen result) }
    {
        let (_, inside) = lock.table.shared.load_new_seat::<Sit<R>>(0);
        Seat { inside }
    }
}
