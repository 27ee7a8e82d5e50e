//! The lock, and its value before and after.
//!
//! Its state is one word and one slot of an `atomic_table`. Bit 0 of the word says that the lock is held, bit 1 that a
//! seat waits for it, and the bits above count the releases, which makes each wake a change of the word. The value lies
//! in the slot while bit 0 is clear. While it is set the slot is that of the one seat that set the bit, which takes the
//! value out and puts one back before it frees the lock.
//!
//! A seat takes the lock by a `fetch_or` of bit 0: if that bit was clear, the value in the slot is its own. It frees
//! the lock in three steps, whose order is the rule of this crate:
//!
//! 1. a `fetch_or` of nothing, by which it goes on to the view that explains the new value, while the value is still
//!    out;
//! 2. the value goes into the slot;
//! 3. a `swap` clears both bits and counts one release more.
//!
//! With 2 before 1 the slot would have a value that no view explains, and with 3 before 2 another seat would find the
//! slot empty. A seat that has to wait sets bit 1 and sleeps while the word stays as it is. The release that wakes one
//! clears bit 1 for all that sleep, so the one that wakes sets it again before it tries.
//!
//! `specs/Kept` is what holds between any two steps: the turns of all seats are one line from the view that the lock
//! opened with to the view that explains the value; each idle seat has seen a view that this one goes on from; one
//! seat at most has the lock; a seat's own turns are all that the line has of it; and a seat with the number 0 is the
//! only one that the lock ever had, and has seen the view that explains the value. Nothing is promised of who gets
//! the lock next. The crate's root says how this lock stands to those of OpenZFS.
ghost use Rattle.std.specs.Prelude.{◌≡◌, [], ◌∷◌, Some, IfOk, IfErr};

use crate::rule::{Keeps, LockRule, Opening, Sight};
use crate::seat::Seat;
use crate::source::SeatSource;
use crate::word::{FREE, is_held};
use atomic_table::{Refused, Table};
use base::{PoolError, Told};
use std::alloc::{Allocator, Global};

/// A lock over a value of type `T` under the rule `R`. Threads share it by reference, each with a seat of its own.
///
/// It is one word and one slot. While the word is free, a view explains the value in the slot, and that view goes on
/// from what every seat has seen. While it is held, this is so of the holder's view and value.
#[derive(Drop)]
pub struct WordLock<T, R: LockRule<T>, A: Allocator = Global> {
    pub(crate) table: Table<Option<T>, Sight<R::View>, Told<Opening<R::View>>, Keeps<R>, A>,
    ghost single: { (table.shared.table_id.words ≡ 1) × (table.shared.table_id.slots ≡ 1) },
}

// A list with the value alone, for the one slot.
fn slot_of<T, A: Allocator>(alloc: A, value: T) -> Result<Vec<Option<T>, A>, T>
    ensures ok { IfOk result (λ slots. slots.items ≡ Some value ∷ []) }
    ensures err { IfErr result (λ x. x ≡ value) }
{
    let mut slots = Vec::new(alloc);
    match slots.push(Some(value)) {
        Ok(()) => Ok(slots),
        Err(failed) => {
            slots.destroy_empty();
            match failed.value {
                Some(value) => Err(value),
                None => unreachable!(),
            }
        }
    }
}

// A lock whose seats all come from its first one opens so.
fn without_source<V>(first: &Told<V>) -> Told<Opening<V>>
    ensures view { result.value.view ≡ first.now.value }
    ensures kin { result.value.kin ≡ 0 }
{
    Told::of(first)
}

// A lock that has a source of seats opens so.
fn with_source<V>(first: &Told<V>) -> Told<Opening<V>>
    ensures view { result.value.view ≡ first.now.value }
    ensures kin { result.value.kin ≡ 1 }
{
    Told::of(first)
}

impl<T, R: LockRule<T>, A: Allocator> WordLock<T, R, A> {
    ghost use Rattle.std.specs.Prelude.{IfSome, IsSome};
    ghost use Rattle.base.specs.declared.error.PoolError.TheVariants.{NoMemory};
    ghost use Rattle.word_lock.specs.Seats.{kin, seen, seat_table, lock_table, opening, IsFirstSeat, IsIdle, IsLastValue, IsOpeningSeat, IsSourceOf};

    /// A free lock over the value, which the view `first` explains, and its first seat, which has seen that view. All
    /// other seats of this lock come from that one by `Seat::split`: the first seat's number is 0, and while it is,
    /// the seat is the only one.
    ///
    /// Refused with `NoMemory` if there is no memory for the word and the slot. The value then comes back.
    pub fn new(
        alloc: A,
        value: T,
        first: &Told<R::View>,
    ) -> Result<(WordLock<T, R, A>, Seat<T, R>), (PoolError, T)>
    where
        A: Clone,
        requires { R.explains first.now.value value }
        ensures opening { IfOk result (λ p. opening p.0 ≡ first.now.value) }
        ensures seat { IfOk result (λ p. IsFirstSeat p.0 p.1) }
        ensures seen { IfOk result (λ p. seen p.1 ≡ first.now.value) }
        ensures err { IfErr result (λ e. (e.0 ≡ NoMemory) × (e.1 ≡ value)) }
    {
        WordLock::open(alloc, value, &without_source(first))
    }

    /// A free lock over the value, which the view `first` explains, and its source of seats. No seat of this lock has
    /// the number 0, since the source may make one more at any time.
    ///
    /// Refused as `new`.
    pub fn with_source(
        alloc: A,
        value: T,
        first: &Told<R::View>,
    ) -> Result<(WordLock<T, R, A>, SeatSource<T, R>), (PoolError, T)>
    where
        A: Clone,
        requires { R.explains first.now.value value }
        ensures opening { IfOk result (λ p. opening p.0 ≡ first.now.value) }
        ensures source { IfOk result (λ p. IsSourceOf p.0 p.1) }
        ensures err { IfErr result (λ e. (e.0 ≡ NoMemory) × (e.1 ≡ value)) }
    {
        let (lock, seat) = WordLock::open(alloc, value, &with_source(first))?;
        Ok((lock, SeatSource::beside(&seat)))
    }

    // A free lock that opens so, and its first seat.
    fn open(
        alloc: A,
        value: T,
        opening: &Told<Opening<R::View>>,
    ) -> Result<(WordLock<T, R, A>, Seat<T, R>), (PoolError, T)>
    where
        A: Clone,
        requires { R.explains opening.now.value.view value }
        ensures seat { IfOk result (λ p. IsOpeningSeat opening.now.value p.0 p.1) }
        ensures err { IfErr result (λ e. (e.0 ≡ NoMemory) × (e.1 ≡ value)) }
    {
        let Ok(heap) = alloc.clone() else {
            return Err((PoolError::NoMemory, value));
        };
        let slots = match slot_of(heap, value) {
            Ok(slots) => slots,
            Err(value) => return Err((PoolError::NoMemory, value)),
        };
        match Table::new(alloc, &[FREE], slots, opening) {
            Ok((table, inside)) => Ok((WordLock { table }, Seat { inside })),
            Err(Refused { mut slots }) => {
                let last = slots.pop();
                let Some(Some(value)) = last else {
                    unreachable!()
                };
                slots.destroy_empty();
                Err((PoolError::NoMemory, value))
            }
        }
    }

    /// The lock's word as it is at this moment, for a monitor: bit 0 says that the lock is held, bit 1 that a seat
    /// waits, and the bits above count the releases. It never waits, and no clause rests on it.
    pub fn word(&self) -> u64 {
        self.table.shared.peek(0)
    }

    /// The value, with a view that explains it and goes on from the one that the lock opened with. `None` only if
    /// the word stands held: a guard was never released.
    pub fn close(self) -> Option<T>
    where
        T: Drop,
        ensures { IfSome result (λ x. (v : R.View) × R.explains v x × R.grows (opening self) v) }
    {
        let mut closed = self.table.close();
        let held = is_held(closed.word(0));
        let value = closed.take(0);
        closed.free();
        if held { None } else { value }
    }

    /// The same, with a view that goes on from what the seat has seen too. The turns of all seats lead from the view
    /// that the lock opened with to this one, and the seat's own among them are exactly those that it knows of. The
    /// only seat that the lock ever had gets the value, and it is the one that the seat left.
    pub fn close_with(self, seat: Seat<T, R>) -> Option<T>
    where
        T: Drop,
        requires own { seat_table seat ≡ lock_table self }
        requires idle { IsIdle seat }
        ensures last { IfSome result (λ x. IsLastValue R.grows R.explains self seat x) }
        ensures only { kin seat ≡ 0 → IsSome result }
    {
        let Seat { inside } = seat;
        let mut closed = self.table.close_with(inside);
        let held = is_held(closed.word(0));
        let value = closed.take(0);
        closed.free();
        if held { None } else { value }
    }
}
