//! A thread's seat at a lock, and what takes the lock.
ghost use Rattle.std.specs.Prelude.{◌≡◌, [], ◌∷◌, ◌+◌, ◌++◌, IfNone, IfSome, IsSome, None};
ghost use Rattle.std.specs.Borrow.{sem, RestsIfNone};
ghost use Rattle.word_lock.specs.contracts.seat.Seat.{the_row};
ghost use Rattle.word_lock.specs.Kept.{holding, with_turn};
ghost use Rattle.word_lock.specs.Seats.{kin, seen, taken, turns, seat_table, lock_table, HasJoined, HasSplit, HasTaken, HasTurned, IsAsBefore, IsHolding, IsIdle, IsSameSeat, IsSeatOf};

use crate::guard::{Guard, Held, seen_view};
use crate::lock::WordLock;
use crate::plays::{Copy, Free, Meet, Next, Note, Settle, Stay, Try};
use crate::rule::{LockRule, Sight};
use crate::word::{HELD, WAITER, freed_word, is_held};
use base::Told;
use crossbeam_utils::Backoff;
use std::alloc::Allocator;
use std::marker::Brand;
use std::sync::Wait;

// How often a seat tries for the lock before it sleeps. It is a tuning on which no clause rests.
const TRIES: u32 = 16;

/// A right to ask for a lock. It has no bytes, and a thread may hand it to another. It has seen a view, which all
/// later views of the value go on from, and knows the turns that it has had with the lock.
///
/// It also has a number in the proofs, `kin`, which each `split` makes one more and no call makes less. The seat that
/// is split off has the same number, and a join adds the numbers. So a contract that says what the number becomes says
/// which seats were split off: a body that had its steps made by another one shows it for ever, also if it splits a
/// seat that it hands out or uses up. The list `taken` has what a seat that was joined had done. A seat with the number
/// 0 is the only one that its lock ever had, and finds the value as it left it.
#[derive(Drop)]
pub struct Seat<T, R: LockRule<T>> {
    pub(crate) inside: atomic_table::Seat<Option<T>, Sight<R::View>>,
}

impl<T, R: LockRule<T>> Seat<T, R> {
    /// Takes the lock if it is free, by one `fetch_or` of the held bit. It never waits. `None` if that bit was
    /// set, and then nothing has changed. The only seat that the lock ever had gets it always.
    ///
    /// The guard has the value, and the view that explains it, which goes on from what the seat had seen.
    pub fn try_acquire<'s, 'l, A: Allocator>(
        &'s mut self,
        lock: &'l WordLock<T, R, A>,
    ) -> Option<Guard<'s, 'l, T, R, A>>
        requires own { seat_table self.old ≡ lock_table lock.now }
        requires idle { IsIdle self.old }
        ensures* unchanged { sem 𝓛 (RestsIfNone (the_row T.row R.row R.View.row) self.entry
            (λ h. h.seat.ghost_name) result (IsAsBefore self.old)) }
        ensures same_reference { IfSome result (λ h. h.seat.ghost_name ≡ self.entry.ghost_name) }
        ensures same { IfSome result
            (λ h. IsSameSeat self.old h.seat.now × (h.lock ≡ lock.entry)) }
        ensures held { IfSome result
            (λ h. HasTaken R.grows R.explains self.old h.seat.now h.held.value) }
        ensures view { IfSome result (λ h. h.held.view.value ≡ seen h.seat.now) }
        ensures only { kin self.old ≡ 0 → IsSome result }
    {
        match self.try_take(lock) {
            Some(value) => {
                let view = seen_view(self);
                Some(Guard {
                    seat: self,
                    lock,
                    held: Held { value, view },
                })
            }
            None => None,
        }
    }

    /// Takes the lock, and waits while it is held. The guard is as that of `try_acquire`.
    ///
    /// It tries 16 times with a back-off. Then it sets the waiter bit, sleeps if the word was held, and once woken
    /// sets the bit again before it tries, since the release that woke it has cleared the bit for all that sleep.
    pub fn acquire<'s, 'l, A: Allocator, W: Wait>(
        &'s mut self,
        rt: &W,
        lock: &'l WordLock<T, R, A>,
    ) -> Guard<'s, 'l, T, R, A>
        requires own { seat_table self.old ≡ lock_table lock.now }
        requires idle { IsIdle self.old }
        ensures same_reference { result.seat.ghost_name ≡ self.entry.ghost_name }
        ensures same { IsSameSeat self.old result.seat.now }
        ensures lock { result.lock ≡ lock.entry }
        ensures held { HasTaken R.grows R.explains self.old result.seat.now result.held.value }
        ensures view { result.held.view.value ≡ seen result.seat.now }
    {
        let value = self.take(rt, lock);
        let view = seen_view(self);
        Guard {
            seat: self,
            lock,
            held: Held { value, view },
        }
    }

    // The value, if the lock is free.
    fn try_take<A: Allocator>(&mut self, lock: &WordLock<T, R, A>) -> Option<T>
        requires own { seat_table self.old ≡ lock_table lock.now }
        requires idle { IsIdle self.old }
        ensures same { IsSameSeat self.old self.new }
        ensures unchanged { IfNone result (IsAsBefore self.old self.new) }
        ensures only { kin self.old ≡ 0 → IsSome result }
        ensures got { IfSome result (λ x. HasTaken R.grows R.explains self.old self.new x) }
    {
        let shared = &lock.table.shared;
        let found = shared.fetch_or::<Try<R>>(&mut self.inside, 0, HELD);
        if is_held(found) {
            return None;
        }
        match shared.exchange(&mut self.inside, 0, None) {
            Some(value) => Some(value),
            None => unreachable!(),
        }
    }

    // The value, once the lock is free.
    fn take<A: Allocator, W: Wait>(&mut self, rt: &W, lock: &WordLock<T, R, A>) -> T
        requires own { seat_table self.old ≡ lock_table lock.now }
        requires idle { IsIdle self.old }
        ensures same { IsSameSeat self.old self.new }
        ensures got { HasTaken R.grows R.explains self.old self.new result }
    {
        let backoff = Backoff::new();
        for _ in 0..TRIES {
            if let Some(value) = self.try_take(lock) {
                return value;
            }
            backoff.snooze();
        }
        for _ in rt.forever() {
            self.sleep(rt, lock);
            if let Some(value) = self.try_take(lock) {
                return value;
            }
        }
        unreachable!()
    }

    // Asks to be woken, sleeps if the lock is held, and asks again for those that still sleep.
    fn sleep<A: Allocator, W: Wait>(&mut self, rt: &W, lock: &WordLock<T, R, A>)
        requires { seat_table self.old ≡ lock_table lock.now }
        ensures { IsSameSeat self.old self.new × (self.new.inside.me ≡ self.old.inside.me) }
    {
        let shared = &lock.table.shared;
        let found = shared.fetch_or::<Stay>(&mut self.inside, 0, WAITER);
        if is_held(found) {
            shared.park(rt, 0, ((found | WAITER) % (1 << 32)) as u32);
            shared.fetch_or::<Stay>(&mut self.inside, 0, WAITER);
        }
    }

    /// Frees the lock with this value, which the view `next` has to explain. It is `release` for a guard that was
    /// taken apart.
    ///
    /// The caller owes that the seat has this lock, as `acquire` and `try_acquire` leave it, and that `next` goes on
    /// from the view that the seat took. Afterwards the seat is idle, has seen `next`, and has had one turn more,
    /// from the view that it took to `next`.
    ///
    /// The steps are: a `fetch_or` of nothing, by which the seat takes the view while the value is out still, the
    /// value into the slot, a `swap` that clears both bits of the word and counts one more, and if the waiter bit
    /// was set one wake. It never waits and is never refused.
    pub fn put_back<A: Allocator>(
        &mut self,
        lock: &WordLock<T, R, A>,
        value: T,
        next: &Told<R::View>,
    )
        requires own { seat_table self.old ≡ lock_table lock.now }
        requires held { IsHolding self.old }
        requires grows { R.grows (seen self.old) next.now.value }
        requires explains { R.explains next.now.value value }
        ensures same { IsSameSeat self.old self.new }
        ensures freed { IsIdle self.new × (seen self.new ≡ next.now.value) }
        ensures turn { HasTurned self.old self.new next.now.value }
    {
        let shared = &lock.table.shared;
        let found = note::<T, R, Brand, A>(lock, &mut self.inside, next);
        let empty = shared.exchange(&mut self.inside, 0, Some(value));
        let None = empty else { unreachable!() };
        let last = shared.swap::<Free>(&mut self.inside, 0, freed_word(found));
        if last & WAITER != 0 {
            shared.wake_one(0);
        }
    }

    /// One more seat, which has seen what this one has, and has had no turn. This one's number is one more
    /// afterwards, and nothing else of it changes. The new one has that number too. It never waits.
    pub fn split<A: Allocator>(&mut self, lock: &WordLock<T, R, A>) -> Seat<T, R>
        requires own { seat_table self.old ≡ lock_table lock.now }
        requires idle { IsIdle self.old }
        ensures split { HasSplit self.old self.new }
        ensures other { IsSeatOf lock.now result (kin self.old + 1) }
        ensures seen { seen result ≡ seen self.old }
    {
        Seat {
            inside: lock.table.shared.split_seat::<Copy>(&mut self.inside),
        }
    }

    /// Takes in what another seat has seen, and uses that seat up. Afterwards this one has seen a view that goes on
    /// from both. Its turns are still its own alone: those of the other, and those that the other had taken over,
    /// follow in `taken`, and the other's number is added to this one's. It never waits.
    pub fn join<A: Allocator>(&mut self, lock: &WordLock<T, R, A>, other: Seat<T, R>)
        requires own { seat_table self.old ≡ lock_table lock.now }
        requires same_lock { seat_table other ≡ lock_table lock.now }
        requires idle { IsIdle self.old × IsIdle other }
        ensures same { IsSameSeat self.old self.new × (turns self.new ≡ turns self.old)
            × (kin self.new ≡ kin self.old + kin other) }
        ensures both { HasJoined R.grows self.old other self.new }
        ensures taken { taken self.new ≡ taken self.old ++ taken other ++ turns other }
    {
        let Seat { inside } = other;
        let shared = &lock.table.shared;
        shared.join_seat::<Meet<T, R>>(&mut self.inside, inside);
        shared.load::<Settle<R>>(&mut self.inside, 0);
    }
}

// The holder's view becomes the one that `J` names, which is one more turn of its own. The bits of the word stay, and
// the slot is still empty.
fn note<T, R: LockRule<T>, J: Next, A: Allocator>(
    lock: &WordLock<T, R, A>,
    seat: &mut atomic_table::Seat<Option<T>, Sight<R::View>>,
    next: &Told<R::View>,
) -> u64
    requires own { seat.old.table_id ≡ lock_table lock.now }
    requires named { J.next ≡ R.View.row.coded.code next.now.value }
    requires held { seat.old.me ≡ (
      holding seat.old.me.0.seen seat.old.me.0.turns seat.old.me.0.taken
          seat.old.me.0.kin,
      (0, None) ∷ [],
    ) }
    requires grows { R.grows seat.old.me.0.seen next.now.value }
    ensures same { (seat.new.table_id ≡ seat.old.table_id) × (seat.new.id ≡ seat.old.id) }
    ensures noted { seat.new.me ≡ (with_turn seat.old.me.0 next.now.value, seat.old.me.1) }
{
    let _ = next;
    lock.table.shared.fetch_or::<Note<J>>(seat, 0, 0)
}
