//! What callers of `word_lock` rest on: one function for each promise, proved from the contract of the call alone. So
//! it is refused as soon as that contract says less.
//!
//! The lock is one over a number that may only rise, and whose view is the number itself.
#![tactic(auto)]

ghost use Rattle.std.specs.Prelude.{◌≡◌, [], ◌∷◌, ◌++◌, ◌≤◌, IfNone};
ghost use Rattle.std.proofs.Math.Nat.{le_refl, le_trans};
ghost use Rattle.word_lock.specs.Seats.{lock_table, seat_table, seen, turns, IsAsBefore, IsHolding, IsIdle, IsSameSeat};
ghost use Rattle.word_lock.specs.Turns.{turn};

use base::Told;
use word_lock::{Guard, Held, LockRule, Seat, WordLock, release};

// A number may stay or rise.
struct Rising;

impl LockRule<u8> for Rising {
    type View = u8;

    ghost explains = { λ n x. x ≡ n };

    ghost grows = { λ n m. n ≤ m };

    ghost blank = { 0 };

    ghost same = { le_refl };

    ghost onward = { λ a b c x y. le_trans x y };
}

type Lock = WordLock<u8, Rising>;

fn told_255() -> Told<u8>
    ensures { result.value ≡ 255 }
{
    Told::of(&255u8)
}

// What a holder has becomes 255, and is what it was.
fn raise(held: &mut Held<u8, u8>) -> u8
    ensures value { held.new.value ≡ 255 }
    ensures view { held.new.view.value ≡ 255 }
    ensures found { result ≡ held.old.value }
{
    let found = held.value;
    held.value = 255;
    held.view = told_255();
    found
}

// A seat that doesn't get the lock is as it was.
fn a_try_in_vain_leaves_the_seat_as_it_was(seat: &mut Seat<u8, Rising>, lock: &Lock) -> Option<u8>
    requires own { seat_table seat.old ≡ lock_table lock.now }
    requires idle { IsIdle seat.old }
    ensures unchanged { IfNone result (IsAsBefore seat.old seat.new) }
{
    let Some(mut guard) = seat.try_acquire(lock) else {
        return None;
    };
    let found = raise(&mut guard.held);
    release(guard);
    Some(found)
}

// A layer above takes a guard apart. It puts the value back in one turn, from what the seat took to what it leaves.
fn what_a_guard_had_is_put_back_in_one_turn<'s, 'l>(guard: Guard<'s, 'l, u8, Rising>)
    requires own { seat_table guard.seat.now ≡ lock_table guard.lock.now }
    requires held { IsHolding guard.seat.now × (guard.held.view.value ≡ seen guard.seat.now) }
    requires explains { guard.held.value ≡ guard.held.view.value }
    ensures same { IsSameSeat guard.entry.seat.now guard.exit.0.now × IsIdle guard.exit.0.now }
    ensures seen { seen guard.exit.0.now ≡ 255 }
    ensures turn { turns guard.exit.0.now ≡ turns guard.entry.seat.now
        ++ turn (seen guard.entry.seat.now) 255 ∷ [] }
{
    let Guard { seat, lock, held } = guard;
    let mut held = held;
    raise(&mut held);
    let Held { value, view } = held;
    seat.put_back(lock, value, &view);
}
