//! What callers rest on: one function for each promise of this crate's calls, proved from the contract of the call
//! alone. So it is refused as soon as that contract says less.
//!
//! The lock is one over a number that may only rise, and whose view is the number itself. Once 255 was put back, a
//! seat that knows of it finds nothing else.
ghost use Rattle.std.specs.Prelude.{◌≡◌, [], ◌∷◌, ◌++◌, ◌+◌, ◌≤◌, IfErr, IfOk, IfSome, IsSome};
ghost use Rattle.std.proofs.Math.Nat.{le_refl, le_trans};
ghost use Rattle.word_lock.specs.Seats.{kin, lock_table, opening, seat_table, seen, taken, turns, HasMetNone, IsIdle, IsSourceOf};
ghost use Rattle.word_lock.specs.Turns.{turn};

use crate::{Held, LockRule, Seat, SeatSource, WordLock, release};
use base::Told;
use std::alloc::Global;
use std::sync::Wait;

// A number may stay or rise.
struct Rising;

impl LockRule<u8> for Rising {
    type View = u8;

    ghost explains = { λ n x. x ≡ n };

    ghost grows = { λ n m. n ≤ m };

    ghost blank = { 0 };

    ghost same = { le_refl };

    ghost onward = { λ a b c x y. le_trans x y };
}

type Lock = WordLock<u8, Rising>;

fn told_255() -> Told<u8>
    ensures { result.value ≡ 255 }
{
    Told::of(&255u8)
}

// What a holder has becomes 255, and is what it was.
fn raise(held: &mut Held<u8, u8>) -> u8
    ensures value { held.new.value ≡ 255 }
    ensures view { held.new.view.value ≡ 255 }
    ensures found { result ≡ held.old.value }
{
    let found = held.value;
    held.value = 255;
    held.view = told_255();
    found
}

// An acquire and a release are one turn, from what the seat took to what it left, and the seat may ask again.
fn a_turn_is_from_what_was_taken_to_what_was_left<W: Wait>(
    rt: &W,
    seat: &mut Seat<u8, Rising>,
    lock: &Lock,
) -> u8
    requires own { seat_table seat.old ≡ lock_table lock.now }
    requires idle { IsIdle seat.old }
    ensures same { (seat_table seat.new ≡ seat_table seat.old) × IsIdle seat.new }
    ensures onward { seen seat.old ≤ result }
    ensures seen { seen seat.new ≡ 255 }
    ensures turn { turns seat.new ≡ turns seat.old ++ turn result 255 ∷ [] }
    ensures met { HasMetNone seat.old seat.new }
    ensures only { kin seat.old ≡ 0 → result ≡ seen seat.old }
{
    let mut guard = seat.acquire(rt, lock);
    let found = raise(&mut guard.held);
    release(guard);
    found
}

// One turn of the seat itself, for which no other seat had one. The only seat of a lock always gets it and finds what
// it left.
fn a_try_is_one_turn_and_the_only_seat_finds_what_it_left(
    seat: &mut Seat<u8, Rising>,
    lock: &Lock,
) -> Option<u8>
    requires own { seat_table seat.old ≡ lock_table lock.now }
    requires idle { IsIdle seat.old }
    ensures same { (seat_table seat.new ≡ seat_table seat.old) × IsIdle seat.new }
    ensures always { kin seat.old ≡ 0 → IsSome result }
    ensures onward { IfSome result (λ x. seen seat.old ≤ x) }
    ensures left { IfSome result (λ x. kin seat.old ≡ 0 → x ≡ seen seat.old) }
    ensures turn { IfSome result (λ x. turns seat.new ≡ turns seat.old ++ turn x 255 ∷ []) }
    ensures met { HasMetNone seat.old seat.new }
{
    let Some(mut guard) = seat.try_acquire(lock) else {
        return None;
    };
    let found = raise(&mut guard.held);
    release(guard);
    Some(found)
}

fn what_was_released_is_taken_next<W: Wait>(rt: &W, seat: &mut Seat<u8, Rising>, lock: &Lock) -> u8
    requires own { seat_table seat.old ≡ lock_table lock.now }
    requires idle { IsIdle seat.old }
    ensures { result ≡ 255 }
{
    a_turn_is_from_what_was_taken_to_what_was_left(rt, seat, lock);
    a_turn_is_from_what_was_taken_to_what_was_left(rt, seat, lock)
}

// It finds what the first seat left, and its one turn is its own. The split shows at the first seat for ever.
fn a_seat_that_was_split_off_knows_the_same<W: Wait>(
    rt: &W,
    seat: &mut Seat<u8, Rising>,
    lock: &Lock,
) -> (u8, Seat<u8, Rising>)
    requires own { seat_table seat.old ≡ lock_table lock.now }
    requires idle { IsIdle seat.old }
    ensures found { result.0 ≡ 255 }
    ensures turn { turns result.1 ≡ turn 255 255 ∷ [] }
    ensures number { (kin seat.new ≡ kin seat.old + 1) × (kin result.1 ≡ kin seat.old + 1) }
{
    a_turn_is_from_what_was_taken_to_what_was_left(rt, seat, lock);
    let mut other = seat.split(lock);
    let found = a_turn_is_from_what_was_taken_to_what_was_left(rt, &mut other, lock);
    (found, other)
}

// It finds what the other seat left, and its one turn more is its own. What the other did follows in `taken`.
fn a_joined_seat_knows_what_the_other_knew<W: Wait>(
    rt: &W,
    seat: &mut Seat<u8, Rising>,
    other: Seat<u8, Rising>,
    lock: &Lock,
) -> (u8, u8)
    requires own { seat_table seat.old ≡ lock_table lock.now }
    requires same_lock { seat_table other ≡ lock_table lock.now }
    requires idle { IsIdle seat.old × IsIdle other }
    ensures found { result.1 ≡ 255 }
    ensures turn { turns seat.new ≡ turns seat.old ++ turn 255 255 ∷ [] }
    ensures number { kin seat.new ≡ kin seat.old + kin other }
    ensures taken { taken seat.new ≡ taken seat.old ++ taken other
        ++ turns other ++ turn result.0 255 ∷ [] }
{
    let mut other = other;
    let first = a_turn_is_from_what_was_taken_to_what_was_left(rt, &mut other, lock);
    seat.join(lock, other);
    let second = a_turn_is_from_what_was_taken_to_what_was_left(rt, seat, lock);
    (first, second)
}

fn a_lock_closes_with_what_its_last_seat_left<W: Wait>(
    rt: &W,
    lock: Lock,
    seat: Seat<u8, Rising>,
) -> Option<u8>
    requires own { seat_table seat ≡ lock_table lock }
    requires idle { IsIdle seat }
    ensures { IfSome result (λ x. x ≡ 255) }
{
    let mut seat = seat;
    a_turn_is_from_what_was_taken_to_what_was_left(rt, &mut seat, &lock);
    lock.close_with(seat)
}

// A lock that cannot be made gives the value back.
fn a_lock_that_opened_with_255_closes_with_it(alloc: Global) -> Result<Option<u8>, u8>
    ensures closed { IfOk result (λ last. IfSome last (λ x. x ≡ 255)) }
    ensures given_back { IfErr result (λ x. x ≡ 255) }
{
    match Lock::new(alloc, 255, &told_255()) {
        Ok((lock, _seat)) => Ok(lock.close()),
        Err((_, value)) => Err(value),
    }
}

// The only seat that a lock ever had always gets the value back, as the seat left it.
fn a_lock_with_one_seat_closes_with_what_it_left(alloc: Global) -> Result<Option<u8>, u8>
    ensures { IfOk result (λ last. IsSome last × IfSome last (λ x. x ≡ 255)) }
{
    match Lock::new(alloc, 255, &told_255()) {
        Ok((lock, seat)) => Ok(lock.close_with(seat)),
        Err((_, value)) => Err(value),
    }
}

// The value is given back where there is no memory.
fn a_source_is_of_the_lock_that_it_was_made_with(
    alloc: Global,
) -> Result<(Lock, SeatSource<u8, Rising>), u8>
    ensures source { IfOk result (λ p. IsSourceOf p.0 p.1) }
    ensures given_back { IfErr result (λ x. x ≡ 255) }
{
    match Lock::with_source(alloc, 255, &told_255()) {
        Ok(made) => Ok(made),
        Err((_, value)) => Err(value),
    }
}

// It is idle and has had no turn, so after one it has had just that. It is not the only one.
fn a_seat_from_a_source_starts_anew(
    source: &SeatSource<u8, Rising>,
    lock: &Lock,
) -> (Option<u8>, Seat<u8, Rising>)
    requires own { IsSourceOf lock.now source.now }
    ensures own { (seat_table result.1 ≡ lock_table lock.now) × IsIdle result.1 }
    ensures onward { IfSome result.0 (λ x. opening lock.now ≤ x) }
    ensures turn { IfSome result.0 (λ x. turns result.1 ≡ turn x 255 ∷ []) }
    ensures number { (kin result.1 ≡ 1) × (taken result.1 ≡ []) }
{
    let mut seat = source.seat(lock);
    let found = a_try_is_one_turn_and_the_only_seat_finds_what_it_left(&mut seat, lock);
    (found, seat)
}
