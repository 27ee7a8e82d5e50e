//! What callers rest on: one function for each promise of this crate's calls, proved from the contract of the call
//! alone. So it is refused as soon as that contract says less.

ghost use Rattle.std.specs.Prelude.{◌≡◌, ◌∷◌, [], IfErr, IfOk, OnErr, false, length, map};
ghost use Rattle.base.specs.declared.range.Mode.TheVariants as mode;
ghost use Rattle.range_locks.specs.Locks.{grant_of};

use crate::held::HeldPiece;
use crate::locks::RangeLocks;
use crate::table::HeldLocks;
use base::{LockId, Mode, ObjectId, ObjectRange, Owner, PoolError, Range};
use std::alloc::Global;

const ONE: Owner = Owner(1);

const TWO: Owner = Owner(2);

// Bytes of object 7.
fn bytes(low: u64, high: u64) -> ObjectRange
    ensures object { result.object.0 ≡ 7 }
    ensures low { result.range.low ≡ low }
    ensures high { result.range.high ≡ high }
{
    ObjectRange {
        object: ObjectId(7),
        range: Range { low, high },
    }
}

// The first lock of a new table has name 0, whatever its mode.
fn the_first_lock_has_name_0(alloc: Global) -> Result<LockId, PoolError>
    ensures granted { IfOk result (λ id. id.0 ≡ 0) }
    ensures refused { IfErr result (λ e. e ≡ PoolError.NoMemory) }
{
    let mut locks = RangeLocks::new(alloc);
    prove!(locks.next_name() == LockId(0));
    locks.lock(ONE, bytes(0, 10), Mode::Writer)
}

// A writer may not touch the last byte that a reader has locked.
fn a_writer_waits_for_a_reader(locks: &mut RangeLocks) -> Result<LockId, PoolError>
    requires { locks.old.locks ≡ record {
      id = 3;
      owner = 1;
      mode = mode.Reader;
      range = record { number = 7; low = 0; high = 10 };
    } ∷ [] }
    ensures refused { result ≡ Err PoolError.Busy }
    ensures unchanged { locks.new ≡ locks.old }
{
    locks.lock(TWO, bytes(9, 12), Mode::Writer)
}

// It may begin at the byte after that one: then it is refused only for memory.
fn a_writer_may_begin_where_a_reader_ends(locks: &mut RangeLocks) -> Result<LockId, PoolError>
    requires { locks.old ≡ record {
      next = 4;
      locks = record {
        id = 3;
        owner = 1;
        mode = mode.Reader;
        range = record { number = 7; low = 0; high = 10 };
      } ∷ [];
    } }
    ensures granted { IfOk result (λ id. id.0 ≡ 4) }
    ensures refused { IfErr result (λ e. e ≡ PoolError.NoMemory) }
{
    locks.lock(TWO, bytes(10, 12), Mode::Writer)
}

// A reader may overlap a reader.
fn a_reader_may_overlap_a_reader(locks: &mut RangeLocks) -> Result<LockId, PoolError>
    requires { locks.old ≡ record {
      next = 4;
      locks = record {
        id = 3;
        owner = 1;
        mode = mode.Reader;
        range = record { number = 7; low = 0; high = 10 };
      } ∷ [];
    } }
    ensures { IfErr result (λ e. e ≡ PoolError.NoMemory) }
{
    locks.lock(TWO, bytes(5, 15), Mode::Reader)
}

// An empty range, one past the greatest length, and one of no number are none to lock.
fn a_range_outside_its_limits_is_refused(locks: &mut RangeLocks) {
    let empty = locks.lock(ONE, bytes(5, 5), Mode::Reader);
    prove!(empty == Err(PoolError::BadRange));
    let long = locks.lock(ONE, bytes(0, 28_449_793), Mode::Reader);
    prove!(long == Err(PoolError::BadRange));
}

// A lock that is refused uses up no name.
fn a_refused_lock_uses_up_no_name(
    locks: &mut RangeLocks,
    range: ObjectRange,
) -> Result<LockId, PoolError>
    ensures { OnErr result (locks.new.next ≡ locks.old.next) }
{
    locks.lock(ONE, range, Mode::Reader)
}

// While 256 locks are held, no other is granted.
fn no_more_than_256_locks_are_held(locks: &mut RangeLocks) -> bool
    requires { length locks.old.locks ≡ 256 }
    ensures { result ≡ false }
{
    locks.lock(ONE, bytes(0, 10), Mode::Reader).is_ok()
}

// An append lock begins at the object's end and has the last byte of each range.
fn an_append_lock_has_the_last_byte(locks: &mut RangeLocks) -> Result<(LockId, Range), PoolError>
    ensures low { IfOk result (λ a. a.1.low ≡ 100) }
    ensures high { IfOk result (λ a. a.1.high ≡ 28449792) }
{
    locks.lock_append(ONE, ObjectId(7), Some(100))
}

// An object without a length has no end to append to.
fn an_absent_object_has_no_append_lock(locks: &mut RangeLocks) {
    let refused = locks.lock_append(ONE, ObjectId(7), None);
    prove!(refused == Err(PoolError::NoObject));
}

// No other owner may release a lock.
fn a_lock_is_not_released_by_another_owner(locks: &mut RangeLocks) -> Result<(), PoolError>
    requires { locks.old.locks ≡ record {
      id = 3;
      owner = 1;
      mode = mode.Writer;
      range = record { number = 7; low = 0; high = 10 };
    } ∷ [] }
    ensures refused { result ≡ Err PoolError.NoSuchLock }
    ensures unchanged { locks.new ≡ locks.old }
{
    prove!(locks.find(TWO, LockId(3)).is_none());
    locks.unlock(TWO, LockId(3))
}

// Its owner may, and the other locks stay held.
fn a_release_leaves_the_others(locks: &mut RangeLocks)
    requires { locks.old.locks
        ≡ record { id = 3; owner = 1; mode = mode.Reader; range = record { number = 7; low = 0; high = 10 } }
        ∷ record { id = 4; owner = 1; mode = mode.Reader; range = record { number = 7; low = 5; high = 15 } }
        ∷ [] }
{
    locks.unlock(ONE, LockId(3)).unwrap();
    prove!(locks.find(ONE, LockId(3)).is_none());
    prove!(locks.find(ONE, LockId(4)).is_some());
}

// A reader's lock covers its bytes for its owner, and no bytes for writing.
fn a_reader_covers_for_reading(locks: &RangeLocks)
    requires { locks.now.locks ≡ record {
      id = 3;
      owner = 1;
      mode = mode.Reader;
      range = record { number = 7; low = 0; high = 10 };
    } ∷ [] }
{
    prove!(locks.covers(ONE, &bytes(2, 10)));
    prove!(!locks.covers(TWO, &bytes(2, 10)));
    prove!(!locks.covers_for_writing(ONE, &bytes(2, 10)));
    prove!(!locks.covers_for_writing(ONE, &bytes(5, 5)));
}

// A writer's lock covers its bytes for writing, for its owner alone.
fn a_writer_covers_for_its_owner(locks: &RangeLocks)
    requires { locks.now.locks ≡ record {
      id = 3;
      owner = 1;
      mode = mode.Writer;
      range = record { number = 7; low = 0; high = 10 };
    } ∷ [] }
{
    prove!(locks.covers_for_writing(ONE, &bytes(2, 10)));
    prove!(!locks.covers_for_writing(ONE, &bytes(2, 11)));
    prove!(!locks.covers_for_writing(TWO, &bytes(2, 10)));
    prove!(!locks.covers(TWO, &bytes(2, 10)));
}

// Two readers that overlap have three pieces: both of them cover the middle one.
fn readers_that_overlap_have_three_pieces(locks: &RangeLocks) -> Result<Vec<HeldPiece>, PoolError>
    requires { locks.now.locks
        ≡ record { id = 3; owner = 1; mode = mode.Reader; range = record { number = 7; low = 0; high = 10 } }
        ∷ record { id = 4; owner = 2; mode = mode.Reader; range = record { number = 7; low = 5; high = 15 } }
        ∷ [] }
    ensures { IfOk result (λ pieces. pieces.items
        ≡ record { low = 0; high = 5; writer = false; readers = 1 }
        ∷ record { low = 5; high = 10; writer = false; readers = 2 }
        ∷ record { low = 10; high = 15; writer = false; readers = 1 } ∷ []) }
{
    locks.pieces(ObjectId(7))
}

// The held locks are listed in the order in which they were granted, each with its name.
fn held_locks_come_in_order_of_grant(locks: &RangeLocks) -> HeldLocks<'_>
    requires { locks.now.locks
        ≡ record { id = 3; owner = 1; mode = mode.Reader; range = record { number = 7; low = 0; high = 10 } }
        ∷ record { id = 4; owner = 2; mode = mode.Reader; range = record { number = 7; low = 5; high = 15 } }
        ∷ [] }
    ensures { map (λ lock. (grant_of lock).id) result ≡ 3 ∷ 4 ∷ [] }
{
    locks.held()
}
