//! What callers rest on of locks: who waits for whom, what is granted, and who releases it.

ghost use Rattle.std.specs.Prelude.{◌≡◌, ◌<◌, ◌∷◌, [], Err, IfOk, Some, false, length};
ghost use Rattle.base.specs.declared.range.Mode.TheVariants as mode;
ghost use Rattle.base.specs.history.Contents.{length_of};
ghost use Rattle.pool_tables.specs.Shows.{pool_shown};

use base::{LockId, Mode, ObjectId, Owner, PoolError, Range};
use pool_tables::PoolTables;
use range_locks::{HeldLocks, HeldPiece};

// While a writer holds the bytes 0 to 10 of an object, a reader is not granted the last of them.
fn a_reader_waits_for_a_writer(pool: &mut PoolTables, reader: Owner) -> Result<LockId, PoolError>
    requires running { (pool_shown pool.old).suspended ≡ false }
    requires held { (pool_shown pool.old).locks ≡ record {
      id = 3;
      owner = 1;
      range = record { number = 7; low = 0; high = 10 };
      mode = mode.Writer;
    } ∷ [] }
    ensures refused { result ≡ Err PoolError.Busy }
    ensures unchanged { pool_shown pool.new ≡ pool_shown pool.old }
{
    pool.lock(
        reader,
        ObjectId(7),
        Range { low: 9, high: 11 },
        Mode::Reader,
    )
}

// An append locks from the end of the object on.
fn an_append_begins_at_the_end(
    pool: &mut PoolTables,
    owner: Owner,
) -> Result<(LockId, Range), PoolError>
    requires { length_of (pool_shown pool.old).contents 7 ≡ Some 100 }
    ensures { IfOk result (λ granted. granted.1.low ≡ 100) }
{
    pool.lock_append(owner, ObjectId(7))
}

// No one releases a lock of another owner.
fn a_lock_of_another_is_not_released(pool: &mut PoolTables) -> Result<(), PoolError>
    requires running { (pool_shown pool.old).suspended ≡ false }
    requires held { (pool_shown pool.old).locks ≡ record {
      id = 3;
      owner = 1;
      range = record { number = 7; low = 0; high = 10 };
      mode = mode.Writer;
    } ∷ [] }
    ensures refused { result ≡ Err PoolError.NoSuchLock }
    ensures unchanged { pool_shown pool.new ≡ pool_shown pool.old }
{
    pool.unlock(Owner(2), LockId(3))
}

// Without a lock none is told.
fn no_lock_is_told(pool: &PoolTables) -> HeldLocks<'_>
    requires { (pool_shown pool.now).locks ≡ [] }
    ensures { length result ≡ 0 }
{
    pool.held()
}

// Nor is a piece.
fn no_piece_is_told(pool: &PoolTables, number: ObjectId) -> Result<Vec<HeldPiece>, PoolError>
    requires { (pool_shown pool.now).locks ≡ [] }
    ensures { IfOk result (λ pieces. pieces.items ≡ []) }
{
    pool.pieces(number)
}
