//! What callers rest on of what a pool shows: bytes, lengths, the digest, the name, the available blocks.

ghost use Rattle.std.specs.Prelude.{◌≡◌, ◌<◌, ◌∷◌, [], Err, IfOk, IsTrue, None, Ok, Some, false, true};
ghost use Rattle.std.specs.FinMap as finite;
ghost use Rattle.base.specs.disk.Disk.{bytes_of};
ghost use Rattle.base.specs.formats.Digest.{digest_of};
ghost use Rattle.base.specs.history.Contents.{length_of};
ghost use Rattle.base.specs.history.Past.{Past};
ghost use Rattle.base.specs.steps.Shown.{free_count, reserved_total};
ghost use Rattle.base.specs.kept.Stored.{IsHeld};
ghost use Rattle.pool_tables.specs.Shows.{geometry_of, pool_shown};
ghost use Rattle.pool_tables.specs.Told.{held_with, pool_told};

use base::{Bytes, ObjectId, Owner, PoolError, PoolName, Range};
use object_maps::BlockReader;
use pool_tables::PoolTables;

// A read over a device that holds the pool gives the bytes of its range, from the first one on.
fn a_read_gives_the_bytes_of_its_range<B: BlockReader>(
    pool: &PoolTables,
    reader: &mut B,
    owner: Owner,
) -> Result<Bytes, PoolError>
    requires sized { B.size reader.old ≡ geometry_of pool.now }
    requires keeps { IsTrue B.keeps_model }
    requires held { (past : Past) × IsHeld
        (held_with (pool_told pool.now (bytes_of (B.disk reader.old).now)) past) }
    requires object { finite.get (pool_shown pool.now).contents.objects 7
        ≡ Some (10 ∷ 11 ∷ 12 ∷ 13 ∷ []) }
    ensures { IfOk result (λ bytes. bytes ≡ 11 ∷ 12 ∷ []) }
{
    pool.read(reader, owner, ObjectId(7), Range { low: 1, high: 3 })
}

// A read that a suspended pool refuses asks the device for nothing, and counts nothing.
fn a_suspended_pool_reads_nothing<B: BlockReader>(
    pool: &PoolTables,
    reader: &mut B,
    owner: Owner,
) -> Result<Bytes, PoolError>
    requires sized { B.size reader.old ≡ geometry_of pool.now }
    requires suspended { (pool_shown pool.now).suspended ≡ true }
    ensures refused { result ≡ Err PoolError.Suspended }
    ensures uncounted { B.refused reader.new ≡ B.refused reader.old }
{
    pool.read(reader, owner, ObjectId(7), Range { low: 1, high: 3 })
}

// The length of an object is that of all its bytes, also of those of unsynced groups.
fn a_length_counts_all_bytes(pool: &PoolTables) -> Result<u64, PoolError>
    requires running { (pool_shown pool.now).suspended ≡ false }
    requires present { length_of (pool_shown pool.now).contents 7 ≡ Some 100 }
    ensures { result ≡ Ok 100 }
{
    pool.length(ObjectId(7))
}

// A digest over a device that holds the pool is that of the shown contents, with the changes of the unsynced groups.
fn a_digest_is_of_the_shown_contents<B: BlockReader>(
    pool: &PoolTables,
    reader: &mut B,
) -> Result<[u8; 32], PoolError>
    requires sized { B.size reader.old ≡ geometry_of pool.now }
    requires keeps { IsTrue B.keeps_model }
    requires held { (past : Past) × IsHeld
        (held_with (pool_told pool.now (bytes_of (B.disk reader.old).now)) past) }
    ensures { IfOk result (λ digest. digest ≡ digest_of (pool_shown pool.now).contents) }
{
    pool.digest(reader)
}

// The name is that of the shown contents.
fn a_pool_tells_its_name(pool: &PoolTables) -> PoolName
    requires { (pool_shown pool.now).contents.name ≡ 122 ∷ 105 ∷ [] }
    ensures { result ≡ 122 ∷ 105 ∷ [] }
{
    pool.name()
}

// What is reserved of the free blocks is not available.
fn reserved_blocks_are_not_available(pool: &PoolTables) -> u64
    requires free { free_count (pool_shown pool.now) ≡ 100 }
    requires reserved { reserved_total (pool_shown pool.now) ≡ 30 }
    requires idle { (pool_shown pool.now).sync ≡ None }
    ensures { result ≡ 70 }
{
    pool.status().available
}
