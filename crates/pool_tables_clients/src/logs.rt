//! What callers rest on of the intent log: what a write takes of what is pending, and what a flush makes durable.

ghost use Rattle.std.specs.Prelude.{◌≡◌, ◌<◌, ◌≤◌, ◌∷◌, [], ℕ, List, Err, IfOk, IfSome, IsTrue, None, Ok, OnOk, Some, false, length, slice_get, true};
ghost use Rattle.base.specs.disk.Disk.{written};
ghost use Rattle.base.specs.formats.Fields.{number_at};
ghost use Rattle.base.specs.formats.Records.{size_of};
ghost use Rattle.base.specs.steps.Refusals.{log_write_refusal};
ghost use Rattle.base.specs.steps.Shown.{available};
ghost use Rattle.records.specs.Records.{record_fields};
ghost use Rattle.pool_tables.specs.Shows.{geometry_of, pool_shown};

use base::{Group, Ordinal, PoolError, Receipt};
use device_model::SectorDevice;
use pool_tables::PoolTables;
use records::Record;

// One record of at most 4,008 bytes that is pending is written, and pending no more.
fn a_pending_record_is_written<D: SectorDevice>(
    pool: &mut PoolTables,
    device: &mut D,
) -> Result<u64, PoolError>
    requires sized { D.size device.old ≡ geometry_of pool.old }
    requires begun { (pool_shown pool.old).log.begun ≡ None }
    requires one { length (pool_shown pool.old).log.pending ≡ 1 }
    requires short { IfSome (slice_get (pool_shown pool.old).log.pending 0)
        (λ r. size_of r ≤ 4008) }
    ensures count { IfOk result (λ count. count ≡ 1) }
    ensures left { OnOk result ((pool_shown pool.new).log.pending ≡ []) }
{
    pool.log_write(device)
}

// Of a longer one 4,008 bytes are written, which finishes none.
fn a_long_record_is_begun<D: SectorDevice>(
    pool: &mut PoolTables,
    device: &mut D,
    pending: &Record,
) -> Result<u64, PoolError>
    requires sized { D.size device.old ≡ geometry_of pool.old }
    requires begun { (pool_shown pool.old).log.begun ≡ None }
    requires one { (pool_shown pool.old).log.pending ≡ record_fields pending.now ∷ [] }
    requires long { 4008 < size_of (record_fields pending.now) }
    ensures count { IfOk result (λ count. count ≡ 0) }
    ensures left { OnOk result (((pool_shown pool.new).log.pending ≡ [])
        × ((pool_shown pool.new).log.begun
        ≡ Some (record { logged = record_fields pending.now; written = 4008 }))) }
{
    let _ = pending;
    pool.log_write(device)
}

// What is left of it goes into a block of its own, and then the record is finished. What is pending stays.
fn a_last_part_takes_nothing_else<D: SectorDevice>(
    pool: &mut PoolTables,
    device: &mut D,
    begun: &Record,
) -> Result<u64, PoolError>
    requires sized { D.size device.old ≡ geometry_of pool.old }
    requires begun { (pool_shown pool.old).log.begun
        ≡ Some (record { logged = record_fields begun.now; written = 4008 }) }
    requires size { size_of (record_fields begun.now) ≡ 4009 }
    ensures count { IfOk result (λ count. count ≡ 1) }
    ensures whole { OnOk result ((pool_shown pool.new).log.begun ≡ None) }
    ensures pending { OnOk result
        ((pool_shown pool.new).log.pending ≡ (pool_shown pool.old).log.pending) }
{
    let _ = begun;
    pool.log_write(device)
}

// A record of 8,017 bytes has three parts: the second one finishes none.
fn a_middle_part_finishes_none<D: SectorDevice>(
    pool: &mut PoolTables,
    device: &mut D,
    begun: &Record,
) -> Result<u64, PoolError>
    requires sized { D.size device.old ≡ geometry_of pool.old }
    requires begun { (pool_shown pool.old).log.begun
        ≡ Some (record { logged = record_fields begun.now; written = 4008 }) }
    requires size { size_of (record_fields begun.now) ≡ 8017 }
    ensures count { IfOk result (λ count. count ≡ 0) }
    ensures more { OnOk result ((pool_shown pool.new).log.begun
        ≡ Some (record { logged = record_fields begun.now; written = 8016 })) }
{
    let _ = begun;
    pool.log_write(device)
}

// Nothing is written if nothing is pending and nothing begun.
fn nothing_pending_is_not_written<D: SectorDevice>(
    pool: &mut PoolTables,
    device: &mut D,
) -> Result<u64, PoolError>
    requires sized { D.size device.old ≡ geometry_of pool.old }
    requires running { (pool_shown pool.old).suspended ≡ false }
    requires none { (pool_shown pool.old).log.pending ≡ [] }
    requires begun { (pool_shown pool.old).log.begun ≡ None }
    ensures refused { result ≡ Err PoolError.NotReady }
    ensures unchanged { pool_shown pool.new ≡ pool_shown pool.old }
{
    pool.log_write(device)
}

// A log write leaves the 16 blocks that are kept back.
fn no_log_block_takes_a_kept_back_one<D: SectorDevice>(
    pool: &mut PoolTables,
    device: &mut D,
) -> Result<u64, PoolError>
    requires sized { D.size device.old ≡ geometry_of pool.old }
    requires running { (pool_shown pool.old).suspended ≡ false }
    requires one { length (pool_shown pool.old).log.pending ≡ 1 }
    requires few { available (pool_shown pool.old) ≡ 16 }
    ensures refused { result ≡ Err PoolError.NoLogSpace }
    ensures unchanged { pool_shown pool.new ≡ pool_shown pool.old }
{
    pool.log_write(device)
}

// If the device refuses it, the pool is suspended.
fn a_refused_log_write_suspends_the_pool<D: SectorDevice>(
    pool: &mut PoolTables,
    device: &mut D,
) -> Result<u64, PoolError>
    requires sized { D.size device.old ≡ geometry_of pool.old }
    requires passes { log_write_refusal (pool_shown pool.old) ≡ None }
    ensures { result ≡ Err PoolError.Write → (pool_shown pool.new).suspended ≡ true }
{
    pool.log_write(device)
}

// A log write is one write of a block of the log's kind, at the log's next address.
fn a_log_write_is_one_write<D: SectorDevice>(
    pool: &mut PoolTables,
    device: &mut D,
) -> Result<u64, PoolError>
    requires sized { D.size device.old ≡ geometry_of pool.old }
    requires keeps { IsTrue D.keeps_model }
    ensures { IfOk result (λ _. (content : List ℕ) × (number_at content 0 ≡ 6)
        × (D.disk device.new ≡ written (pool_shown pool.old).log.next.address content true
        (D.disk device.old))) }
{
    pool.log_write(device)
}

// A record that is written and not flushed is not durable, answered or refused.
fn a_written_record_is_not_durable_yet<D: SectorDevice>(
    pool: &mut PoolTables,
    device: &mut D,
) -> bool
    requires sized { D.size device.old ≡ geometry_of pool.old }
    requires synced { (pool_shown pool.old).line.synced ≡ 8 }
    requires none { (pool_shown pool.old).log.kept ≡ [] }
    ensures { result ≡ false }
{
    let _ = pool.log_write(device);
    pool.durable(Receipt {
        ordinal: Ordinal(7),
        group: Group(9),
    })
}

// It is durable after a flush that is answered.
fn a_flushed_record_is_durable<D: SectorDevice>(
    pool: &mut PoolTables,
    device: &mut D,
) -> Result<bool, PoolError>
    requires { (pool_shown pool.old).log.kept
        ≡ record { address = 4202496; number = 3; begins = []; ends = record { ordinal = 7; group = 9 } ∷ []; flushed = false }
        ∷ [] }
    ensures { IfOk result (λ is. is ≡ true) }
{
    pool.log_flush(device)?;
    Ok(pool.durable(Receipt {
        ordinal: Ordinal(7),
        group: Group(9),
    }))
}

// After it the device has nothing that is not flushed.
fn a_log_flush_leaves_nothing_unflushed<D: SectorDevice>(
    pool: &mut PoolTables,
    device: &mut D,
) -> Result<(), PoolError>
    requires { IsTrue D.keeps_model }
    ensures { OnOk result ((D.disk device.new).now.unflushed ≡ []) }
{
    pool.log_flush(device)
}

// A kept block comes back by a sync, if no record is begun.
fn a_kept_block_would_come_back(pool: &PoolTables) -> bool
    requires kept { length (pool_shown pool.now).log.kept ≡ 1 }
    requires none { (pool_shown pool.now).log.begun ≡ None }
    ensures { result ≡ true }
{
    pool.keeps_whole_log()
}
