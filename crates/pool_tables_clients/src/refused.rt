//! What callers rest on of a step that the device refuses: it made that call, and the device counts it.

ghost use Rattle.std.specs.Prelude.{◌≡◌, ◌<◌, Err, OnOk};
ghost use Rattle.pool_tables.specs.Shows.{geometry_of};

use base::{Group, PoolError};
use device_model::SectorDevice;
use object_maps::BlockReader;
use pool_tables::{PoolTables, Progress};

// A step of a sync that is refused as a write, or as a flush, had that call refused, once.
fn a_refused_sync_step_is_one_refused_call<B: BlockReader>(
    pool: &mut PoolTables,
    device: &mut B,
) -> Result<Progress, PoolError>
    requires sized { B.size device.old ≡ geometry_of pool.old }
    requires count { B.refused device.old ≡ record { reads = 1; writes = 4; flushes = 7 } }
    ensures write { result ≡ Err PoolError.Write
        → B.refused device.new ≡ record { reads = 1; writes = 5; flushes = 7 } }
    ensures flush { result ≡ Err PoolError.Flush
        → B.refused device.new ≡ record { reads = 1; writes = 4; flushes = 8 } }
    ensures good { OnOk result (B.refused device.new ≡ B.refused device.old) }
{
    pool.sync_step(device)
}

// A start of a sync whose read the device refuses leaves the pool as it was. It had that read refused, once.
fn a_start_that_is_refused_a_read_changes_nothing<B: BlockReader>(
    pool: &mut PoolTables,
    reader: &mut B,
    moment: u64,
) -> Result<Group, PoolError>
    requires sized { B.size reader.old ≡ geometry_of pool.old }
    requires count { B.refused reader.old ≡ record { reads = 1; writes = 4; flushes = 7 } }
    ensures read { result ≡ Err PoolError.Read
        → B.refused reader.new ≡ record { reads = 2; writes = 4; flushes = 7 } }
    ensures unchanged { result ≡ Err PoolError.Read → pool.new ≡ pool.old }
    ensures good { OnOk result (B.refused reader.new ≡ B.refused reader.old) }
{
    pool.start_sync(reader, moment)
}

fn a_refused_log_write_is_one_refused_write<D: SectorDevice>(
    pool: &mut PoolTables,
    device: &mut D,
) -> Result<u64, PoolError>
    requires sized { D.size device.old ≡ geometry_of pool.old }
    requires count { D.refused device.old ≡ record { reads = 1; writes = 4; flushes = 7 } }
    ensures write { result ≡ Err PoolError.Write
        → D.refused device.new ≡ record { reads = 1; writes = 5; flushes = 7 } }
    ensures good { OnOk result (D.refused device.new ≡ D.refused device.old) }
{
    pool.log_write(device)
}

fn a_refused_log_flush_is_one_refused_flush<D: SectorDevice>(
    pool: &mut PoolTables,
    device: &mut D,
) -> Result<(), PoolError>
    requires { D.refused device.old ≡ record { reads = 1; writes = 4; flushes = 7 } }
    ensures flush { result ≡ Err PoolError.Flush
        → D.refused device.new ≡ record { reads = 1; writes = 4; flushes = 8 } }
    ensures good { OnOk result (D.refused device.new ≡ D.refused device.old) }
{
    pool.log_flush(device)
}
