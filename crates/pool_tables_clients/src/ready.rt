//! What callers rest on of the steps that may be refused as not ready: each has its time, is made then, and is refused
//! so at any other.

ghost use Rattle.std.specs.Prelude.{◌≡◌, ◌<◌, ◌∷◌, ◌⊎◌, [], Err, IfErr, IfOk, None, Ok, Some, false, length, true, ◌≢◌};
ghost use Rattle.base.specs.disk.Disk.{written};
ghost use Rattle.base.specs.history.Past.{Past};
ghost use Rattle.base.specs.steps.Tables.{AreTablesExplained};
ghost use Rattle.base.specs.steps.Groups.{hold_count};
ghost use Rattle.base.specs.steps.Shown.{available};
ghost use Rattle.pool_tables.specs.Shows.{geometry_of, pool_shown};

use base::{Group, PoolError};
use device_model::SectorDevice;
use object_maps::BlockReader;
use pool_tables::{PoolTables, Progress};

// The open group is closed if no other one is, and the next one opens.
fn an_open_group_is_closed(pool: &mut PoolTables) -> Result<Group, PoolError>
    requires running { (pool_shown pool.old).suspended ≡ false }
    requires none { (pool_shown pool.old).line.middle ≡ None }
    requires last { (pool_shown pool.old).line.open_group ≡ 9 }
    ensures opened { result ≡ Ok (record { 0 = 10 }) }
    ensures closed { (pool_shown pool.new).line.middle
        ≡ Some (record { group = 9; quiesced = false }) }
{
    pool.close_group()
}

// A closed group has to start its sync before the next one is closed.
fn one_closed_group_waits_at_a_time(pool: &mut PoolTables) -> Result<Group, PoolError>
    requires running { (pool_shown pool.old).suspended ≡ false }
    requires closed { (pool_shown pool.old).line.middle
        ≡ Some (record { group = 9; quiesced = true }) }
    ensures refused { result ≡ Err PoolError.NotReady }
    ensures unchanged { pool_shown pool.new ≡ pool_shown pool.old }
{
    pool.close_group()
}

// A closed group of which no transaction is open is quiesced.
fn a_group_without_a_transaction_is_quiesced(pool: &mut PoolTables) -> Result<Group, PoolError>
    requires running { (pool_shown pool.old).suspended ≡ false }
    requires closed { (pool_shown pool.old).line.middle
        ≡ Some (record { group = 9; quiesced = false }) }
    requires none { hold_count 9 (pool_shown pool.old).transactions ≡ 0 }
    ensures marked { result ≡ Ok (record { 0 = 9 }) }
    ensures quiesced { (pool_shown pool.new).line.middle
        ≡ Some (record { group = 9; quiesced = true }) }
{
    pool.mark_quiesced()
}

// It is quiesced once.
fn a_quiesced_group_is_not_quiesced_again(pool: &mut PoolTables) -> Result<Group, PoolError>
    requires running { (pool_shown pool.old).suspended ≡ false }
    requires closed { (pool_shown pool.old).line.middle
        ≡ Some (record { group = 9; quiesced = true }) }
    ensures refused { result ≡ Err PoolError.NotReady }
    ensures unchanged { pool_shown pool.new ≡ pool_shown pool.old }
{
    pool.mark_quiesced()
}

// Once no group is syncing, the sync of a quiesced one starts, or is refused for what no test sees.
fn a_quiesced_group_is_ready_to_be_synced<B: BlockReader>(
    pool: &mut PoolTables,
    reader: &mut B,
    moment: u64,
) -> Result<Group, PoolError>
    requires sized { B.size reader.old ≡ geometry_of pool.old }
    requires running { (pool_shown pool.old).suspended ≡ false }
    requires quiesced { (pool_shown pool.old).line.middle
        ≡ Some (record { group = 9; quiesced = true }) }
    requires none { (pool_shown pool.old).line.syncing ≡ None }
    ensures started { (past : Past) → AreTablesExplained (pool_shown pool.old) past
        → IfOk result (λ group. group.0 ≡ 9) }
    ensures refused { (past : Past) → AreTablesExplained (pool_shown pool.old) past
        → IfErr result (λ e. e ≢ PoolError.NotReady) }
{
    pool.start_sync(reader, moment)
}

// Two groups are never syncing.
fn no_sync_starts_beside_another<B: BlockReader>(
    pool: &mut PoolTables,
    reader: &mut B,
    moment: u64,
) -> Result<Group, PoolError>
    requires sized { B.size reader.old ≡ geometry_of pool.old }
    requires running { (pool_shown pool.old).suspended ≡ false }
    requires quiesced { (pool_shown pool.old).line.middle
        ≡ Some (record { group = 10; quiesced = true }) }
    requires syncing { (pool_shown pool.old).line.syncing ≡ Some 9 }
    ensures refused { (past : Past) → AreTablesExplained (pool_shown pool.old) past
        → result ≡ Err PoolError.NotReady }
    ensures unchanged { (past : Past) → AreTablesExplained (pool_shown pool.old) past
        → pool_shown pool.new ≡ pool_shown pool.old }
{
    pool.start_sync(reader, moment)
}

// A group whose transactions may still commit is not synced.
fn a_group_that_quiesces_is_not_synced_yet<B: BlockReader>(
    pool: &mut PoolTables,
    reader: &mut B,
    moment: u64,
) -> Result<Group, PoolError>
    requires sized { B.size reader.old ≡ geometry_of pool.old }
    requires running { (pool_shown pool.old).suspended ≡ false }
    requires closed { (pool_shown pool.old).line.middle
        ≡ Some (record { group = 9; quiesced = false }) }
    ensures refused { (past : Past) → AreTablesExplained (pool_shown pool.old) past
        → result ≡ Err PoolError.NotReady }
    ensures unchanged { (past : Past) → AreTablesExplained (pool_shown pool.old) past
        → pool_shown pool.new ≡ pool_shown pool.old }
{
    pool.start_sync(reader, moment)
}

// A sync that runs goes on unless the device refuses its call, and syncs its own group.
fn a_running_sync_goes_on<B: BlockReader>(
    pool: &mut PoolTables,
    device: &mut B,
) -> Result<Progress, PoolError>
    requires sized { B.size device.old ≡ geometry_of pool.old }
    requires running { (pool_shown pool.old).suspended ≡ false }
    requires syncing { (pool_shown pool.old).line.syncing ≡ Some 9 }
    ensures goes_on { IfOk result
        (λ p. (p ≡ Progress.More) ⊎ (p ≡ Progress.Synced (record { 0 = 9 }))) }
    ensures refused { IfErr result (λ e. (e ≡ PoolError.Write) ⊎ (e ≡ PoolError.Flush)) }
{
    pool.sync_step(device)
}

// Without a sync none goes on.
fn no_sync_goes_on_if_none_runs<B: BlockReader>(
    pool: &mut PoolTables,
    device: &mut B,
) -> Result<Progress, PoolError>
    requires sized { B.size device.old ≡ geometry_of pool.old }
    requires running { (pool_shown pool.old).suspended ≡ false }
    requires none { (pool_shown pool.old).line.syncing ≡ None }
    ensures refused { result ≡ Err PoolError.NotReady }
    ensures unchanged { pool_shown pool.new ≡ pool_shown pool.old }
{
    pool.sync_step(device)
}

// One block more than the 16 that are kept back suffices for a log block.
fn a_log_write_needs_no_more_than_17_blocks<D: SectorDevice>(
    pool: &mut PoolTables,
    device: &mut D,
) -> Result<u64, PoolError>
    requires sized { D.size device.old ≡ geometry_of pool.old }
    requires running { (pool_shown pool.old).suspended ≡ false }
    requires one { length (pool_shown pool.old).log.pending ≡ 1 }
    requires enough { available (pool_shown pool.old) ≡ 17 }
    requires number { (pool_shown pool.old).log.next.number ≡ 3 }
    ensures { IfErr result (λ e. (e ≡ PoolError.NoMemory) ⊎ (e ≡ PoolError.Write)) }
{
    pool.log_write(device)
}

// A log block that was written is flushed unless the device refuses.
fn a_written_log_block_is_flushed<D: SectorDevice>(
    pool: &mut PoolTables,
    device: &mut D,
) -> Result<(), PoolError>
    requires running { (pool_shown pool.old).suspended ≡ false }
    requires written { (pool_shown pool.old).log.kept
        ≡ record { address = 4202496; number = 3; begins = []; ends = record { ordinal = 7; group = 9 } ∷ []; flushed = false }
        ∷ [] }
    ensures { IfErr result (λ e. e ≡ PoolError.Flush) }
{
    pool.log_flush(device)
}

// It is flushed once.
fn a_certain_log_block_is_not_flushed_again<D: SectorDevice>(
    pool: &mut PoolTables,
    device: &mut D,
) -> Result<(), PoolError>
    requires running { (pool_shown pool.old).suspended ≡ false }
    requires certain { (pool_shown pool.old).log.kept
        ≡ record { address = 4202496; number = 3; begins = []; ends = record { ordinal = 7; group = 9 } ∷ []; flushed = true }
        ∷ [] }
    ensures refused { result ≡ Err PoolError.NotReady }
    ensures unchanged { pool_shown pool.new ≡ pool_shown pool.old }
{
    pool.log_flush(device)
}
