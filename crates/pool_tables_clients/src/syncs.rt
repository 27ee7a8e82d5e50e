//! What callers rest on of a group's sync: when it may start, and what it writes.

ghost use Rattle.std.specs.Prelude.{◌≡◌, ◌⊎◌, [], ℕ, List, Err, IfErr, IfOk, IsTrue, None, Some, false, true};
ghost use Rattle.base.specs.disk.Disk.{bytes_of, put};
ghost use Rattle.base.specs.history.Past.{Past};
ghost use Rattle.base.specs.steps.Tables.{AreTablesExplained};
ghost use Rattle.base.specs.steps.Groups.{hold_count};
ghost use Rattle.base.specs.steps.Shown.{SyncPlan};
ghost use Rattle.base.specs.steps.Steps.{IsReplayUpTo};
ghost use Rattle.base.specs.kept.Stored.{IsHeld};
ghost use Rattle.base.specs.kept.SyncCalls.{NewTree};
ghost use Rattle.pool_tables.specs.Shows.{geometry_of, pool_shown};
ghost use Rattle.pool_tables.specs.Told.{held_with, pool_told};

use base::{Group, PoolError};
use object_maps::BlockReader;
use pool_tables::{PoolTables, Progress};

// A group with an open transaction is not quiesced.
fn a_group_with_an_open_transaction_is_not_quiesced(
    pool: &mut PoolTables,
) -> Result<Group, PoolError>
    requires running { (pool_shown pool.old).suspended ≡ false }
    requires closed { (pool_shown pool.old).line.middle
        ≡ Some (record { group = 9; quiesced = false }) }
    requires open { hold_count 9 (pool_shown pool.old).transactions ≡ 1 }
    ensures refused { result ≡ Err PoolError.NotReady }
    ensures unchanged { pool_shown pool.new ≡ pool_shown pool.old }
{
    pool.mark_quiesced()
}

// A sync writes what its group left, without what later groups did.
fn a_sync_writes_what_its_group_left<B: BlockReader>(
    pool: &mut PoolTables,
    reader: &mut B,
    moment: u64,
) -> Result<Group, PoolError>
    requires sized { B.size reader.old ≡ geometry_of pool.old }
    ensures { IfOk result (λ group. (past : Past) → AreTablesExplained (pool_shown pool.old) past
        → (plan : SyncPlan) × ((pool_shown pool.new).sync ≡ Some plan)
        × IsReplayUpTo group.0 past plan.contents) }
{
    pool.start_sync(reader, moment)
}

// Over a device that holds the pool, the sync of a quiesced group starts, or needs memory or a read. It finds no block
// damaged.
fn a_start_finds_no_damage<B: BlockReader>(
    pool: &mut PoolTables,
    reader: &mut B,
    moment: u64,
) -> Result<Group, PoolError>
    requires sized { B.size reader.old ≡ geometry_of pool.old }
    requires keeps { IsTrue B.keeps_model }
    requires held { (past : Past) × IsHeld
        (held_with (pool_told pool.old (bytes_of (B.disk reader.old).now)) past) }
    requires running { (pool_shown pool.old).suspended ≡ false }
    requires quiesced { (pool_shown pool.old).line.middle
        ≡ Some (record { group = 9; quiesced = true }) }
    requires none { (pool_shown pool.old).line.syncing ≡ None }
    ensures { IfErr result (λ e. (e ≡ PoolError.NoMemory) ⊎ (e ≡ PoolError.Read)) }
{
    pool.start_sync(reader, moment)
}

// A sync without a block begins with a flush. If its group gives a name, the config of label 0 comes next.
fn a_rename_writes_label_0_first<B: BlockReader>(
    pool: &mut PoolTables,
    device: &mut B,
) -> Result<Progress, PoolError>
    requires sized { B.size device.old ≡ geometry_of pool.old }
    requires keeps { IsTrue B.keeps_model }
    ensures { IfOk result (λ _. (tree : NewTree) (config : List ℕ)
        → (pool_told pool.old (bytes_of (B.disk device.old).now)).running ≡ Some tree
        → tree.blocks ≡ [] → tree.stages ≡ Some config → tree.done ≡ 1
        → bytes_of (B.disk device.new).now
        ≡ put 16384 config (bytes_of (B.disk device.old).now)) }
{
    pool.sync_step(device)
}
