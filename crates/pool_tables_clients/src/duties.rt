//! What callers rest on of what is due next, and of receipts.

ghost use Rattle.std.specs.Prelude.{◌≡◌, ◌<◌, ◌∷◌, [], Err, None, Some, false};
ghost use Rattle.base.specs.declared.step.Step.TheVariants as step;
ghost use Rattle.base.specs.disk.Disk.{written};
ghost use Rattle.records.specs.Records.{record_fields};
ghost use Rattle.pool_tables.specs.Shows.{pool_shown};

use base::{Group, Ordinal, PoolError, Receipt, Step};
use pool_tables::{Duty, PoolTables};
use records::Record;

// What is pending is written first.
fn a_pending_record_is_due_for_the_log(pool: &PoolTables, pending: &Record) -> Option<Step>
    requires { (pool_shown pool.now).log.pending ≡ record_fields pending.now ∷ [] }
    ensures { result ≡ Some step.LogWrite }
{
    let _ = pending;
    pool.due_step(Duty::CommitLog)
}

// So is the next part of a record that is begun.
fn a_begun_record_is_due_for_the_log(pool: &PoolTables, begun: &Record) -> Option<Step>
    requires pending { (pool_shown pool.now).log.pending ≡ [] }
    requires begun { (pool_shown pool.now).log.begun
        ≡ Some (record { logged = record_fields begun.now; written = 4008 }) }
    ensures { result ≡ Some step.LogWrite }
{
    let _ = begun;
    pool.due_step(Duty::CommitLog)
}

// Group 8 is synced already.
fn nothing_is_due_for_a_synced_group(pool: &PoolTables) -> Option<Step>
    requires { (pool_shown pool.now).line.synced ≡ 8 }
    ensures { result ≡ None }
{
    pool.due_step(Duty::SyncUpTo(Group(8), 7))
}

// A sync that runs goes on first.
fn a_running_sync_is_due_first(pool: &PoolTables) -> Option<Step>
    requires synced { (pool_shown pool.now).line.synced ≡ 8 }
    requires syncing { (pool_shown pool.now).line.syncing ≡ Some 9 }
    ensures { result ≡ Some step.SyncStep }
{
    pool.due_step(Duty::SyncUpTo(Group(10), 7))
}

// No transaction of group 9 is in the log, and none waits for it.
fn an_unknown_receipt_is_refused(pool: &PoolTables) -> Result<bool, PoolError>
    requires running { (pool_shown pool.now).suspended ≡ false }
    requires synced { (pool_shown pool.now).line.synced ≡ 8 }
    requires pending { (pool_shown pool.now).log.pending ≡ [] }
    requires kept { (pool_shown pool.now).log.kept ≡ [] }
    ensures { result ≡ Err PoolError.BadRange }
{
    pool.check_receipt(Receipt {
        ordinal: Ordinal(5),
        group: Group(9),
    })
}
