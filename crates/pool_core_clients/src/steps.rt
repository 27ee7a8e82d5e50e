//! What callers rest on of the calls that are one step, of runs of steps, and of a group that is synced.

ghost use Rattle.std.specs.Prelude.{◌≡◌, ◌∷◌, [], Err, IfErr, IfOk, IfSome, IsTrue, None, Ok, Some, false, is_some, length, true};
ghost use Rattle.base.specs.declared.step.Reply.TheVariants as reply;
ghost use Rattle.base.specs.declared.step.Step.TheVariants as step;
ghost use Rattle.base.specs.steps.Shown.{dirty_of};
ghost use Rattle.pool_core.specs.GroupSyncs.{AndThen, Call, SyncsClosed};
ghost use Rattle.pool_core.specs.KeptSafe.{disk_of};
ghost use Rattle.pool_core.specs.States.{device_of, shown};

use base::{
    Bytes, Group, LockId, ObjectId, Ordinal, Owner, PoolError, Range, Receipt, Reply, Step,
};
use device_model::{Fault, MemDevice, SectorDevice};
use pool_core::{PoolState, run};
use pool_tables::Duty;

// A suspended pool releases no lock.
fn a_suspended_pool_releases_no_lock<D: SectorDevice>(
    pool: &mut PoolState<D>,
    owner: Owner,
    id: LockId,
) -> Result<(), PoolError>
    requires { (shown pool.old).suspended ≡ true }
    ensures refused { result ≡ Err PoolError.Suspended }
    ensures unchanged { shown pool.new ≡ shown pool.old }
{
    pool.unlock(owner, id)
}

// A read changes nothing that is shown, and no byte of the device.
fn a_read_changes_nothing_that_is_shown<D: SectorDevice>(
    pool: &mut PoolState<D>,
    owner: Owner,
) -> Result<Bytes, PoolError>
    ensures unchanged { shown pool.new ≡ shown pool.old }
    ensures disk { IsTrue D.keeps_model
        → D.disk (device_of pool.new) ≡ D.disk (device_of pool.old) }
{
    pool.read(owner, ObjectId(7), Range { low: 0, high: 4 })
}

// A digest that is refused a read has counted it, and leaves the pool running.
fn a_refused_read_of_a_digest_is_counted<D: SectorDevice>(
    pool: &mut PoolState<D>,
) -> Result<[u8; 32], PoolError>
    requires running { (shown pool.old).suspended ≡ false }
    requires none { D.refused (device_of pool.old)
        ≡ record { reads = 0; writes = 0; flushes = 0 } }
    ensures counted { IfErr result (λ e. e ≡ PoolError.Read → D.refused (device_of pool.new)
        ≡ record { reads = 1; writes = 0; flushes = 0 }) }
    ensures running { (shown pool.new).suspended ≡ false }
{
    pool.digest()
}

// Group 8 is synced, so a commit to it is durable.
fn a_synced_commit_is_durable<D: SectorDevice>(pool: &PoolState<D>) -> bool
    requires { (shown pool.now).line.synced ≡ 8 }
    ensures { result ≡ true }
{
    pool.durable(Receipt {
        ordinal: Ordinal(3),
        group: Group(8),
    })
}

// No log block is kept and group 9 isn't synced, so a commit to it isn't durable.
fn an_unsynced_commit_is_not_durable<D: SectorDevice>(pool: &PoolState<D>) -> bool
    requires synced { (shown pool.now).line.synced ≡ 8 }
    requires none { (shown pool.now).log.kept ≡ [] }
    ensures { result ≡ false }
{
    pool.durable(Receipt {
        ordinal: Ordinal(3),
        group: Group(9),
    })
}

// A run of no steps has no reply, and leaves the pool unchanged.
fn no_steps_change_nothing<D: SectorDevice>(
    pool: &mut PoolState<D>,
) -> Result<Vec<Reply>, PoolError>
    ensures none { IfOk result (λ replies. replies.items ≡ []) }
    ensures unchanged { pool.new ≡ pool.old }
{
    let none = Vec::new(pool.alloc());
    run(pool, none)
}

// A run that asks for the name has the name as its one reply.
fn the_reply_to_a_name_is_the_name<D: SectorDevice>(
    pool: &mut PoolState<D>,
    steps: Vec<Step>,
) -> Result<Vec<Reply>, PoolError>
    requires { steps.items ≡ step.Name ∷ [] }
    ensures { IfOk result
        (λ replies. replies.items ≡ reply.Name (shown pool.old).contents.name ∷ []) }
{
    run(pool, steps)
}

// In a pool without a sync and without a closed group, the open group is closed first, and then synced.
fn an_open_group_is_closed_and_then_synced<D: SectorDevice>(
    pool: &mut PoolState<D>,
) -> Result<Group, PoolError>
    requires no_sync { is_some (shown pool.old).line.syncing ≡ false }
    requires no_closed { is_some (shown pool.old).line.middle ≡ false }
    ensures { AndThen (Call step.CloseGroup (λ g. reply.Opened g)) (SyncsClosed 7)
        result pool.old pool.new }
{
    pool.sync_open_group(7)
}

// Whichever of its transactions it is, also if no log block has its record.
fn a_commit_to_a_group_that_was_synced_is_durable<D: SectorDevice>(
    pool: &mut PoolState<D>,
    ordinal: Ordinal,
) -> Option<bool>
    ensures { IfSome result (λ is_durable. is_durable ≡ true) }
{
    match pool.sync_open_group(7) {
        Ok(group) => Some(pool.durable(Receipt { ordinal, group })),
        Err(_) => None,
    }
}

// In a pool without a closed group, the open one is closed first. Its charges don't matter.
fn an_open_group_is_closed_for_its_sync<D: SectorDevice>(pool: &PoolState<D>) -> Option<Step>
    requires running { (shown pool.now).suspended ≡ false }
    requires synced { (shown pool.now).line.synced ≡ 8 }
    requires no_sync { (shown pool.now).line.syncing ≡ None }
    requires no_closed { (shown pool.now).line.middle ≡ None }
    ensures { result ≡ Some step.CloseGroup }
{
    pool.due_step(Duty::SyncUpTo(Group(9), 7))
}

// A quiescer leaves a group to which nothing is charged.
fn a_clean_group_stays_open<D: SectorDevice>(pool: &PoolState<D>) -> Option<Step>
    requires running { (shown pool.now).suspended ≡ false }
    requires no_closed { (shown pool.now).line.middle ≡ None }
    requires clean { dirty_of (shown pool.now) (shown pool.now).line.open_group ≡ 0 }
    ensures { result ≡ None }
{
    pool.due_step(Duty::Quiesce)
}

// A syncer starts the sync of a quiesced group, with its own moment.
fn a_quiesced_group_is_due_for_its_sync<D: SectorDevice>(pool: &PoolState<D>) -> Option<Step>
    requires running { (shown pool.now).suspended ≡ false }
    requires no_sync { (shown pool.now).line.syncing ≡ None }
    requires closed { (shown pool.now).line.middle ≡ Some (record { group = 9; quiesced = true }) }
    ensures { result ≡ Some (step.StartSync 7) }
{
    pool.due_step(Duty::Sync(7))
}

// A receipt of a synced group is durable, also in a suspended pool.
fn a_synced_receipt_is_durable<D: SectorDevice>(pool: &PoolState<D>) -> Result<bool, PoolError>
    requires { (shown pool.now).line.synced ≡ 8 }
    ensures { result ≡ Ok true }
{
    pool.check_receipt(Receipt {
        ordinal: Ordinal(3),
        group: Group(8),
    })
}

// Another one is refused by a suspended pool.
fn a_receipt_is_not_checked_in_a_suspended_pool<D: SectorDevice>(
    pool: &PoolState<D>,
) -> Result<bool, PoolError>
    requires suspended { (shown pool.now).suspended ≡ true }
    requires synced { (shown pool.now).line.synced ≡ 8 }
    requires none { (shown pool.now).log.kept ≡ [] }
    ensures { result ≡ Err PoolError.Suspended }
{
    pool.check_receipt(Receipt {
        ordinal: Ordinal(3),
        group: Group(9),
    })
}

// One block is kept and no record is begun: a sync gives the block back.
fn a_kept_block_would_come_back<D: SectorDevice>(pool: &PoolState<D>) -> bool
    requires kept { length (shown pool.now).log.kept ≡ 1 }
    requires none { (shown pool.now).log.begun ≡ None }
    ensures { result ≡ true }
{
    pool.keeps_whole_log()
}

// Without a kept block none does.
fn no_block_would_come_back<D: SectorDevice>(pool: &PoolState<D>) -> bool
    requires { (shown pool.now).log.kept ≡ [] }
    ensures { result ≡ false }
{
    pool.keeps_whole_log()
}

// An unflushed write is unflushed still in the device that a pool gives back.
fn an_unflushed_write_comes_back<D: SectorDevice>(pool: PoolState<D>) -> D
    requires { length (disk_of pool).now.unflushed ≡ 1 }
    ensures { length (D.disk result).now.unflushed ≡ 1 }
{
    pool.into_device()
}

// A planned fault is one of its kind, and changes nothing that the pool shows.
fn a_planned_fault_is_no_step(pool: &mut PoolState<MemDevice>)
    ensures planned { (device_of pool.new).read_fails ≡ 2 }
    ensures no_other { (device_of pool.new).write_fails ≡ (device_of pool.old).write_fails }
    ensures unchanged { shown pool.new ≡ shown pool.old }
{
    pool.fail(Fault::Read, 2);
}
