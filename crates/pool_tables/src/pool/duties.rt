//! Looks at a pool that change nothing: which step is due, and whether a receipt is durable.

ghost use Rattle.std.specs.Prelude.{◌≡◌};

use crate::duty::Duty;
use crate::pool::PoolTables;
use base::{PoolError, Receipt, Step};

impl PoolTables {
    ghost use Rattle.pool_tables.specs.Duties.{closing_step, due_step, is_quiescent, log_step, quiescing_step, step_to_sync, syncing_step, wants_close};
    ghost use Rattle.pool_tables.specs.Receipts.{ChecksReceipt};
    ghost use Rattle.pool_tables.specs.Shows.{pool_shown};

    /// The step that is due next, or `None` if nothing has to be done now. Of a suspended pool it is a step that is
    /// refused `Suspended`, unless the group that is asked for is synced.
    pub fn due_step(&self, duty: Duty) -> Option<Step>
        ensures { result ≡ due_step duty (pool_shown self.now) }
    {
        match duty {
            Duty::CommitLog => self.log_step(),
            Duty::Quiesce => self.quiescing_step(),
            Duty::Sync(moment) => self.syncing_step(moment),
            Duty::SyncUpTo(group, _) if group <= self.groups.synced() => None,
            Duty::SyncUpTo(_, moment) => self.step_to_sync(moment),
        }
    }

    fn log_step(&self) -> Option<Step>
        ensures { result ≡ log_step (pool_shown self.now) }
    {
        if self.suspended || self.log.is_pending() {
            Some(Step::LogWrite)
        } else if self.log.awaits_flush() {
            Some(Step::LogFlush)
        } else {
            None
        }
    }

    fn quiescing_step(&self) -> Option<Step>
        ensures { result ≡ quiescing_step (pool_shown self.now) }
    {
        if self.suspended || self.wants_close() {
            Some(Step::CloseGroup)
        } else if self.is_quiescent() {
            Some(Step::MarkQuiesced)
        } else {
            None
        }
    }

    // Whether no group is in the middle, and bytes are charged to the open one.
    fn wants_close(&self) -> bool
        ensures { result ≡ wants_close (pool_shown self.now) }
    {
        self.groups.middle().is_none() && self.dirty.of(self.groups.open_group()) > 0
    }

    // Whether a closed group quiesces of which no transaction is open.
    fn is_quiescent(&self) -> bool
        ensures { result ≡ is_quiescent (pool_shown self.now) }
    {
        self.groups.ready_to_quiesce().is_ok()
    }

    fn syncing_step(&self, moment: u64) -> Option<Step>
        ensures { result ≡ syncing_step moment (pool_shown self.now) }
    {
        if self.suspended || self.groups.syncing().is_some() {
            Some(Step::SyncStep)
        } else if self.groups.ready_to_sync().is_ok() {
            Some(Step::StartSync(moment))
        } else {
            None
        }
    }

    // The step of a sync, or else the one that brings a group closer to it.
    fn step_to_sync(&self, moment: u64) -> Option<Step>
        ensures { result ≡ step_to_sync moment (pool_shown self.now) }
    {
        match self.syncing_step(moment) {
            Some(step) => Some(step),
            None => self.closing_step(),
        }
    }

    fn closing_step(&self) -> Option<Step>
        ensures { result ≡ closing_step (pool_shown self.now) }
    {
        if self.groups.middle().is_none() {
            Some(Step::CloseGroup)
        } else if self.is_quiescent() {
            Some(Step::MarkQuiesced)
        } else {
            None
        }
    }

    /// Whether the transaction of a receipt is durable. If it is not, it is refused, in this order, `Suspended`, or
    /// `BadRange` if no such transaction was committed.
    pub fn check_receipt(&self, receipt: Receipt) -> Result<bool, PoolError>
        ensures { ChecksReceipt receipt result (pool_shown self.now) }
    {
        if self.durable(receipt) {
            return Ok(true);
        }
        self.check_running()?;
        if !self.log.is_unsynced(receipt) {
            return Err(PoolError::BadRange);
        }
        Ok(false)
    }
}
