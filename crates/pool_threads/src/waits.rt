//! Calls that wait until a transaction is durable, or until groups are synced.
//!
//! 1. A transaction is durable once its log block is flushed, or once its group is synced. So `fsync` writes the log
//!    and flushes it; if the log finds no block, it syncs groups instead (`zil_commit` of `zil.c`, which then waits for
//!    `txg_wait_synced`).
//! 2. Handles that wait at once share one flush: one of them leads (`Flushers` of `bells`). It looks at its receipt in
//!    the turn in which it writes and flushes. The others look once it has led.
//! 3. In each turn only steps are made that are due then, so no step is refused `NotReady`, except a close at the last
//!    group. While transactions of the closed group are open nothing is due, and the call rests.

ghost use Rattle.std.specs.Prelude.{◌≡◌, ◌≢◌, ◌≤◌, IfErr, IfOk, IsTrue};
ghost use Rattle.base.specs.declared.names.Group.{Group};
ghost use Rattle.base.specs.formats.Limits.{last_number};
ghost use Rattle.base.specs.steps.Tables.{AreTablesExplained};
ghost use Rattle.pool_threads.specs.Answers.{Sees, TakesOne, state_seen};
ghost use Rattle.pool_threads.specs.Handles.{HasLooked, moment_of};
ghost use Rattle.pool_threads.specs.Serves.{IsServedTurn};
ghost use Rattle.pool_threads.specs.Waits.{IsSyncingRefusal, IsWaitingRefusal, Leads, LeavesDurable, LooksAt, SyncsPool, SyncsUpTo, WaitsForFlush, WaitsOnce, WaitsUntil, WritesAndFinds};

use crate::handle::Handle;
use crate::turn::{log_turn, serve_turn};
use base::{Group, PoolError, Receipt, Reply};
use crossbeam_utils::Backoff;
use device_model::SectorDevice;
use pool_core::Duty;
use std::sync::Wait;
use word_lock::release;

impl<'p, D: SectorDevice> Handle<'p, D> {
    /// Waits until the transaction of a receipt is durable: no crash loses it then.
    ///
    /// It writes the log and flushes it, together with the commits of other handles that wait at the same time. If the
    /// log finds no block, it syncs groups until the transaction's group is synced. Transactions that are open in these
    /// groups have to end first.
    ///
    /// It waits for that transaction alone. One that was committed before may be of a later group, so the newest
    /// receipt doesn't promise the older ones: `fsync_all` does.
    ///
    /// # Errors
    /// Those of the tests in this order, `Suspended`, or `BadRange` if no such transaction was committed, unless the
    /// transaction is durable. Else those of a step that it makes: `NoMemory`; `Read` or `Damaged` if a block that a
    /// sync needs can't be read; `Write` or `Flush`, after which the pool is suspended; `NotReady` only if the open
    /// group is 2^60. The transaction may be durable or not then.
    pub fn fsync<'a, 'b, W: Wait>(
        &'a mut self,
        rt: &'b W,
        receipt: Receipt,
    ) -> Result<(), PoolError>
        ensures waited { WaitsUntil receipt result self.old self.new }
        ensures durable { IfOk result (λ _. Sees (LeavesDurable receipt) self.old self.new) }
        ensures refused { IfErr result (λ e. Sees
            (IsWaitingRefusal (moment_of self.old) receipt e) self.old self.new) }
        ensures not_log_space { IfErr result (λ e. e ≢ PoolError.NoLogSpace) }
        ensures at_limit { IfErr result (λ e. e ≡ PoolError.NotReady
            → last_number ≤ (state_seen self.new).shown.line.open_group) }
    {
        self.shared.flushers.enter();
        self.wait_until_durable(rt, receipt)
    }

    // Looks whether the transaction of a receipt is durable, and waits for a flush if it isn't.
    fn wait_until_durable<'a, 'b, W: Wait>(
        &'a mut self,
        rt: &'b W,
        receipt: Receipt,
    ) -> Result<(), PoolError>
        ensures { WaitsUntil receipt result self.old self.new }
    {
        if self.check_receipt(rt, receipt)? {
            return Ok(());
        }
        self.wait_for_flush(rt, receipt)
    }

    /// Waits until the transaction of a receipt is durable, as `fsync`, without a first look. The handle has entered.
    pub(crate) fn wait_for_flush<'a, 'b, W: Wait>(
        &'a mut self,
        rt: &'b W,
        receipt: Receipt,
    ) -> Result<(), PoolError>
        ensures { WaitsForFlush receipt result self.old self.new }
    {
        for _ in rt.forever() {
            if self.wait_once(rt, receipt)? {
                return Ok(());
            }
        }
        unreachable!()
    }

    // Leads if no other handle does. Else it rests until that one has led, and looks.
    fn wait_once<'a, 'b, W: Wait>(
        &'a mut self,
        rt: &'b W,
        receipt: Receipt,
    ) -> Result<bool, PoolError>
        ensures { WaitsOnce receipt result self.old self.new }
    {
        let rounds = self.shared.flushers.rounds();
        if self.shared.flushers.try_lead() {
            return self.lead(rt, receipt);
        }
        self.shared.flushers.rest(rt, rounds);
        self.check_receipt(rt, receipt)
    }

    // Looks whether the transaction of a receipt is durable, in one turn.
    fn check_receipt<'a, 'b, W: Wait>(
        &'a mut self,
        rt: &'b W,
        receipt: Receipt,
    ) -> Result<bool, PoolError>
        ensures { LooksAt receipt result self.old self.new }
    {
        let guard = self.seat.acquire(rt, &self.shared.lock);
        let checked = guard.held.value.check_receipt(receipt);
        release(guard);
        checked
    }

    // Writes and flushes the log for all that wait, and looks, in one turn. If the log finds no block, it syncs groups up
    // to the receipt's, which makes the transaction durable too.
    fn lead<'a, 'b, W: Wait>(&'a mut self, rt: &'b W, receipt: Receipt) -> Result<bool, PoolError>
        ensures { Leads receipt result self.old self.new }
    {
        self.shared.flushers.gather(rt);
        let (reply, found) = self.write_log(rt, receipt);
        self.shared.flushers.retire();
        let Some(Reply::Refused(error)) = reply else {
            return found;
        };
        if matches!(found, Ok(true)) {
            return Ok(true);
        }
        if error != PoolError::NoLogSpace {
            return Err(error);
        }
        match self.sync_up_to(rt, receipt.group) {
            Ok(()) => Ok(true),
            Err(error) => Err(error),
        }
    }

    // Makes the steps that are due for the log and then looks, in one turn: the reply of the last step, and whether the
    // transaction of the receipt is durable.
    fn write_log<'a, 'b, W: Wait>(
        &'a mut self,
        rt: &'b W,
        receipt: Receipt,
    ) -> (Option<Reply>, Result<bool, PoolError>)
        ensures { WritesAndFinds receipt result.0 result.1 self.old self.new }
    {
        let guard = self.seat.acquire(rt, &self.shared.lock);
        let (reply, found, available) = log_turn(guard, receipt);
        self.shared.bells.note_available(available);
        self.shared.note_last(&reply);
        (reply, found)
    }

    /// Syncs the group that is open, and returns it. All that was committed before is then durable. It writes no log
    /// block.
    ///
    /// Each group up to that one is synced. Transactions that are open in these groups have to end first: it waits for
    /// them.
    ///
    /// # Errors
    /// Those of a step that it makes: `Suspended`; `NoMemory`; `Read` or `Damaged` if a block that a sync needs can't
    /// be read; `Write` or `Flush`, after which the pool is suspended; `NotReady` only if the open group is 2^60. The
    /// groups that were synced by then stay so.
    pub fn sync_pool<'a, 'b, W: Wait>(&'a mut self, rt: &'b W) -> Result<Group, PoolError>
        ensures synced { SyncsPool result self.old self.new }
        ensures whole { IfOk result (λ g. g.0 ≤ (state_seen self.new).shown.line.synced) }
        ensures refused { IfErr result (λ e. (group : Group)
            × Sees (IsSyncingRefusal (moment_of self.old) group e) self.old self.new) }
        ensures at_limit { IfErr result (λ e. e ≡ PoolError.NotReady
            → last_number ≤ (state_seen self.new).shown.line.open_group) }
    {
        let group = self.look_for_open_group(rt);
        match self.sync_up_to(rt, group) {
            Ok(()) => Ok(group),
            Err(error) => Err(error),
        }
    }

    // Looks which group is open, in one turn.
    fn look_for_open_group<'a, 'b, W: Wait>(&'a mut self, rt: &'b W) -> Group
        ensures looked { HasLooked self.old self.new }
        ensures group { result.0 ≡ (state_seen self.new).shown.line.open_group }
    {
        let guard = self.seat.acquire(rt, &self.shared.lock);
        let group = guard.held.value.status().open_group;
        release(guard);
        group
    }

    // Syncs groups until this one is synced.
    fn sync_up_to<'a, 'b, W: Wait>(&'a mut self, rt: &'b W, group: Group) -> Result<(), PoolError>
        ensures { SyncsUpTo group result self.old self.new }
    {
        let duty = Duty::SyncUpTo(group, self.shared.moment);
        let backoff = Backoff::new();
        for _ in rt.forever() {
            let ends = self.shared.bells.ended.rings();
            let (reply, synced) = self.serve(rt, duty);
            if let Some(Reply::Refused(error)) = reply {
                return Err(error);
            }
            if group <= synced {
                return Ok(());
            }
            if reply.is_none() {
                self.shared.bells.ended.rest(rt, &backoff, ends);
            }
        }
        unreachable!()
    }

    /// Makes the steps that are due, in one turn: the reply of the last one, and the group that is synced then.
    pub(crate) fn serve<'a, 'b, W: Wait>(
        &'a mut self,
        rt: &'b W,
        duty: Duty,
    ) -> (Option<Reply>, Group)
        ensures served { TakesOne (IsServedTurn (IsTrue D.keeps_model) duty result.0)
            self.old self.new }
        ensures synced { result.1.0 ≡ (state_seen self.new).shown.line.synced }
        ensures explained { ∥ AreTablesExplained (state_seen self.new).shown
            (state_seen self.new).past ∥₁ }
    {
        let guard = self.seat.acquire(rt, &self.shared.lock);
        let (reply, synced, available) = serve_turn(guard, duty);
        self.shared.bells.note_available(available);
        self.shared.note_last(&reply);
        (reply, synced)
    }
}
