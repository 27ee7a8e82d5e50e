//! A whole transaction in one call, and in one turn: the locks of its plan, a begin, a commit, and the unlocks.
//!
//! 1. A transaction is made in one turn of the pool's lock (`one_turn.rt`). If it is refused `Busy`, `Throttled` or
//!    `NoSpace` it releases in that turn what it has got, waits, and is made again. So it holds nothing while it waits.
//! 2. At the dirty limit it waits for the loops of the pool. Without loops, and without space, it makes the steps of a
//!    sync itself, as `txg_wait_synced` of `txg.c` would have them made, and as `sync_pool` does. It gives up when a
//!    sync can't make room (`dsl_dir_tempreserve_impl` of `dsl_dir.c` answers ERESTART, and ENOSPC at last, so too).
ghost use Rattle.std.specs.Prelude.{◌≡◌, ◌≤◌, ◌⊎◌, IfErr, IfNone, IfOk, IfSome, IsErrAnd, IsTrue, None, Some, false, length, true, vec_capacity};
ghost use Rattle.base.specs.declared.step.Reply.TheVariants as replied;
ghost use Rattle.base.specs.steps.Shown.{dirty_total};
ghost use Rattle.pool_tables.specs.Duties.{keeps_whole_log};
ghost use Rattle.pool_core.specs.States.{shown};
ghost use Rattle.pool_threads.specs.Answers.{Sees, TakesOne, state_seen};
ghost use Rattle.pool_threads.specs.Handles.{StaysInPool, moment_of};
ghost use Rattle.pool_threads.specs.Serves.{GoesOnAfter};
ghost use Rattle.pool_threads.specs.Transacts.{IsCommitRefusal, IsForGood, IsOpenGroupTurn, IsTransacted, IsTransactionTurn, IsTransactRefusal, LeavesNothing, MakesRoom, MayPass, Pays, TransactsAtLast, TransactsDurably, TransactsLockedOrLacks, TransactsOrLacks};
ghost use Rattle.pool_threads.specs.Waits.{LeavesDurable};
ghost use Rattle.transactions.specs.Open.{has_one_open};
ghost use Rattle.word_lock.specs.Seats.{HasMetNone};

use crate::handle::Handle;
use crate::one_turn::transact_turn;
use crate::turn::serve_turn;
use base::{Group, LockId, ObjectRange, Ops, Owner, Plan, PoolError, Receipt, Reply};
use crossbeam_utils::Backoff;
use device_model::SectorDevice;
use pool_core::{Duty, PoolState};
use std::sync::Wait;
use transactions::lock_ranges;

impl<'p, D: SectorDevice> Handle<'p, D> {
    /// Commits operations as one entry, in a transaction of its own: all of them take place, or none.
    ///
    /// In one turn of the pool's lock it locks the ranges of the operations' plan as a writer, begins, commits, and
    /// unlocks all. The ranges are in rising order of object and low end, with those that overlap joined to one. After
    /// a refusal it aborts the transaction, if it was begun, and unlocks what it locked, in the same turn.
    ///
    /// While another thread holds a lock that overlaps one of the ranges it waits, and then tries again. A caller whose
    /// owner holds such a lock itself is refused `Busy` at once: it takes `transact_locked`.
    ///
    /// **At the dirty limit** it waits while the loops `quiescer` and `syncer` run. If they don't, it makes the steps
    /// of a sync of the open group itself, as `sync_pool` does, and then tries again. While another thread's
    /// transaction is open in a closed group it waits for the end of that transaction. A transaction is charged for
    /// what its sync writes (`PoolState::begin` says how much), until its group is synced. At
    /// [`DEFAULT_DIRTY_MAX`](base::DEFAULT_DIRTY_MAX) the 147th object makes the first sync, if each transaction
    /// creates one and writes a few bytes to it.
    ///
    /// **Without space** it makes the steps of a sync itself, also beside loops, which leave a group alone that has no
    /// charges. A sync ends reservations, frees what its transactions have replaced, and gives log blocks back. It is
    /// refused `NoSpace` when neither charges nor such blocks are left.
    ///
    /// **If the owner has a transaction open**, by `begin`, it doesn't wait for room: that transaction keeps its group
    /// from being synced. It is refused `Throttled` or `NoSpace` at once.
    ///
    /// It holds no lock and has no open transaction while it waits, while it syncs, and after it, also after a refusal
    /// (`released`). A try that was refused has used up the names of the locks and of the transaction that it got.
    ///
    /// # Errors
    /// `NoMemory` if there is none for the plan, its ranges and the names of the locks; then no step was made. Else the
    /// first refusal of `lock`, `begin` or `commit`, in this order. `Busy` only if the owner holds a lock itself on one
    /// of the ranges. `Throttled` only if the plan's charge alone is above the dirty limit, `NoSpace` only if no
    /// transaction is unsynced and a sync gives no log block back, or either if the owner has a transaction open
    /// (`made`, `short`). If it makes steps of a sync, also those of such a step, as `sync_pool` lists them: `Write` or
    /// `Flush`, after which the pool is suspended, `NoMemory`, `Read` or `Damaged` if a block that the sync needs can't
    /// be read, and `NotReady` only if the open group is 2^60. None of the operations takes place then.
    pub fn transact<'a, 'b, W: Wait>(
        &'a mut self,
        rt: &'b W,
        owner: Owner,
        ops: Ops,
    ) -> Result<Receipt, PoolError>
        ensures made { TransactsOrLacks owner ops result self.old self.new }
        ensures committed { IfOk result (λ r. Sees (IsTransacted ops r) self.old self.new) }
        ensures refused { IfErr result (λ e. (e ≡ PoolError.NoMemory)
            ⊎ Sees (IsTransactRefusal (moment_of self.old) owner ops e) self.old self.new) }
        ensures short { IfErr result (λ e. e ≡ PoolError.NoSpace
            → ((dirty_total (state_seen self.new).shown ≡ 0)
            × (keeps_whole_log (state_seen self.new).shown ≡ false))
            ⊎ (has_one_open owner.0 (state_seen self.new).shown.transactions ≡ true)) }
        ensures same_pool { StaysInPool self.old self.new }
        ensures met_none { HasMetNone self.old.seat self.new.seat }
        ensures released { LeavesNothing self.old self.new }
    {
        let alloc = self.shared.alloc;
        let plan = Plan::of(alloc, &ops)?;
        let ranges = lock_ranges(alloc, plan.as_slice())?;
        let mut locks = Vec::with_capacity(alloc, ranges.len())?;
        self.transact_at_last(rt, owner, &ranges, &mut locks, &plan, ops)
    }

    /// Commits operations as one entry, in a transaction of its own, under locks that the owner holds. So a caller can
    /// lock, read, and write what follows from it.
    ///
    /// In one turn of the pool's lock it begins and commits. After a refused commit it aborts the transaction in the
    /// same turn. It locks nothing and unlocks nothing. At the dirty limit it waits, or makes the steps of a sync, as
    /// `transact` does. The locks of the caller stay held then.
    ///
    /// # Errors
    /// `NoMemory` if there is none for the plan; then no step was made. Else the first refusal of `begin` or `commit`,
    /// in this order: `NotLocked` if the owner's locks don't cover the plan; `Throttled` only if the plan's charge
    /// alone is above the dirty limit; `NoSpace` only if no transaction is unsynced and a sync gives no log block
    /// back; or either if the owner has a transaction open (`short`). If it makes steps of a sync, also those of such a
    /// step, as for `transact`. None of the operations takes place then.
    pub fn transact_locked<'a, 'b, W: Wait>(
        &'a mut self,
        rt: &'b W,
        owner: Owner,
        ops: Ops,
    ) -> Result<Receipt, PoolError>
        ensures made { TransactsLockedOrLacks owner ops result self.old self.new }
        ensures committed { IfOk result (λ r. Sees (IsTransacted ops r) self.old self.new) }
        ensures refused { IfErr result (λ e. (e ≡ PoolError.NoMemory)
            ⊎ Sees (IsCommitRefusal (moment_of self.old) owner ops e) self.old self.new) }
        ensures short { IfErr result (λ e. e ≡ PoolError.NoSpace
            → ((dirty_total (state_seen self.new).shown ≡ 0)
            × (keeps_whole_log (state_seen self.new).shown ≡ false))
            ⊎ (has_one_open owner.0 (state_seen self.new).shown.transactions ≡ true)) }
        ensures same_pool { StaysInPool self.old self.new }
        ensures met_none { HasMetNone self.old.seat self.new.seat }
        ensures released { LeavesNothing self.old self.new }
    {
        let alloc = self.shared.alloc;
        let plan = Plan::of(alloc, &ops)?;
        let mut locks = Vec::new(alloc);
        self.transact_at_last(rt, owner, &[], &mut locks, &plan, ops)
    }

    /// Commits operations as `transact` does, and returns once the commit is durable, as `fsync` does.
    ///
    /// It takes two turns of the pool's lock if it is not made to wait, and no other handle writes the log: one for the
    /// transaction, and one that writes the log, flushes it, and looks whether the commit is durable.
    ///
    /// A commit that is durable is charged until its group is synced. At the dirty limit it waits, or makes the steps
    /// of a sync, as `transact` does.
    ///
    /// # Errors
    /// Those of `transact`, without a receipt: then none of the operations takes place. Those of `fsync`, with the
    /// receipt: then all of them took place, and a crash may lose them. `fsync` of the receipt may be tried again.
    pub fn transact_durably<'a, 'b, W: Wait>(
        &'a mut self,
        rt: &'b W,
        owner: Owner,
        ops: Ops,
    ) -> Result<Receipt, (PoolError, Option<Receipt>)>
        ensures made { TransactsDurably owner ops result self.old self.new }
        ensures committed { IfOk result (λ r. Sees (IsTransacted ops r) self.old self.new) }
        ensures durable { IfOk result (λ r. Sees (LeavesDurable r) self.old self.new) }
    {
        let receipt = match self.transact(rt, owner, ops) {
            Ok(receipt) => receipt,
            Err(error) => return Err((error, None)),
        };
        self.shared.flushers.enter();
        match self.wait_for_flush(rt, receipt) {
            Ok(()) => Ok(receipt),
            Err(error) => Err((error, Some(receipt))),
        }
    }

    // Makes a transaction of this plan in one turn, under locks of these ranges. While it may pass later it waits, or
    // makes steps of a sync, and tries again. The list of locks is its room for their names.
    fn transact_at_last<'a, 'b, W: Wait>(
        &'a mut self,
        rt: &'b W,
        owner: Owner,
        ranges: &[ObjectRange],
        locks: &mut Vec<LockId>,
        plan: &Plan,
        ops: Ops,
    ) -> Result<Receipt, PoolError>
        requires { length ranges.now ≤ vec_capacity locks.old }
        ensures { TransactsAtLast owner ranges.now plan.now ops result self.old self.new }
    {
        let moment = self.shared.moment;
        let backoff = Backoff::new();
        let mut ops = ops;
        for _ in rt.forever() {
            let unlocks = self.shared.ranges.rings();
            let frees = self.shared.room.rings();
            let (result, back) = self.try_transact(rt, owner, ranges, locks, plan, ops);
            match back {
                None => return result,
                Some(back) => ops = back,
            }
            if matches!(result, Err(PoolError::Busy)) {
                self.shared.ranges.rest(rt, &backoff, unlocks);
            } else {
                let lacks_space = matches!(result, Err(PoolError::NoSpace));
                self.make_room(rt, moment, frees, lacks_space)?;
            }
        }
        unreachable!()
    }

    // Makes a transaction in one turn, and returns the operations too if it may pass when it is made again.
    fn try_transact<'a, 'b, W: Wait>(
        &'a mut self,
        rt: &'b W,
        owner: Owner,
        ranges: &[ObjectRange],
        locks: &mut Vec<LockId>,
        plan: &Plan,
        ops: Ops,
    ) -> (Result<Receipt, PoolError>, Option<Ops>)
        requires { length ranges.now ≤ vec_capacity locks.old }
        ensures made { TakesOne (IsTransactionTurn (IsTrue D.keeps_model) owner ranges.now plan.now
            ops result.0) self.old self.new }
        ensures again { IfSome result.1
            (λ back. (back ≡ ops) × IsErrAnd result.0 (λ e. MayPass owner ranges.now plan.now e
            (state_seen self.new).shown)) }
        ensures for_good { IfNone result.1 (IfErr result.0 (λ e. IsForGood owner ranges.now plan.now
            e (state_seen self.new).shown)) }
        ensures room { length ranges.now ≤ vec_capacity locks.new }
    {
        let guard = self.seat.acquire(rt, &self.shared.lock);
        transact_turn(guard, owner, ranges, locks, plan, ops)
    }

    // Waits for room while loops sync, or else has one turn of a sync. `room` had this number before the try. The loops
    // make no space if nothing is charged.
    fn make_room<'a, 'b, W: Wait>(
        &'a mut self,
        rt: &'b W,
        moment: u64,
        frees: u64,
        lacks_space: bool,
    ) -> Result<(), PoolError>
        ensures { MakesRoom moment result self.old self.new }
    {
        if !lacks_space && self.shared.bells.has_loops() {
            self.shared.rest_for_room(rt, frees);
            return Ok(());
        }
        self.pay(rt, moment)
    }

    // Makes the steps that are due for a sync of the open group, in one turn. If none is due it rests until a
    // transaction has ended.
    fn pay<'a, 'b, W: Wait>(&'a mut self, rt: &'b W, moment: u64) -> Result<(), PoolError>
        ensures { Pays moment result self.old self.new }
    {
        let ends = self.shared.bells.ended.rings();
        let reply = self.serve_open_group(rt, moment);
        self.shared.rest_unless_made(rt, &reply, ends);
        match refusal(&reply) {
            Some(error) => Err(error),
            None => Ok(()),
        }
    }

    // Makes the steps that are due for a sync of the open group, in one turn: the reply of the last one.
    fn serve_open_group<'a, 'b, W: Wait>(&'a mut self, rt: &'b W, moment: u64) -> Option<Reply>
        ensures { TakesOne (IsOpenGroupTurn (IsTrue D.keeps_model) moment result)
            self.old self.new }
    {
        let guard = self.seat.acquire(rt, &self.shared.lock);
        let group = open_group(&guard.held.value);
        let (reply, _, _) = serve_turn(guard, Duty::SyncUpTo(group, moment));
        self.shared.note_last(&reply);
        reply
    }
}

// The group that is open.
fn open_group<D: SectorDevice>(state: &PoolState<D>) -> Group
    ensures { result.0 ≡ (shown state.now).line.open_group }
{
    state.status().open_group
}

// The refusal that ends a turn of a sync.
fn refusal(reply: &Option<Reply>) -> Option<PoolError>
    ensures refused { IfSome result (λ e. reply.now ≡ Some (replied.Refused e)) }
    ensures passed { IfNone result (GoesOnAfter None reply.now) }
{
    match reply {
        Some(Reply::Refused(error)) => Some(*error),
        _ => None,
    }
}
