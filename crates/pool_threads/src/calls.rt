//! The calls of a handle. Each is one step of the pool, in one turn; those that are made again take a turn each time.
ghost use Rattle.std.specs.Prelude.{◌≡◌, ◌⊎◌, IfErr, IfNone, IfOk, IfSome, IsSome, IsTrue, false, true};
ghost use Rattle.base.specs.declared.error.PoolError.TheVariants as error;
ghost use Rattle.base.specs.declared.range.Mode.TheVariants.{Writer};
ghost use Rattle.base.specs.declared.step.Reply.TheVariants as reply;
ghost use Rattle.base.specs.declared.step.Step.TheVariants as step;
ghost use Rattle.base.specs.steps.Refusals.{append_range, object_range};
ghost use Rattle.base.specs.steps.Runs.{reply_of};
ghost use Rattle.base.specs.steps.Seen.{IsAborted, IsAdmitted, IsCommitted, IsGranted, IsLengthBetween, IsLetGo, IsReadBetween, IsThrottledForGood};
ghost use Rattle.base.specs.steps.SeenLaws.{is_untested};
ghost use Rattle.pool_threads.specs.Answers.{IsRefusal, Makes, MakesAtLast, Sees, WaitsWhileNot, state_seen};
ghost use Rattle.pool_threads.specs.Handles.{IsUnchanged, kin_of, moment_of};
ghost use Rattle.pool_threads.specs.Turns.{begin_reply, dated};
ghost use Rattle.pool_threads.specs.Vain.{IsInOwnWay, IsThrottledInVain};
ghost use Rattle.transactions.specs.Open.{has_one_open};

use crate::handle::Handle;
use crate::turn::{replied, try_turn, turn};
use base::{
    Bytes, Group, LockId, Mode, ObjectId, Ops, Owner, Plan, PoolError, Range, Receipt, Reply, Step,
    TxId,
};
use device_model::{Fault, MemDevice, SectorDevice};
use pool_core::PoolCall;
use pool_core::calls::{Abort, Begin, Commit, Length, Lock, LockAppend, Read, Unlock};
use std::sync::Wait;
use word_lock::release;

impl<'p, D: SectorDevice> Handle<'p, D> {
    /// Makes one step of the pool, in one turn of the handle. A start of a sync gets the pool's moment.
    ///
    /// `sync_pool`, and the loops `quiescer` and `syncer`, make the steps of a sync by themselves. A `SyncStep`, a
    /// `LogWrite` and a `LogFlush` make one device call, under the pool's lock: other threads wait.
    pub fn step<'a, 'b, W: Wait>(&'a mut self, rt: &'b W, step: Step) -> Reply
        ensures made { Makes (dated (moment_of self.old) step) result self.old self.new }
    {
        let step = dated(self.shared.moment, step);
        replied(self.ask(rt, step))
    }

    /// Makes one step of the pool as `step` does, if no other handle has the pool. It never waits. It returns `None` if
    /// another has it, and then nothing has changed. The only handle of a pool always gets it.
    pub fn try_step<'a>(&'a mut self, step: Step) -> Option<Reply>
        ensures made { IfSome result
            (λ r. Makes (dated (moment_of self.old) step) r self.old self.new) }
        ensures unchanged { IfNone result (IsUnchanged self.old self.new) }
        ensures only { kin_of self.old ≡ 0 → IsSome result }
    {
        let step = dated(self.shared.moment, step);
        let answer = try_turn(&mut self.seat, &self.shared.lock, step)?;
        self.shared.note::<Step>(&answer);
        Some(replied(answer))
    }

    // Makes a call, in one turn of the handle.
    pub(crate) fn ask<'a, 'b, W: Wait, C: PoolCall<D>>(
        &'a mut self,
        rt: &'b W,
        call: C,
    ) -> Result<C::Answer, PoolError>
        ensures { Makes (C.step call) (reply_of C.reply result) self.old self.new }
    {
        let guard = self.seat.acquire(rt, &self.shared.lock);
        let answer = turn(guard, call);
        self.shared.note::<C>(&answer);
        answer
    }

    /// Locks a range of an object, and tries again while it is refused `Busy`.
    ///
    /// It doesn't wait for its own owner: if that holds a lock itself that is in the way, it is refused `Busy` at once
    /// (`in_time`). So each thread takes an owner of its own. Two threads that each wait for a lock of the other still
    /// wait for ever: [`lock_within`](Handle::lock_within) gives up.
    ///
    /// # Errors
    /// Those of `PoolState::lock`; `Busy` only if the owner holds a lock itself that overlaps the range, and not both
    /// are of readers (`busy`).
    pub fn lock<'a, 'b, W: Wait>(
        &'a mut self,
        rt: &'b W,
        owner: Owner,
        object: ObjectId,
        range: Range,
        mode: Mode,
    ) -> Result<LockId, PoolError>
        ensures made { MakesAtLast (step.Lock owner object range mode) error.Busy
            (reply_of (λ id. reply.Locked id) result) self.old self.new }
        ensures granted { IfOk result (λ id. Sees (IsGranted owner.0
            (object_range object.0 range.low range.high) mode id.0) self.old self.new) }
        ensures refused { IfErr result (λ e. Sees
            (IsRefusal (step.Lock owner object range mode) e) self.old self.new) }
        ensures in_time { WaitsWhileNot (IsInOwnWay owner
            (object_range object.0 range.low range.high) mode) self.old self.new }
        ensures busy { IfErr result (λ e. e ≡ PoolError.Busy → IsInOwnWay owner
            (object_range object.0 range.low range.high) mode (state_seen self.new).shown) }
    {
        let lock = Lock {
            owner,
            object,
            range,
            mode,
        };
        self.retry(rt, lock)
    }

    /// Locks an object as a writer from its end to the greatest length, and returns that range too. It tries again
    /// while it is refused `Busy`, but doesn't wait for its own owner, as `lock`.
    ///
    /// # Errors
    /// Those of `PoolState::lock_append`; `Busy` only if the owner holds a lock itself that overlaps the range
    /// (`busy`).
    pub fn lock_append<'a, 'b, W: Wait>(
        &'a mut self,
        rt: &'b W,
        owner: Owner,
        object: ObjectId,
    ) -> Result<(LockId, Range), PoolError>
        ensures made { MakesAtLast (step.LockAppend owner object) error.Busy
            (reply_of (λ a. reply.Appended a.0 a.1) result) self.old self.new }
        ensures granted { IfOk result (λ a. Sees (IsGranted owner.0
            (object_range object.0 a.1.low a.1.high) Writer a.0.0) self.old self.new) }
        ensures refused { IfErr result (λ e. Sees
            (IsRefusal (step.LockAppend owner object) e) self.old self.new) }
        ensures in_time { WaitsWhileNot (λ s. IsInOwnWay owner (append_range object.0 s) Writer s)
            self.old self.new }
        ensures busy { IfErr result (λ e. e ≡ PoolError.Busy → IsInOwnWay owner
            (append_range object.0 (state_seen self.new).shown) Writer
            (state_seen self.new).shown) }
    {
        self.retry(rt, LockAppend { owner, object })
    }

    /// Opens a transaction of the open group that keeps to a plan. The group is charged for what its sync writes, as
    /// `PoolState::begin` says, until it is synced.
    ///
    /// At the dirty limit it waits: it tries again while it is refused `Throttled`. So some thread has to sync a group
    /// (`sync_pool`, or the loops `quiescer` and `syncer`), or to abort a transaction. It is refused at once if that
    /// can't help (`in_time`): the plan's charge alone is above the limit, or the owner has a transaction open, which
    /// keeps its group from being synced.
    ///
    /// # Errors
    /// Those of `PoolState::begin`; `Throttled` only if the plan's charge alone is above the limit, or the owner has a
    /// transaction open (`for_good`).
    pub fn begin<'a, 'b, W: Wait>(
        &'a mut self,
        rt: &'b W,
        owner: Owner,
        plan: Plan,
    ) -> Result<(TxId, Group), PoolError>
        ensures made { MakesAtLast (step.Begin owner plan) error.Throttled
            (begin_reply result) self.old self.new }
        ensures admitted { IfOk result (λ a. Sees (IsAdmitted owner.0 plan a.0.0 a.1.0)
            self.old self.new) }
        ensures refused { IfErr result (λ e. Sees (IsRefusal (step.Begin owner plan) e)
            self.old self.new) }
        ensures in_time { WaitsWhileNot (IsThrottledInVain owner plan) self.old self.new }
        ensures for_good { IfErr result (λ e. e ≡ PoolError.Throttled
            → IsThrottledForGood plan (state_seen self.new)
            ⊎ (has_one_open owner.0 (state_seen self.new).shown.transactions ≡ true)) }
    {
        self.retry(rt, Begin { owner, plan: &plan })
    }

    /// Releases a lock.
    ///
    /// # Errors
    /// Those of `PoolState::unlock`. It takes no memory.
    pub fn unlock<'a, 'b, W: Wait>(
        &'a mut self,
        rt: &'b W,
        owner: Owner,
        id: LockId,
    ) -> Result<(), PoolError>
        ensures made { Makes (step.Unlock owner id) (reply_of (λ _. reply.Done) result)
            self.old self.new }
        ensures let_go { IfOk result (λ _. Sees (IsLetGo owner.0 id.0) self.old self.new) }
        ensures refused { IfErr result (λ e. Sees (IsRefusal (step.Unlock owner id) e)
            self.old self.new) }
        ensures no_memory { IfErr result (λ e. is_untested e ≡ false) }
    {
        self.ask(rt, Unlock { owner, id })
    }

    /// Commits a transaction whole. After a refusal it is still open: abort it, and unlock its ranges. Until it has
    /// ended, its group can't be synced.
    ///
    /// # Errors
    /// Those of `PoolState::commit`.
    pub fn commit<'a, 'b, W: Wait>(
        &'a mut self,
        rt: &'b W,
        tx: TxId,
        ops: Ops,
    ) -> Result<Receipt, PoolError>
        ensures made { Makes (step.Commit tx ops) (reply_of (λ r. reply.Committed r) result)
            self.old self.new }
        ensures committed { IfOk result (λ r. Sees
            (IsCommitted tx.0 ops r.ordinal.0 r.group.0) self.old self.new) }
        ensures refused { IfErr result (λ e. Sees (IsRefusal (step.Commit tx ops) e)
            self.old self.new) }
    {
        self.ask(rt, Commit { tx, ops })
    }

    /// Gives a transaction up: none of its operations takes place.
    ///
    /// # Errors
    /// Those of `PoolState::abort`. It takes no memory.
    pub fn abort<'a, 'b, W: Wait>(&'a mut self, rt: &'b W, tx: TxId) -> Result<(), PoolError>
        ensures made { Makes (step.Abort tx) (reply_of (λ _. reply.Done) result)
            self.old self.new }
        ensures aborted { IfOk result (λ _. Sees (IsAborted tx.0) self.old self.new) }
        ensures refused { IfErr result (λ e. Sees (IsRefusal (step.Abort tx) e)
            self.old self.new) }
        ensures no_memory { IfErr result (λ e. is_untested e ≡ false) }
    {
        self.ask(rt, Abort { tx })
    }

    /// The bytes of a range that lie below the object's length.
    ///
    /// # Errors
    /// Those of `PoolState::read`.
    pub fn read<'a, 'b, W: Wait>(
        &'a mut self,
        rt: &'b W,
        owner: Owner,
        object: ObjectId,
        range: Range,
    ) -> Result<Bytes, PoolError>
        ensures made { Makes (step.Read owner object range)
            (reply_of (λ b. reply.Bytes b) result) self.old self.new }
        ensures bytes { IsTrue D.keeps_model → IfOk result (λ b. Sees (IsReadBetween
            (object_range object.0 range.low range.high) b) self.old self.new) }
        ensures refused { IfErr result (λ e. Sees (IsRefusal (step.Read owner object range) e)
            self.old self.new) }
    {
        let read = Read {
            owner,
            object,
            range,
        };
        self.ask(rt, read)
    }

    /// The length of an object in bytes.
    ///
    /// # Errors
    /// Those of `PoolState::length`. It takes no memory.
    pub fn length<'a, 'b, W: Wait>(
        &'a mut self,
        rt: &'b W,
        object: ObjectId,
    ) -> Result<u64, PoolError>
        ensures made { Makes (step.Length object) (reply_of (λ n. reply.Length n) result)
            self.old self.new }
        ensures length { IfOk result (λ n. Sees (IsLengthBetween object.0 n)
            self.old self.new) }
        ensures refused { IfErr result (λ e. Sees (IsRefusal (step.Length object) e)
            self.old self.new) }
        ensures no_memory { IfErr result (λ e. is_untested e ≡ false) }
    {
        self.ask(rt, Length { object })
    }
}

impl<'p> Handle<'p, MemDevice> {
    ghost use Rattle.pool_threads.specs.Handles.{HasLooked};

    /// Makes the n-th such call of the pool's device from now fail, once, as `MemDevice::fail` does, in one turn of the
    /// handle. It is no step, and no view shows it.
    pub fn fail<'a, 'b, W: Wait>(&'a mut self, rt: &'b W, fault: Fault, n: u64)
        ensures { HasLooked self.old self.new }
    {
        let mut guard = self.seat.acquire(rt, &self.shared.lock);
        guard.held.value.fail(fault, n);
        release(guard);
    }
}

// The step, with this moment if it starts a sync.
fn dated(moment: u64, step: Step) -> Step
    ensures { result ≡ dated moment step }
{
    match step {
        Step::StartSync(_) => Step::StartSync(moment),
        other => other,
    }
}
