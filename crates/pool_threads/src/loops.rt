//! The loops beside the threads that use a pool: one closes groups and marks them as quiesced, one syncs them (`txg.c`
//! has a thread for each).
//!
//! 1. Each takes the pool, makes the steps that are due, and frees it. A step that is refused `NotReady` is made again
//!    later; each other refusal ends the loop.
//! 2. Each tests before a turn whether the pool was told to stop, and never after one whose reply it has not looked at.
//! 3. A loop waits for the pool while another thread has it, since it looks only if something may be due.
//! 4. When a loop looks is a matter of speed alone (`Bells`).

ghost use Rattle.std.specs.Prelude.{◌≡◌, ◌≢◌, IfErr, IfNone, IfSome, MatchResult, Some};
ghost use Rattle.base.specs.declared.step.Reply.TheVariants as replied;
ghost use Rattle.pool_tables.specs.declared.duty.Duty.TheVariants as duty;
ghost use Rattle.pool_threads.specs.Answers.{Sees};
ghost use Rattle.pool_threads.specs.Handles.{moment_of};
ghost use Rattle.pool_threads.specs.Loops.{Works, WorksUntil};
ghost use Rattle.pool_threads.specs.Serves.{GoesOnAfter, IsRefusedDuty};

use crate::handle::Handle;
use base::{PoolError, Reply};
use bells::Loop;
use device_model::SectorDevice;
use pool_core::Duty;
use std::sync::Wait;

impl<'p, D: SectorDevice> Handle<'p, D> {
    /// Quiesces groups until the pool is told to stop (`Pool::stop`). It closes the open group if bytes are charged to
    /// it and no closed one is left, and marks a closed one as quiesced once none of its transactions is open.
    ///
    /// A program has one thread for it, beside one for `syncer` and those that write.
    ///
    /// # Errors
    /// `Suspended`, if a write or a flush of another thread was refused. Then the pool has to be opened again.
    pub fn quiescer<'a, 'b, W: Wait>(&'a mut self, rt: &'b W) -> Result<(), PoolError>
        ensures worked { MatchResult result (λ _. Works duty.Quiesce self.old self.new)
            (λ e. WorksUntil duty.Quiesce e self.old self.new) }
        ensures refused { IfErr result (λ e. Sees (IsRefusedDuty duty.Quiesce e)
            self.old self.new) }
        ensures not_unready { IfErr result (λ e. e ≢ PoolError.NotReady) }
    {
        self.work(rt, Loop::Quiescer, Duty::Quiesce)
    }

    /// Syncs groups until the pool is told to stop (`Pool::stop`). It starts the sync of the group that is quiesced,
    /// and makes its device calls. The syncs carry the pool's moment.
    ///
    /// A flush is made under the pool's lock: other threads wait for it.
    ///
    /// # Errors
    /// - `NoMemory`; `Read` or `Damaged` if a block that the sync needs can't be read. Then it may be called again.
    /// - `Write` or `Flush` if the device refused, and `Suspended` if it did so before. Then the pool has to be opened
    ///   again.
    pub fn syncer<'a, 'b, W: Wait>(&'a mut self, rt: &'b W) -> Result<(), PoolError>
        ensures worked { MatchResult result
            (λ _. Works (duty.Sync (moment_of self.old)) self.old self.new)
            (λ e. WorksUntil (duty.Sync (moment_of self.old)) e self.old self.new) }
        ensures refused { IfErr result (λ e. Sees (IsRefusedDuty (duty.Sync (moment_of self.old)) e)
            self.old self.new) }
        ensures not_unready { IfErr result (λ e. e ≢ PoolError.NotReady) }
    {
        let moment = self.shared.moment;
        self.work(rt, Loop::Syncer, Duty::Sync(moment))
    }

    // Does what is due until the pool is told to stop, as one of the loops that are at work.
    fn work<'a, 'b, W: Wait>(
        &'a mut self,
        rt: &'b W,
        which: Loop,
        duty: Duty,
    ) -> Result<(), PoolError>
        ensures worked { MatchResult result (λ _. Works duty self.old self.new)
            (λ e. WorksUntil duty e self.old self.new) }
        ensures refused { IfErr result (λ e. Sees (IsRefusedDuty duty e) self.old self.new) }
        ensures not_unready { IfErr result (λ e. e ≢ PoolError.NotReady) }
    {
        self.shared.bells.loop_begins(which);
        let ended = self.work_until_stopped(rt, which, duty);
        self.shared.loop_ends(which);
        ended
    }

    // Does what is due until the pool is told to stop.
    fn work_until_stopped<'a, 'b, W: Wait>(
        &'a mut self,
        rt: &'b W,
        which: Loop,
        duty: Duty,
    ) -> Result<(), PoolError>
        ensures worked { MatchResult result (λ _. Works duty self.old self.new)
            (λ e. WorksUntil duty e self.old self.new) }
        ensures refused { IfErr result (λ e. Sees (IsRefusedDuty duty e) self.old self.new) }
        ensures not_unready { IfErr result (λ e. e ≢ PoolError.NotReady) }
    {
        for _ in rt.forever() {
            let heard = self.shared.bells.listen(which);
            if self.shared.bells.is_stopped() {
                return Ok(());
            }
            let (reply, _) = self.serve(rt, duty);
            match ending(&reply) {
                Some(error) => return Err(error),
                None => self.shared.bells.rest(rt, which, &reply, heard),
            }
        }
        unreachable!()
    }
}

// The refusal that ends a loop.
pub(crate) fn ending(reply: &Option<Reply>) -> Option<PoolError>
    ensures refused { IfSome result (λ e. (reply.now ≡ Some (replied.Refused e))
        × (e ≢ PoolError.NotReady)) }
    ensures passed { IfNone result (GoesOnAfter (Some PoolError.NotReady) reply.now) }
{
    match reply {
        Some(Reply::Refused(error)) if *error != PoolError::NotReady => Some(*error),
        _ => None,
    }
}
