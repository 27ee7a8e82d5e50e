//! A lock that waits for at most a time.
ghost use Rattle.std.specs.Prelude.{◌≡◌, ◌⊎◌, ◌+◌, IfErr, IfOk};
ghost use Rattle.std.specs.Duration.{as_nanos};
ghost use Rattle.base.specs.declared.error.PoolError.TheVariants as error;
ghost use Rattle.base.specs.declared.step.Reply.TheVariants as reply;
ghost use Rattle.base.specs.declared.step.Step.TheVariants as step;
ghost use Rattle.base.specs.steps.Refusals.{object_range};
ghost use Rattle.base.specs.steps.Runs.{reply_of};
ghost use Rattle.base.specs.steps.Seen.{IsGranted};
ghost use Rattle.pool_threads.specs.Answers.{IsRefusal, MakesAtLast, Sees, WaitsWhileNot, state_seen};
ghost use Rattle.pool_threads.specs.Handles.{TakesAtMost, TakesSoMany, tries_within};
ghost use Rattle.pool_threads.specs.Vain.{IsInOwnWay};

use crate::handle::Handle;
use crate::retries::RetriedCall;
use base::{LockId, Mode, ObjectId, Owner, PoolError, Range};
use bells::Bell;
use device_model::SectorDevice;
use pool_core::calls::Lock;
use std::sync::Wait;
use std::time::Duration;

// How long a thread sleeps between two tries, at least.
const NAP_IN_MICROSECONDS: u128 = 500;

impl<'p, D: SectorDevice> Handle<'p, D> {
    /// Locks a range of an object as `lock` does, but waits for at most a time.
    ///
    /// It tries again each half millisecond, as often as that fits in the limit, and then is refused `Busy`. A limit
    /// below that makes one try. No clock is read: what the tries take comes on top of the limit, and so does the time
    /// for which other threads have the pool.
    ///
    /// # Errors
    /// Those of `PoolState::lock`; `Busy` only after the last try, or at once if the owner holds a lock itself that is
    /// in the way (`patient`, `in_time`).
    pub fn lock_within<'a, 'b, W: Wait>(
        &'a mut self,
        rt: &'b W,
        owner: Owner,
        object: ObjectId,
        range: Range,
        mode: Mode,
        limit: Duration,
    ) -> Result<LockId, PoolError>
        ensures made { MakesAtLast (step.Lock owner object range mode) error.Busy
            (reply_of (λ id. reply.Locked id) result) self.old self.new }
        ensures granted { IfOk result (λ id. Sees (IsGranted owner.0
            (object_range object.0 range.low range.high) mode id.0) self.old self.new) }
        ensures refused { IfErr result (λ e. Sees
            (IsRefusal (step.Lock owner object range mode) e) self.old self.new) }
        ensures in_time { WaitsWhileNot (IsInOwnWay owner
            (object_range object.0 range.low range.high) mode) self.old self.new }
        ensures limited { TakesAtMost (tries_within (as_nanos limit)) self.old self.new }
        ensures patient { IfErr result (λ e. e ≡ error.Busy → IsInOwnWay owner
            (object_range object.0 range.low range.high) mode (state_seen self.new).shown
            ⊎ TakesSoMany (tries_within (as_nanos limit)) self.old self.new) }
    {
        let lock = Lock {
            owner,
            object,
            range,
            mode,
        };
        self.retry_within(rt, lock, limit.as_micros() / NAP_IN_MICROSECONDS)
    }

    // Makes a call, and makes it again after each of so many naps while it may pass later.
    fn retry_within<'a, 'b, W: Wait, C: RetriedCall<D> + Drop>(
        &'a mut self,
        rt: &'b W,
        call: C,
        naps: u128,
    ) -> Result<C::Answer, PoolError>
        ensures made { MakesAtLast (C.step call) C.retried (reply_of C.reply result)
            self.old self.new }
        ensures in_time { WaitsWhileNot (C.is_in_vain call) self.old self.new }
        ensures limited { TakesAtMost (naps + 1) self.old self.new }
        ensures patient { IfErr result (λ e. e ≡ C.retried
            → C.is_in_vain call (state_seen self.new).shown
            ⊎ TakesSoMany (naps + 1) self.old self.new) }
    {
        // nobody rings it
        let alarm = Bell::new();
        for _ in 0..naps {
            let (answer, may_pass) = self.try_call(rt, call);
            if !may_pass {
                return answer;
            }
            alarm.sleep_briefly(rt, alarm.rings());
        }
        self.ask(rt, call)
    }
}
