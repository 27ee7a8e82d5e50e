//! Calls that are made again while something that others hold stands in their way.
ghost use Rattle.std.specs.Prelude.{◌≡◌, Err, IfErr, false, true};
ghost use Rattle.base.specs.declared.error.PoolError.{PoolError};
ghost use Rattle.base.specs.declared.error.PoolError.TheVariants.{Busy, Throttled};
ghost use Rattle.base.specs.declared.range.Mode.TheVariants.{Writer};
ghost use Rattle.base.specs.steps.Refusals.{append_range, object_range};
ghost use Rattle.base.specs.steps.Runs.{reply_of};
ghost use Rattle.base.specs.steps.Shown.{Shown};
ghost use Rattle.pool_core.specs.States.{shown};
ghost use Rattle.pool_threads.specs.Answers.{Makes, MakesAtLast, WaitsWhileNot, state_seen};
ghost use Rattle.pool_threads.specs.Vain.{IsInOwnWay, IsThrottledInVain};

use crate::handle::Handle;
use crate::turn::retried_turn;
use base::{ObjectRange, PoolError};
use crossbeam_utils::Backoff;
use device_model::SectorDevice;
use pool_core::calls::{Begin, Lock, LockAppend};
use pool_core::{PoolCall, PoolState};
use std::sync::Wait;

/// A call that is made again after one refusal, unless it would be refused so for ever.
pub(crate) trait RetriedCall<D: SectorDevice>: PoolCall<D> + Copy {
    // The refusal after which it is made again.
    ghost retried: { PoolError };

    // It waits in vain: it will be refused so for ever, or until its own owner makes way or room.
    ghost is_in_vain: { Self → Shown → Type 0 };

    /// Whether it waits for the charges of a group to end, and not for a range. No clause rests on it.
    fn waits_for_room() -> bool {
        false
    }

    /// Whether the call may pass later, in a pool in which it was refused so.
    fn may_pass(&self, error: PoolError, state: &PoolState<D>) -> bool
        ensures again { result ≡ true → error ≡ retried }
        ensures in_time { result ≡ true → is_in_vain self.now (shown state.now) → ⊥ }
        ensures for_good { result ≡ false → error ≡ retried
            → is_in_vain self.now (shown state.now) };
}

// A lock whose owner holds one itself that is in its way stays busy.
impl<D: SectorDevice> RetriedCall<D> for Lock {
    ghost retried = { Busy };

    ghost is_in_vain = { λ c s. IsInOwnWay c.owner
        (object_range c.object.0 c.range.low c.range.high) c.mode s };

    fn may_pass(&self, error: PoolError, state: &PoolState<D>) -> bool {
        let range = ObjectRange {
            object: self.object,
            range: self.range,
        };
        error == PoolError::Busy && !state.is_blocked_by_own(self.owner, &range, self.mode)
    }
}

impl<D: SectorDevice> RetriedCall<D> for LockAppend {
    ghost retried = { Busy };

    ghost is_in_vain = { λ c s. IsInOwnWay c.owner (append_range c.object.0 s) Writer s };

    fn may_pass(&self, error: PoolError, state: &PoolState<D>) -> bool {
        error == PoolError::Busy && !state.is_append_blocked_by_own(self.owner, self.object)
    }
}

// A plan whose charge alone is above the pool's limit stays throttled. So does one whose owner has a transaction open,
// which keeps its group from being synced.
impl<'a, D: SectorDevice> RetriedCall<D> for Begin<'a> {
    ghost retried = { Throttled };

    ghost is_in_vain = { λ c s. IsThrottledInVain c.owner c.plan.now s };

    fn waits_for_room() -> bool {
        true
    }

    fn may_pass(&self, error: PoolError, state: &PoolState<D>) -> bool {
        error == PoolError::Throttled
            && !(state.is_above_limit(self.plan) || state.has_one_open(self.owner))
    }
}

impl<'p, D: SectorDevice> Handle<'p, D> {
    /// Makes a call, and makes it again while it may pass later. Between two tries the thread sleeps until it may help;
    /// one that waits for a range backs off first.
    pub(crate) fn retry<'a, 'b, W: Wait, C: RetriedCall<D> + Drop>(
        &'a mut self,
        rt: &'b W,
        call: C,
    ) -> Result<C::Answer, PoolError>
        ensures made { MakesAtLast (C.step call) C.retried (reply_of C.reply result)
            self.old self.new }
        ensures in_time { WaitsWhileNot (C.is_in_vain call) self.old self.new }
        ensures for_good { IfErr result (λ e. e ≡ C.retried
            → C.is_in_vain call (state_seen self.new).shown) }
    {
        let backoff = Backoff::new();
        for _ in rt.forever() {
            let unlocks = self.shared.ranges.rings();
            let frees = self.shared.room.rings();
            let (answer, may_pass) = self.try_call(rt, call);
            if !may_pass {
                return answer;
            }
            if C::waits_for_room() {
                self.shared.rest_for_room(rt, frees);
            } else {
                self.shared.ranges.rest(rt, &backoff, unlocks);
            }
        }
        unreachable!()
    }

    /// Makes a call in one turn, and returns too whether it may pass if it is made again.
    pub(crate) fn try_call<'a, 'b, W: Wait, C: RetriedCall<D> + Drop>(
        &'a mut self,
        rt: &'b W,
        call: C,
    ) -> (Result<C::Answer, PoolError>, bool)
        ensures made { Makes (C.step call) (reply_of C.reply result.0) self.old self.new }
        ensures again { result.1 ≡ true → result.0 ≡ Err C.retried }
        ensures in_time { result.1 ≡ true
            → C.is_in_vain call (state_seen self.new).shown → ⊥ }
        ensures for_good { result.1 ≡ false → IfErr result.0 (λ e. e ≡ C.retried
            → C.is_in_vain call (state_seen self.new).shown) }
    {
        let guard = self.seat.acquire(rt, &self.shared.lock);
        retried_turn(guard, call)
    }
}
