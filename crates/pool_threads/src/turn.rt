//! One step on the pool of a lock, and the view after it.
//!
//! Every call of a handle goes through `step_noted`, which makes it and goes on to the view after it. `turn` and
//! `retried_turn` have it made while a seat has the lock, and free the lock. `one_turn.rt` makes a transaction so, and
//! `fetch.rt` a read under a lock.
ghost use Rattle.std.specs.Prelude.{◌≡◌, IsSome, IsTrue, MatchOption, IfErr, Err, false, true};
ghost use Rattle.base.specs.steps.Tables.{AreTablesExplained};
ghost use Rattle.base.specs.steps.Runs.{reply_of};
ghost use Rattle.base.specs.steps.SyncEnds.{IsAnswer};
ghost use Rattle.word_lock.specs.Seats.{IsAsBefore, IsHolding, IsIdle, IsSameSeat, kin, lock_table, seat_table, seen};
ghost use Rattle.pool_core.specs.States.{shown};
ghost use Rattle.pool_threads.specs.Serves.{HasServed, MakesDue};
ghost use Rattle.pool_threads.specs.Turns.{HasDone, HasMade, HasStepped};
ghost use Rattle.pool_threads.specs.Views.{Explains, IsPoolStep, view_after, viewed_state};
ghost use Rattle.pool_threads.specs.Waits.{IsLogTurn};
ghost use Rattle.word_lock.specs.Turns.{turn};

use crate::retries::RetriedCall;
use crate::rule::{PoolRule, PoolView};
use base::{Group, PoolError, Receipt, Reply, Step, Told};
use device_model::SectorDevice;
use pool_core::{Duty, PoolCall, PoolState};
use std::snapshot::Snapshot;
use word_lock::{Guard, Held, Seat, WordLock};

// The view after a step, of the pool as it is then.
fn next_view<'a, D: SectorDevice, C: PoolCall<D>>(
    view: &'a Told<PoolView>,
    call: &'a Snapshot<C>,
    answer: &'a Result<C::Answer, PoolError>,
    state: &'a PoolState<D>,
) -> Told<PoolView>
    ensures { result.value ≡ view_after (C.step call.now.value) (reply_of C.reply answer.now)
        view.now.value state.now }
{
    Told::of(&(view, call, answer, state))
}

/// Makes a step, and goes on to the view after it.
pub(crate) fn step_noted<'h, D: SectorDevice, C: PoolCall<D>>(
    held: &'h mut Held<Box<PoolState<D>>, PoolView>,
    call: C,
) -> Result<C::Answer, PoolError>
    requires { Explains held.old.value.value held.old.view.value }
    ensures explains { Explains held.new.value.value held.new.view.value }
    ensures stepped { IsPoolStep (IsTrue D.keeps_model) (C.step call) (reply_of C.reply result)
        held.old.view.value held.new.view.value }
{
    let made = Snapshot::of(&call);
    let answer = call.make(&mut held.value);
    held.view = next_view(&held.view, &made, &answer, &held.value);
    answer
}

/// Makes a step on the pool of a lock that a seat has, and frees the lock.
pub(crate) fn turn<'s, 'l, D: SectorDevice, C: PoolCall<D>>(
    guard: Guard<'s, 'l, Box<PoolState<D>>, PoolRule<D>>,
    call: C,
) -> Result<C::Answer, PoolError>
    requires own { seat_table guard.seat.now ≡ lock_table guard.lock.now }
    requires held { IsHolding guard.seat.now }
    requires view { guard.held.view.value ≡ seen guard.seat.now }
    requires explains { Explains guard.held.value.value guard.held.view.value }
    ensures same { IsSameSeat guard.entry.seat.now guard.exit.0.now × IsIdle guard.exit.0.now }
    ensures stepped { HasStepped (IsTrue D.keeps_model) (C.step call) (reply_of C.reply result)
        guard.entry.seat.now guard.exit.0.now }
{
    let Guard { seat, lock, held } = guard;
    let mut held = held;
    let answer = step_noted(&mut held, call);
    let Held { value, view } = held;
    seat.put_back(lock, value, &view);
    answer
}

/// Makes a step as `turn` does, and returns too whether the call may pass if it is made again.
pub(crate) fn retried_turn<'s, 'l, D: SectorDevice, C: RetriedCall<D> + Drop>(
    guard: Guard<'s, 'l, Box<PoolState<D>>, PoolRule<D>>,
    call: C,
) -> (Result<C::Answer, PoolError>, bool)
    requires own { seat_table guard.seat.now ≡ lock_table guard.lock.now }
    requires held { IsHolding guard.seat.now }
    requires view { guard.held.view.value ≡ seen guard.seat.now }
    requires explains { Explains guard.held.value.value guard.held.view.value }
    ensures same { IsSameSeat guard.entry.seat.now guard.exit.0.now × IsIdle guard.exit.0.now }
    ensures stepped { HasStepped (IsTrue D.keeps_model) (C.step call) (reply_of C.reply result.0)
        guard.entry.seat.now guard.exit.0.now }
    ensures again { result.1 ≡ true → result.0 ≡ Err C.retried }
    ensures in_time { result.1 ≡ true
        → C.is_in_vain call (viewed_state (seen guard.exit.0.now)).shown → ⊥ }
    ensures for_good { result.1 ≡ false → IfErr result.0 (λ e. e ≡ C.retried
        → C.is_in_vain call (viewed_state (seen guard.exit.0.now)).shown) }
{
    let Guard { seat, lock, held } = guard;
    let mut held = held;
    let answer = step_noted(&mut held, call);
    let may_pass = may_pass(&call, &answer, &held.value);
    let Held { value, view } = held;
    seat.put_back(lock, value, &view);
    (answer, may_pass)
}

// Whether a call with this answer may pass if it is made again.
fn may_pass<D: SectorDevice, C: RetriedCall<D> + Drop>(
    call: &C,
    answer: &Result<C::Answer, PoolError>,
    state: &PoolState<D>,
) -> bool
    ensures again { result ≡ true → answer.now ≡ Err C.retried }
    ensures in_time { result ≡ true → C.is_in_vain call.now (shown state.now) → ⊥ }
    ensures for_good { result ≡ false → IfErr answer.now (λ e. e ≡ C.retried
        → C.is_in_vain call.now (shown state.now)) }
{
    match answer {
        Ok(_) => false,
        Err(error) => call.may_pass(*error, state),
    }
}

// The most steps that are made in one turn for a duty. No clause rests on it.
const STEPS_IN_A_TURN: u32 = 1_000;

/// Makes the steps that are due on the pool of a lock that a seat has, and frees the lock: the reply of the last step,
/// the group that is synced then, and how many blocks are available.
pub(crate) fn serve_turn<'s, 'l, D: SectorDevice>(
    guard: Guard<'s, 'l, Box<PoolState<D>>, PoolRule<D>>,
    duty: Duty,
) -> (Option<Reply>, Group, u64)
    requires own { seat_table guard.seat.now ≡ lock_table guard.lock.now }
    requires held { IsHolding guard.seat.now }
    requires view { guard.held.view.value ≡ seen guard.seat.now }
    requires explains { Explains guard.held.value.value guard.held.view.value }
    ensures same { IsSameSeat guard.entry.seat.now guard.exit.0.now × IsIdle guard.exit.0.now }
    ensures served { HasServed (IsTrue D.keeps_model) duty result.0
        guard.entry.seat.now guard.exit.0.now }
    ensures synced { result.1.0 ≡ (viewed_state (seen guard.exit.0.now)).shown.line.synced }
    ensures explained { ∥ AreTablesExplained (viewed_state (seen guard.exit.0.now)).shown
        (seen guard.exit.0.now).past ∥₁ }
{
    let Guard { seat, lock, held } = guard;
    let mut held = held;
    let reply = serve_noted(&mut held, duty);
    let Held { value, view } = held;
    let status = value.status();
    seat.put_back(lock, value, &view);
    (reply, status.synced, status.available)
}

/// Makes the steps that are due for the log on the pool of a lock that a seat has, looks at a receipt, and frees the
/// lock: the reply of the last step, whether the transaction is durable, and how many blocks are available.
pub(crate) fn log_turn<'s, 'l, D: SectorDevice>(
    guard: Guard<'s, 'l, Box<PoolState<D>>, PoolRule<D>>,
    receipt: Receipt,
) -> (Option<Reply>, Result<bool, PoolError>, u64)
    requires own { seat_table guard.seat.now ≡ lock_table guard.lock.now }
    requires held { IsHolding guard.seat.now }
    requires view { guard.held.view.value ≡ seen guard.seat.now }
    requires explains { Explains guard.held.value.value guard.held.view.value }
    ensures same { IsSameSeat guard.entry.seat.now guard.exit.0.now × IsIdle guard.exit.0.now }
    ensures done { HasDone
        (λ v w. IsLogTurn (IsTrue D.keeps_model) receipt result.0 result.1 (turn v w))
        guard.entry.seat.now guard.exit.0.now }
{
    let Guard { seat, lock, held } = guard;
    let mut held = held;
    let reply = serve_noted(&mut held, Duty::CommitLog);
    let Held { value, view } = held;
    let found = value.check_receipt(receipt);
    let available = value.status().available;
    seat.put_back(lock, value, &view);
    (reply, found, available)
}

// Makes the steps that are due one after another, up to one after which none is due at once, and goes on to the view
// after them: the reply of the last step.
fn serve_noted<'h, D: SectorDevice>(
    held: &'h mut Held<Box<PoolState<D>>, PoolView>,
    duty: Duty,
) -> Option<Reply>
    requires { Explains held.old.value.value held.old.view.value }
    ensures explains { Explains held.new.value.value held.new.view.value }
    ensures made { MakesDue (IsTrue D.keeps_model) duty result
        held.old.view.value held.new.view.value }
{
    let step = held.value.due_step(duty)?;
    let mut reply = step_replied(held, step);
    for _ in 0..STEPS_IN_A_TURN {
        if !goes_on(&reply) {
            return Some(reply);
        }
        match held.value.due_step(duty) {
            Some(step) => reply = step_replied(held, step),
            None => return Some(reply),
        }
    }
    Some(reply)
}

// Makes a step, and goes on to the view after it: its reply.
fn step_replied<'h, D: SectorDevice>(
    held: &'h mut Held<Box<PoolState<D>>, PoolView>,
    step: Step,
) -> Reply
    requires { Explains held.old.value.value held.old.view.value }
    ensures explains { Explains held.new.value.value held.new.view.value }
    ensures stepped { IsPoolStep (IsTrue D.keeps_model) step result
        held.old.view.value held.new.view.value }
{
    replied(step_noted(held, step))
}

// Whether a turn goes on after a step with this reply: it ends with a refusal, and after each flush of the log and each
// sync, so that other threads get the pool.
pub(crate) fn goes_on(reply: &Reply) -> bool
    ensures answered { result ≡ true → IsAnswer reply.now }
{
    !matches!(reply, Reply::Refused(_) | Reply::Flushed | Reply::Synced(_))
}

/// The answer of a step, as a reply.
pub(crate) fn replied(answer: Result<Reply, PoolError>) -> Reply
    ensures { result ≡ reply_of (λ r. r) answer }
{
    match answer {
        Ok(reply) => reply,
        Err(error) => Reply::Refused(error),
    }
}

/// Makes a step if the lock is free, in one turn of the seat and no other.
pub(crate) fn try_turn<D: SectorDevice, C: PoolCall<D> + Drop>(
    seat: &mut Seat<Box<PoolState<D>>, PoolRule<D>>,
    lock: &WordLock<Box<PoolState<D>>, PoolRule<D>>,
    call: C,
) -> Option<Result<C::Answer, PoolError>>
    requires own { seat_table seat.old ≡ lock_table lock.now }
    requires idle { IsIdle seat.old }
    ensures same { (seat_table seat.new ≡ seat_table seat.old) × IsIdle seat.new }
    ensures made { MatchOption result (IsAsBefore seat.old seat.new)
        (λ r. HasMade (IsTrue D.keeps_model) (C.step call) (reply_of C.reply r) seat.old seat.new) }
    ensures only { kin seat.old ≡ 0 → IsSome result }
{
    let Some(guard) = seat.try_acquire(lock) else {
        return None;
    };
    Some(turn(guard, call))
}
