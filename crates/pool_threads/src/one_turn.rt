//! A whole transaction on the pool of a lock, in one turn.
//!
//! 1. Between the first lock and the last unlock no other thread has the pool. So none is refused because of these
//!    locks or of this transaction, and nobody has to be woken after such a turn.
//! 2. After the first refusal it aborts what it has begun and unlocks what it has locked, in the same turn. So nothing
//!    is held while it waits.
ghost use Rattle.std.specs.Prelude.{◌≡◌, ◌≤◌, ◌==◌, ◌&&◌, IfErr, IfNone, IfSome, IsErrAnd, IsTrue, [], false, length, not, true, vec_capacity};
ghost use Rattle.base.specs.steps.Shown.{dirty_total};
ghost use Rattle.pool_tables.specs.Duties.{keeps_whole_log};
ghost use Rattle.pool_core.specs.States.{shown};
ghost use Rattle.pool_threads.specs.Transacts as words;
ghost use Rattle.pool_threads.specs.Transacts.{Ends, IsForGood, IsRetried, LocksAll, LocksAndBegins, LocksAndEnds, MakesTransaction, MayPass, Unlocks};
ghost use Rattle.pool_threads.specs.Turns.{HasDone};
ghost use Rattle.pool_threads.specs.Views.{Explains, viewed_state};
ghost use Rattle.word_lock.specs.Seats.{IsHolding, IsIdle, IsSameSeat, lock_table, seat_table, seen};

use crate::rule::{PoolRule, PoolView};
use crate::turn::step_noted;
use base::{LockId, Mode, ObjectRange, Ops, Owner, Plan, PoolError, Receipt, TxId};
use device_model::SectorDevice;
use pool_core::PoolState;
use pool_core::calls::{Abort, Begin, Commit, Lock, Unlock};
use word_lock::{Guard, Held};

/// Makes a transaction of this plan on the pool of a lock that a seat has, under locks of these ranges, and frees the
/// lock. The list of locks is its room for their names.
///
/// It returns the operations too if the transaction was refused and may pass when it is made again.
pub(crate) fn transact_turn<'s, 'l, D: SectorDevice>(
    guard: Guard<'s, 'l, Box<PoolState<D>>, PoolRule<D>>,
    owner: Owner,
    ranges: &[ObjectRange],
    locks: &mut Vec<LockId>,
    plan: &Plan,
    ops: Ops,
) -> (Result<Receipt, PoolError>, Option<Ops>)
    requires own { seat_table guard.seat.now ≡ lock_table guard.lock.now }
    requires held { IsHolding guard.seat.now }
    requires view { guard.held.view.value ≡ seen guard.seat.now }
    requires explains { Explains guard.held.value.value guard.held.view.value }
    requires room { length ranges.now ≤ vec_capacity locks.old }
    ensures same { IsSameSeat guard.entry.seat.now guard.exit.0.now × IsIdle guard.exit.0.now }
    ensures done { HasDone
        (MakesTransaction (IsTrue D.keeps_model) owner ranges.now plan.now ops result.0)
        guard.entry.seat.now guard.exit.0.now }
    ensures again { IfSome result.1
        (λ back. (back ≡ ops) × IsErrAnd result.0 (λ e. MayPass owner ranges.now plan.now e
        (viewed_state (seen guard.exit.0.now)).shown)) }
    ensures for_good { IfNone result.1 (IfErr result.0 (λ e. IsForGood owner ranges.now plan.now e
        (viewed_state (seen guard.exit.0.now)).shown)) }
    ensures room { length ranges.now ≤ vec_capacity locks.new }
{
    let Guard { seat, lock, held } = guard;
    let mut held = held;
    let (result, unused) = transact_noted(&mut held, owner, ranges, locks, plan, ops);
    let may_pass = may_pass(&result, owner, ranges, plan, &held.value);
    let Held { value, view } = held;
    seat.put_back(lock, value, &view);
    (result, if may_pass { unused } else { None })
}

// Whether a transaction with this answer may pass if it is made again.
fn may_pass<D: SectorDevice>(
    answer: &Result<Receipt, PoolError>,
    owner: Owner,
    ranges: &[ObjectRange],
    plan: &Plan,
    state: &PoolState<D>,
) -> bool
    ensures again { result ≡ true → IsErrAnd answer.now (λ e. MayPass owner ranges.now plan.now e
        (shown state.now)) }
    ensures for_good { result ≡ false → IfErr answer.now (λ e. IsForGood owner ranges.now plan.now e
        (shown state.now)) }
{
    match answer {
        Ok(_) => false,
        Err(error) => {
            is_retried(*error, ranges) && !is_in_vain(*error, owner, ranges, plan, state)
        }
    }
}

// Whether a transaction may be made again after this refusal: of a range, or of room that a sync may make. Without
// ranges of its own `Busy` is that of the begin, which another transaction of the owner blocks.
fn is_retried(error: PoolError, ranges: &[ObjectRange]) -> bool
    ensures again { result ≡ true → IsRetried ranges.now error }
    ensures never { result ≡ false → IsRetried ranges.now error → ⊥ }
{
    match error {
        PoolError::Busy => !ranges.is_empty(),
        PoolError::Throttled | PoolError::NoSpace => true,
        _ => false,
    }
}

// Whether it waits in vain then: its owner stands in its own way, or no sync makes room.
fn is_in_vain<D: SectorDevice>(
    error: PoolError,
    owner: Owner,
    ranges: &[ObjectRange],
    plan: &Plan,
    state: &PoolState<D>,
) -> bool
    ensures { result ≡ words.is_in_vain owner ranges.now plan.now error (shown state.now) }
{
    match error {
        PoolError::Busy => is_in_own_way(owner, ranges, state),
        PoolError::Throttled => state.is_above_limit(plan) || state.has_one_open(owner),
        PoolError::NoSpace => is_all_synced(state) || state.has_one_open(owner),
        _ => false,
    }
}

// Whether no transaction is unsynced, and a sync gives no log block back.
fn is_all_synced<D: SectorDevice>(state: &PoolState<D>) -> bool
    ensures { result ≡ (dirty_total (shown state.now) == 0) && not (keeps_whole_log (shown state.now)) }
{
    state.status().dirty == 0 && !state.keeps_whole_log()
}

// Whether a lock that the owner holds itself overlaps one of these ranges.
fn is_in_own_way<D: SectorDevice>(
    owner: Owner,
    ranges: &[ObjectRange],
    state: &PoolState<D>,
) -> bool
    ensures { result ≡ words.is_in_own_way owner ranges.now (shown state.now) }
{
    ranges.iter().any(|range| state.is_blocked_by_own(owner, range, Mode::Writer))
}

// Makes a transaction, and goes on to the view after it. It returns the operations too if they were not committed.
fn transact_noted<'h, D: SectorDevice>(
    held: &'h mut Held<Box<PoolState<D>>, PoolView>,
    owner: Owner,
    ranges: &[ObjectRange],
    locks: &mut Vec<LockId>,
    plan: &Plan,
    ops: Ops,
) -> (Result<Receipt, PoolError>, Option<Ops>)
    requires explains { Explains held.old.value.value held.old.view.value }
    requires room { length ranges.now ≤ vec_capacity locks.old }
    ensures explains { Explains held.new.value.value held.new.view.value }
    ensures made { MakesTransaction (IsTrue D.keeps_model) owner ranges.now plan.now ops result.0
        held.old.view.value held.new.view.value }
    ensures same { IfSome result.1 (λ back. back ≡ ops) }
    ensures for_good { IfNone result.1 (IfErr result.0 (λ e. IsRetried ranges.now e → ⊥)) }
    ensures room { length ranges.now ≤ vec_capacity locks.new }
{
    locks.clear();
    let made = lock_and_commit(held, owner, ranges, locks, plan, ops);
    unlock_all(held, owner, locks);
    made
}

// Locks these ranges, begins and commits, up to the first refusal. It adds each lock that it gets to `locks`.
fn lock_and_commit<'h, D: SectorDevice>(
    held: &'h mut Held<Box<PoolState<D>>, PoolView>,
    owner: Owner,
    ranges: &[ObjectRange],
    locks: &mut Vec<LockId>,
    plan: &Plan,
    ops: Ops,
) -> (Result<Receipt, PoolError>, Option<Ops>)
    requires explains { Explains held.old.value.value held.old.view.value }
    requires none { locks.old.items ≡ [] }
    requires room { length ranges.now ≤ vec_capacity locks.old }
    ensures explains { Explains held.new.value.value held.new.view.value }
    ensures made { LocksAndEnds (IsTrue D.keeps_model) owner ranges.now plan.now ops
        locks.new.items result.0 held.old.view.value held.new.view.value }
    ensures same { IfSome result.1 (λ back. back ≡ ops) }
    ensures for_good { IfNone result.1 (IfErr result.0 (λ e. IsRetried ranges.now e → ⊥)) }
    ensures room { vec_capacity locks.new ≡ vec_capacity locks.old }
{
    match lock_and_begin(held, owner, ranges, locks, plan) {
        Ok(tx) => (commit_or_abort(held, tx, ops), None),
        Err(error) => (Err(error), Some(ops)),
    }
}

// Locks these ranges and begins a transaction, up to the first refusal. It adds each lock that it gets to `locks`.
fn lock_and_begin<'h, D: SectorDevice>(
    held: &'h mut Held<Box<PoolState<D>>, PoolView>,
    owner: Owner,
    ranges: &[ObjectRange],
    locks: &mut Vec<LockId>,
    plan: &Plan,
) -> Result<TxId, PoolError>
    requires explains { Explains held.old.value.value held.old.view.value }
    requires none { locks.old.items ≡ [] }
    requires room { length ranges.now ≤ vec_capacity locks.old }
    ensures explains { Explains held.new.value.value held.new.view.value }
    ensures made { LocksAndBegins (IsTrue D.keeps_model) owner ranges.now plan.now
        locks.new.items result held.old.view.value held.new.view.value }
    ensures room { vec_capacity locks.new ≡ vec_capacity locks.old }
{
    lock_all(held, owner, ranges, locks)?;
    let (tx, _) = step_noted(held, Begin { owner, plan })?;
    Ok(tx)
}

// Locks these ranges as a writer, in order, up to the first that is refused. It adds each lock that it gets to `locks`.
fn lock_all<'h, D: SectorDevice>(
    held: &'h mut Held<Box<PoolState<D>>, PoolView>,
    owner: Owner,
    ranges: &[ObjectRange],
    locks: &mut Vec<LockId>,
) -> Result<(), PoolError>
    requires explains { Explains held.old.value.value held.old.view.value }
    requires none { locks.old.items ≡ [] }
    requires room { length ranges.now ≤ vec_capacity locks.old }
    ensures explains { Explains held.new.value.value held.new.view.value }
    ensures made { LocksAll (IsTrue D.keeps_model) owner ranges.now locks.new.items result
        held.old.view.value held.new.view.value }
    ensures room { vec_capacity locks.new ≡ vec_capacity locks.old }
{
    for range in ranges {
        let lock = Lock {
            owner,
            object: range.object,
            range: range.range,
            mode: Mode::Writer,
        };
        let id = step_noted(held, lock)?;
        locks.push_reserved(id);
    }
    Ok(())
}

// Commits operations in a transaction, and aborts it if the commit is refused.
fn commit_or_abort<'h, D: SectorDevice>(
    held: &'h mut Held<Box<PoolState<D>>, PoolView>,
    tx: TxId,
    ops: Ops,
) -> Result<Receipt, PoolError>
    requires { Explains held.old.value.value held.old.view.value }
    ensures explains { Explains held.new.value.value held.new.view.value }
    ensures made { Ends (IsTrue D.keeps_model) tx ops result
        held.old.view.value held.new.view.value }
{
    let committed = step_noted(held, Commit { tx, ops });
    if committed.is_err() {
        let _ = step_noted(held, Abort { tx });
    }
    committed
}

// Unlocks these locks in order, and goes on after a refusal.
fn unlock_all<'h, D: SectorDevice>(
    held: &'h mut Held<Box<PoolState<D>>, PoolView>,
    owner: Owner,
    locks: &[LockId],
)
    requires { Explains held.old.value.value held.old.view.value }
    ensures explains { Explains held.new.value.value held.new.view.value }
    ensures made { Unlocks (IsTrue D.keeps_model) owner locks.now
        held.old.view.value held.new.view.value }
{
    for id in locks {
        let _ = step_noted(held, Unlock { owner, id: *id });
    }
}
