//! What callers rest on of calls that wait: none waits for its own owner.

ghost use Rattle.std.specs.Prelude.{ℕ, ◌≡◌, ◌≢◌, ◌⊎◌, ◌++◌, ◌∷◌, [], All, IfErr, IfOk, IsTrue, List, Some, false, slice_get, true};
ghost use Rattle.base.specs.declared.error.PoolError.{PoolError};
ghost use Rattle.base.specs.declared.range.Mode.TheVariants.{Reader, Writer};
ghost use Rattle.base.specs.history.Plans.{number_range, overlaps};
ghost use Rattle.base.specs.steps.Groups.{Admission};
ghost use Rattle.base.specs.steps.Locks.{Grant};
ghost use Rattle.base.specs.steps.Refusals.{append_range, object_range};
ghost use Rattle.base.specs.steps.Seen.{IsThrottledForGood};
ghost use Rattle.pool_threads.specs.Answers.{state_seen};
ghost use Rattle.pool_threads.specs.Handles.{moment_of, turns_of, view_seen};
ghost use Rattle.pool_threads.specs.Transacts.{IsPayingTurn, plan_of_ops};
ghost use Rattle.pool_threads.specs.Views.{SeenPool, viewed_state};
ghost use Rattle.transactions.specs.LockRanges.{lock_ranges};
ghost use Rattle.word_lock.specs.declared.rule.Turn.{Turn};
ghost use Rattle.word_lock.specs.Turns.{turn};

use base::{
    Bytes, Group, LockId, Mode, ObjectId, Ops, Owner, Plan, PoolError, Range, Receipt, TxId,
};
use device_model::SectorDevice;
use pool_threads::Handle;
use std::sync::Wait;
use std::time::Duration;

// Each turn but the last left no lock of its owner that overlaps the range.
fn a_lock_waits_for_other_owners_alone<D: SectorDevice, W: Wait>(
    rt: &W,
    handle: &mut Handle<'_, D>,
    range: Range,
) -> Result<LockId, PoolError>
    ensures { (had : List (Turn SeenPool)) × (last : Turn SeenPool)
        × (turns_of handle.new ≡ (turns_of handle.old ++ had) ++ last ∷ [])
        × All (λ t. (i : ℕ) (g : Grant)
        → slice_get (viewed_state t.left).shown.locks i ≡ Some g → g.owner ≡ 3
        → overlaps g.range (object_range 5 range.low range.high) ≡ false) had }
{
    handle.lock(rt, Owner(3), ObjectId(5), range, Mode::Writer)
}

// So does one with a limit: it doesn't use it up beside its own lock.
fn a_lock_with_a_limit_waits_for_other_owners_alone<D: SectorDevice, W: Wait>(
    rt: &W,
    handle: &mut Handle<'_, D>,
    range: Range,
    limit: Duration,
) -> Result<LockId, PoolError>
    ensures { (had : List (Turn SeenPool)) × (last : Turn SeenPool)
        × (turns_of handle.new ≡ (turns_of handle.old ++ had) ++ last ∷ [])
        × All (λ t. (i : ℕ) (g : Grant)
        → slice_get (viewed_state t.left).shown.locks i ≡ Some g → g.owner ≡ 3
        → overlaps g.range (object_range 5 range.low range.high) ≡ false) had }
{
    handle.lock_within(rt, Owner(3), ObjectId(5), range, Mode::Writer, limit)
}

fn a_lock_is_refused_busy_by_its_own_owner_alone<D: SectorDevice, W: Wait>(
    rt: &W,
    handle: &mut Handle<'_, D>,
    range: Range,
) -> Result<LockId, PoolError>
    ensures { IfErr result (λ e. e ≡ PoolError.Busy → (i : ℕ) × (g : Grant)
        × (slice_get (state_seen handle.new).shown.locks i ≡ Some g) × (g.owner ≡ 3)
        × (overlaps g.range (object_range 5 range.low range.high) ≡ true)) }
{
    handle.lock(rt, Owner(3), ObjectId(5), range, Mode::Writer)
}

fn so_is_an_append_lock<D: SectorDevice, W: Wait>(
    rt: &W,
    handle: &mut Handle<'_, D>,
) -> Result<(LockId, Range), PoolError>
    ensures { IfErr result (λ e. e ≡ PoolError.Busy → (i : ℕ) × (g : Grant)
        × (slice_get (state_seen handle.new).shown.locks i ≡ Some g) × (g.owner ≡ 3)
        × (overlaps g.range (append_range 5 (state_seen handle.new).shown) ≡ true)) }
{
    handle.lock_append(rt, Owner(3), ObjectId(5))
}

// Each turn but the last left no writer's lock of its owner that overlaps the range.
fn a_fetch_waits_for_other_owners_alone<D: SectorDevice, W: Wait>(
    rt: &W,
    handle: &mut Handle<'_, D>,
    range: Range,
) -> Result<Bytes, PoolError>
    ensures { (had : List (Turn SeenPool)) × (last : Turn SeenPool)
        × (turns_of handle.new ≡ (turns_of handle.old ++ had) ++ last ∷ [])
        × All (λ t. (i : ℕ) (g : Grant)
        → slice_get (viewed_state t.left).shown.locks i ≡ Some g → g.owner ≡ 3
        → overlaps g.range (object_range 5 range.low range.high) ≡ true → g.mode ≡ Reader) had }
{
    handle.fetch(rt, Owner(3), ObjectId(5), range)
}

// Its lock is a writer's: a reader's lock of its own is in no reader's way.
fn a_fetch_is_refused_busy_by_its_own_owner_alone<D: SectorDevice, W: Wait>(
    rt: &W,
    handle: &mut Handle<'_, D>,
    range: Range,
) -> Result<Bytes, PoolError>
    ensures { IfErr result (λ e. e ≡ PoolError.Busy → (i : ℕ) × (g : Grant)
        × (slice_get (state_seen handle.new).shown.locks i ≡ Some g) × (g.owner ≡ 3)
        × (overlaps g.range (object_range 5 range.low range.high) ≡ true)
        × (g.mode ≡ Writer)) }
{
    handle.fetch(rt, Owner(3), ObjectId(5), range)
}

// Each turn but the last left no transaction of its owner open.
fn a_begin_waits_for_other_owners_alone<D: SectorDevice, W: Wait>(
    rt: &W,
    handle: &mut Handle<'_, D>,
    plan: Plan,
) -> Result<(TxId, Group), PoolError>
    ensures { (had : List (Turn SeenPool)) × (last : Turn SeenPool)
        × (turns_of handle.new ≡ (turns_of handle.old ++ had) ++ last ∷ [])
        × All (λ t. (i : ℕ) (a : Admission)
        → slice_get (viewed_state t.left).shown.transactions i ≡ Some a → a.owner ≢ 3) had }
{
    handle.begin(rt, Owner(3), plan)
}

fn a_begin_is_throttled_above_the_limit_or_by_its_own_owner<D: SectorDevice, W: Wait>(
    rt: &W,
    handle: &mut Handle<'_, D>,
    plan: Plan,
) -> Result<(TxId, Group), PoolError>
    ensures { IfErr result (λ e. e ≡ PoolError.Throttled
        → IsThrottledForGood plan (state_seen handle.new)
        ⊎ ((i : ℕ) × (a : Admission)
        × (slice_get (state_seen handle.new).shown.transactions i ≡ Some a) × (a.owner ≡ 3))) }
{
    handle.begin(rt, Owner(3), plan)
}

// Each turn but the last made steps of a sync, or was a try. A try for a range left no lock of its owner on one of the
// ranges, and one for room left no transaction of its owner open.
fn a_transact_waits_for_other_owners_alone<D: SectorDevice, W: Wait>(
    rt: &W,
    handle: &mut Handle<'_, D>,
    ops: Ops,
) -> Result<Receipt, PoolError>
    ensures { IfOk result (λ r. (tries : List (Turn SeenPool)) × (took : SeenPool)
        × (turns_of handle.new
        ≡ (turns_of handle.old ++ tries) ++ turn took (view_seen handle.new) ∷ [])
        × All (λ t. IsPayingTurn (IsTrue D.keeps_model) (moment_of handle.old) t
        ⊎ (((i : ℕ) (g : Grant) → slice_get (viewed_state t.left).shown.locks i ≡ Some g
        → g.owner ≡ 3
        → All (λ r. overlaps g.range (number_range r) ≡ false) (lock_ranges (plan_of_ops ops)))
        ⊎ ((i : ℕ) (a : Admission)
        → slice_get (viewed_state t.left).shown.transactions i ≡ Some a → a.owner ≢ 3))) tries) }
{
    handle.transact(rt, Owner(3), ops)
}
