//! What callers rest on of `transact` and `transact_locked`.

ghost use Rattle.std.specs.Prelude.{ℕ, ◌≡◌, ◌⊎◌, ◌++◌, [], ◌∷◌, All, IfErr, IfOk, IfSome, IsTrue, List, None, Ok, Some, slice_get, true};
ghost use Rattle.base.specs.declared.names.Group.{Group};
ghost use Rattle.base.specs.declared.names.LockId.{LockId};
ghost use Rattle.base.specs.declared.names.TxId.{TxId};
ghost use Rattle.base.specs.declared.step.Reply.TheVariants as reply;
ghost use Rattle.base.specs.declared.step.Step.TheVariants as step;
ghost use Rattle.base.specs.steps.Groups.{Admission};
ghost use Rattle.base.specs.steps.Shown.{dirty_total, is_durable};
ghost use Rattle.pool_threads.specs.Answers.{Sees, state_seen};
ghost use Rattle.pool_threads.specs.Handles.{kin_of, turns_of, view_seen};
ghost use Rattle.pool_threads.specs.Transacts.{IsTransacted, Locks, TransactsOrLacks, Unlocks, plan_of_ops};
ghost use Rattle.pool_threads.specs.Views.{IsPoolStep, SeenPool, viewed_state};
ghost use Rattle.pool_threads.specs.declared.handle.Handle.{Handle};
ghost use Rattle.transactions.specs.LockRanges.{lock_ranges};
ghost use Rattle.word_lock.specs.declared.rule.Turn.{Turn};
ghost use Rattle.word_lock.specs.Turns.{turn};
ghost use Rattle.base.specs.steps.Seen.{IsKnownDurable};

use base::{Ops, Owner, PoolError, Receipt};
use device_model::SectorDevice;
use pool_threads::Handle;
use std::sync::Wait;

fn a_transact_enters_its_operations<D: SectorDevice, W: Wait>(
    rt: &W,
    handle: &mut Handle<'_, D>,
    ops: Ops,
) -> Result<Receipt, PoolError>
    ensures entered { IfOk result (λ r. Sees (IsTransacted ops r) handle.old handle.new) }
    ensures number { kin_of handle.new ≡ kin_of handle.old }
{
    handle.transact(rt, Owner(3), ops)
}

// These are all the steps of its last turn, and no other thread has the pool between them.
fn a_transact_locks_begins_commits_and_unlocks_in_one_turn<D: SectorDevice, W: Wait>(
    rt: &W,
    handle: &mut Handle<'_, D>,
    owner: Owner,
    ops: Ops,
) -> Result<Receipt, PoolError>
    ensures { IfOk result (λ r. (tries : List (Turn SeenPool)) × (took : SeenPool)
        × (turns_of handle.new
        ≡ (turns_of handle.old ++ tries) ++ turn took (view_seen handle.new) ∷ [])
        × (ids : List LockId) × (tx : TxId) × (group : Group)
        × (locked : SeenPool) × (begun : SeenPool) × (done : SeenPool)
        × Locks (IsTrue D.keeps_model) owner (lock_ranges (plan_of_ops ops)) ids took locked
        × IsPoolStep (IsTrue D.keeps_model) (step.Begin owner (plan_of_ops ops))
        (reply.Began tx group) locked begun
        × IsPoolStep (IsTrue D.keeps_model) (step.Commit tx ops) (reply.Committed r) begun done
        × Unlocks (IsTrue D.keeps_model) owner ids done (view_seen handle.new)) }
{
    handle.transact(rt, owner, ops)
}

// In no turn, whatever other handles hold: not while it waits or syncs, and not after a refusal.
fn a_transact_leaves_no_lock_of_its_own<D: SectorDevice, W: Wait>(
    rt: &W,
    handle: &mut Handle<'_, D>,
    owner: Owner,
    ops: Ops,
) -> Result<Receipt, PoolError>
    ensures { (had : List (Turn SeenPool)) × (turns_of handle.new ≡ turns_of handle.old ++ had)
        × All (λ t. ∥ (viewed_state t.left).shown.locks
        ≡ (viewed_state t.took).shown.locks ∥₁) had }
{
    handle.transact(rt, owner, ops)
}

fn a_transact_leaves_no_transaction_of_its_own<D: SectorDevice, W: Wait>(
    rt: &W,
    handle: &mut Handle<'_, D>,
    owner: Owner,
    ops: Ops,
) -> Result<Receipt, PoolError>
    ensures { (had : List (Turn SeenPool)) × (turns_of handle.new ≡ turns_of handle.old ++ had)
        × All (λ t. ∥ (viewed_state t.left).shown.transactions
        ≡ (viewed_state t.took).shown.transactions ∥₁) had }
{
    handle.transact(rt, owner, ops)
}

// Also if it is refused, and if transactions were open before it.
fn a_transact_of_the_only_handle_leaves_nothing_of_its_own<D: SectorDevice, W: Wait>(
    rt: &W,
    handle: &mut Handle<'_, D>,
    ops: Ops,
) -> Result<Receipt, PoolError>
    ensures locks { kin_of handle.old ≡ 0
        → Sees (λ before after. after.shown.locks ≡ before.shown.locks) handle.old handle.new }
    ensures transactions { kin_of handle.old ≡ 0
        → Sees (λ before after. after.shown.transactions ≡ before.shown.transactions)
        handle.old handle.new }
{
    handle.transact(rt, Owner(3), ops)
}

// No transaction is left whose sync could make room, and no log block, unless a record is begun; or its own owner keeps
// the sync from being made.
fn a_transact_without_space_has_nothing_left_to_sync<D: SectorDevice, W: Wait>(
    rt: &W,
    handle: &mut Handle<'_, D>,
    ops: Ops,
) -> Result<Receipt, PoolError>
    ensures { IfErr result (λ e. e ≡ PoolError.NoSpace
        → ((dirty_total (state_seen handle.new).shown ≡ 0)
        × ((state_seen handle.new).shown.log.begun ≡ None
        → (state_seen handle.new).shown.log.kept ≡ [])) ⊎ ((i : ℕ) × (a : Admission)
        × (slice_get (state_seen handle.new).shown.transactions i ≡ Some a) × (a.owner ≡ 3))) }
{
    handle.transact(rt, Owner(3), ops)
}

fn nor_has_one_under_the_callers_locks<D: SectorDevice, W: Wait>(
    rt: &W,
    handle: &mut Handle<'_, D>,
    ops: Ops,
) -> Result<Receipt, PoolError>
    ensures { IfErr result (λ e. e ≡ PoolError.NoSpace
        → ((dirty_total (state_seen handle.new).shown ≡ 0)
        × ((state_seen handle.new).shown.log.begun ≡ None
        → (state_seen handle.new).shown.log.kept ≡ [])) ⊎ ((i : ℕ) × (a : Admission)
        × (slice_get (state_seen handle.new).shown.transactions i ≡ Some a) × (a.owner ≡ 3))) }
{
    handle.transact_locked(rt, Owner(3), ops)
}

fn a_transact_under_the_callers_locks_enters_its_operations<D: SectorDevice, W: Wait>(
    rt: &W,
    handle: &mut Handle<'_, D>,
    ops: Ops,
) -> Result<Receipt, PoolError>
    ensures entered { IfOk result (λ r. Sees (IsTransacted ops r) handle.old handle.new) }
    ensures number { kin_of handle.new ≡ kin_of handle.old }
{
    handle.transact_locked(rt, Owner(3), ops)
}

// It locks nothing and unlocks nothing.
fn a_transact_under_the_callers_locks_makes_two_steps_in_one_turn<D: SectorDevice, W: Wait>(
    rt: &W,
    handle: &mut Handle<'_, D>,
    owner: Owner,
    ops: Ops,
) -> Result<Receipt, PoolError>
    ensures { IfOk result (λ r. (tries : List (Turn SeenPool)) × (took : SeenPool)
        × (turns_of handle.new
        ≡ (turns_of handle.old ++ tries) ++ turn took (view_seen handle.new) ∷ [])
        × (tx : TxId) × (group : Group) × (begun : SeenPool)
        × IsPoolStep (IsTrue D.keeps_model) (step.Begin owner (plan_of_ops ops))
        (reply.Began tx group) took begun
        × IsPoolStep (IsTrue D.keeps_model) (step.Commit tx ops) (reply.Committed r)
        begun (view_seen handle.new)) }
{
    handle.transact_locked(rt, owner, ops)
}

// Also if it is refused.
fn a_transact_under_the_callers_locks_leaves_them_held<D: SectorDevice, W: Wait>(
    rt: &W,
    handle: &mut Handle<'_, D>,
    owner: Owner,
    ops: Ops,
) -> Result<Receipt, PoolError>
    ensures { (had : List (Turn SeenPool)) × (turns_of handle.new ≡ turns_of handle.old ++ had)
        × All (λ t. ∥ (viewed_state t.left).shown.locks
        ≡ (viewed_state t.took).shown.locks ∥₁) had }
{
    handle.transact_locked(rt, owner, ops)
}

fn a_durable_transaction_is_entered_and_durable<D: SectorDevice, W: Wait>(
    rt: &W,
    handle: &mut Handle<'_, D>,
    ops: Ops,
) -> Option<Receipt>
    ensures entered { IfSome result (λ r. Sees (IsTransacted ops r) handle.old handle.new) }
    ensures durable { IfSome result (λ r. Sees
        (λ before after. IsKnownDurable r.ordinal.0 r.group.0 after) handle.old handle.new) }
{
    match handle.transact_durably(rt, Owner(3), ops) {
        Ok(receipt) => Some(receipt),
        Err(_) => None,
    }
}

// So it takes one turn more than the transaction, if that flushes the log and nothing keeps it from being durable then.
fn a_durable_transaction_has_no_turn_after_a_first_one_that_makes_it_durable<
    D: SectorDevice,
    W: Wait,
>(rt: &W, handle: &mut Handle<'_, D>, owner: Owner, ops: Ops) -> Option<Receipt>
    ensures { IfSome result (λ r. (done : Handle _ _)
        × TransactsOrLacks owner ops (Ok r) handle.old done
        × (took : SeenPool) × (left : SeenPool) × (rest : List (Turn SeenPool))
        × (turns_of handle.new ≡ (turns_of done ++ turn took left ∷ []) ++ rest)
        × (is_durable (viewed_state left).shown r.ordinal.0 r.group.0 ≡ true → rest ≡ [])) }
{
    match handle.transact_durably(rt, owner, ops) {
        Ok(receipt) => Some(receipt),
        Err(_) => None,
    }
}
