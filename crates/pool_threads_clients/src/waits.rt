//! What callers rest on of calls that make the steps that are due, told by turns and views.

ghost use Rattle.std.specs.Prelude.{◌≡◌, ◌≤◌, IfOk, IfSome, false, true, ℕ, ◌≢◌, ◌⊎◌, ◌++◌, ◌∷◌, [], All, IfErr, IsTrue, List, None, Ok, Option, Some, slice_get};
ghost use Rattle.base.specs.steps.Seen.{IsKnownDurable};
ghost use Rattle.pool_threads.specs.Answers.{Sees, state_seen, Takes, TakesAtLast, TakesOne};
ghost use Rattle.pool_threads.specs.Handles.{TakesTurns, moment_of, turns_of, view_seen};
ghost use Rattle.base.specs.declared.error.PoolError.{PoolError};
ghost use Rattle.base.specs.declared.error.PoolError.TheVariants as error;
ghost use Rattle.base.specs.declared.names.Group.{Group as ShownGroup};
ghost use Rattle.base.specs.declared.step.Reply as declared_reply;
ghost use Rattle.base.specs.declared.step.Reply.TheVariants as reply;
ghost use Rattle.base.specs.formats.Limits.{last_number};
ghost use Rattle.base.specs.history.History.{Entry};
ghost use Rattle.base.specs.steps.Shown.{is_durable};
ghost use Rattle.pool_tables.specs.declared.duty.Duty.{Duty};
ghost use Rattle.pool_tables.specs.declared.duty.Duty.TheVariants as duty;
ghost use Rattle.pool_threads.specs.Serves.{AreDue, IsServedTurn};
ghost use Rattle.pool_threads.specs.Views.{GrowsTo, SeenPool, viewed_state};
ghost use Rattle.pool_threads.specs.declared.handle.Handle.{Handle};
ghost use Rattle.word_lock.specs.declared.rule.Turn.{Turn};
ghost use Rattle.word_lock.specs.Turns.{turn};

use base::{Group, Ordinal, PoolError, Receipt};
use device_model::SectorDevice;
use pool_threads::Handle;
use std::sync::Wait;

// A wait that returns Ok has found the transaction durable. So the next one is not refused, also on a pool that is
// suspended by then.
fn a_wait_ends_with_a_durable_commit<D: SectorDevice, W: Wait>(
    rt: &W,
    handle: &mut Handle<'_, D>,
) -> Option<bool>
    ensures durable { IfSome result
        (λ _. Sees (λ before after. IsKnownDurable 3 9 after) handle.old handle.new) }
    ensures again { IfSome result (λ is_durable. is_durable ≡ true) }
{
    let receipt = Receipt {
        ordinal: Ordinal(3),
        group: Group(9),
    };
    match handle.fsync(rt, receipt) {
        Ok(()) => match handle.fsync(rt, receipt) {
            Ok(()) => Some(true),
            Err(_) => Some(false),
        },
        Err(_) => None,
    }
}

// It syncs groups instead.
fn a_wait_is_never_refused_for_log_space<D: SectorDevice, W: Wait>(
    rt: &W,
    handle: &mut Handle<'_, D>,
    receipt: Receipt,
) -> bool
    ensures { result ≡ false }
{
    let answer = handle.fsync(rt, receipt);
    matches!(answer, Err(PoolError::NoLogSpace))
}

// All that it did are turns of its own, in which steps were made that were due, or none.
fn a_wait_takes_turns<D: SectorDevice, W: Wait>(
    rt: &W,
    handle: &mut Handle<'_, D>,
    receipt: Receipt,
) -> Result<(), PoolError>
    ensures { TakesTurns handle.old handle.new }
{
    handle.fsync(rt, receipt)
}

fn a_sync_of_the_pool_returns_a_synced_group<D: SectorDevice, W: Wait>(
    rt: &W,
    handle: &mut Handle<'_, D>,
) -> Result<Group, PoolError>
    ensures { IfOk result (λ g. g.0 ≤ (state_seen handle.new).shown.line.synced) }
{
    handle.sync_pool(rt)
}

// A look, and if it finds the transaction durable, nothing more: no log block is written.
fn a_wait_looks_first<D: SectorDevice, W: Wait>(
    rt: &W,
    handle: &mut Handle<'_, D>,
    receipt: Receipt,
) -> Result<(), PoolError>
    ensures { (looked : SeenPool) × (rest : List (Turn SeenPool))
        × GrowsTo (IsTrue D.keeps_model) (view_seen handle.old) looked
        × (turns_of handle.new ≡ (turns_of handle.old ++ turn looked looked ∷ []) ++ rest)
        × (is_durable (viewed_state looked).shown receipt.ordinal.0 receipt.group.0 ≡ true
        → (rest ≡ []) × (result ≡ Ok tt)) }
{
    handle.fsync(rt, receipt)
}

// In each turn nothing changes, or steps are made that were due, and no reply but the last is a refusal.
fn a_turn_of_a_wait_ends_with_a_refusal<D: SectorDevice, W: Wait>(
    rt: &W,
    handle: &mut Handle<'_, D>,
    receipt: Receipt,
) -> Result<(), PoolError>
    ensures { Takes (λ t. (t.left ≡ t.took)
        ⊎ ((d : Duty) × (rs : List declared_reply.Reply) × (last : declared_reply.Reply)
        × All (λ r. (e : PoolError) → r ≢ reply.Refused e) rs
        × AreDue (IsTrue D.keeps_model) d (rs ++ last ∷ []) t.took t.left))
        handle.old handle.new }
{
    handle.fsync(rt, receipt)
}

fn a_turn_of_a_sync_of_the_pool_ends_with_a_refusal<D: SectorDevice, W: Wait>(
    rt: &W,
    handle: &mut Handle<'_, D>,
) -> Result<Group, PoolError>
    ensures { Takes (λ t. (t.left ≡ t.took)
        ⊎ ((d : Duty) × (rs : List declared_reply.Reply) × (last : declared_reply.Reply)
        × All (λ r. (e : PoolError) → r ≢ reply.Refused e) rs
        × AreDue (IsTrue D.keeps_model) d (rs ++ last ∷ []) t.took t.left))
        handle.old handle.new }
{
    handle.sync_pool(rt)
}

// So a turn in which a write was refused is the last one, and the loop returns `Write`.
fn a_quiescer_that_ends_early_was_refused_in_its_last_turn<D: SectorDevice, W: Wait>(
    rt: &W,
    handle: &mut Handle<'_, D>,
) -> Result<(), PoolError>
    ensures { IfErr result (λ e. TakesAtLast (λ t. (r : Option declared_reply.Reply)
        × (r ≢ Some (reply.Refused error.Write))
        × IsServedTurn (IsTrue D.keeps_model) duty.Quiesce r t)
        (IsServedTurn (IsTrue D.keeps_model) duty.Quiesce (Some (reply.Refused e)))
        handle.old handle.new) }
{
    handle.quiescer(rt)
}

fn a_syncer_that_ends_early_was_refused_in_its_last_turn<D: SectorDevice, W: Wait>(
    rt: &W,
    handle: &mut Handle<'_, D>,
) -> Result<(), PoolError>
    ensures { IfErr result (λ e. TakesAtLast (λ t. (r : Option declared_reply.Reply)
        × (r ≢ Some (reply.Refused error.Write))
        × IsServedTurn (IsTrue D.keeps_model) (duty.Sync (moment_of handle.old)) r t)
        (IsServedTurn (IsTrue D.keeps_model) (duty.Sync (moment_of handle.old))
        (Some (reply.Refused e)))
        handle.old handle.new) }
{
    handle.syncer(rt)
}

// Of the state that its first turn took: so it is of a commit of any thread that came before the call.
fn a_wait_for_all_leaves_each_earlier_commit_durable<D: SectorDevice, W: Wait>(
    rt: &W,
    handle: &mut Handle<'_, D>,
) -> Result<(), PoolError>
    ensures first { IfOk result (λ _. (took : SeenPool) × (left : SeenPool)
        × (rest : List (Turn SeenPool))
        × (turns_of handle.new ≡ (turns_of handle.old ++ turn took left ∷ []) ++ rest)
        × ∥ ((o : ℕ) (e : Entry) → slice_get took.past.entries o ≡ Some e
        → IsKnownDurable o e.group (state_seen handle.new)) ∥₁) }
    ensures seen { IfOk result (λ _. Sees (λ before after. (e : Entry)
        → slice_get before.past.entries 3 ≡ Some e → IsKnownDurable 3 e.group after)
        handle.old handle.new) }
{
    handle.fsync_all(rt)
}

// It writes the log in its first turn. If nothing is due for it, it does no more.
fn a_wait_for_all_that_finds_nothing_to_write_ends<D: SectorDevice, W: Wait>(
    rt: &W,
    handle: &mut Handle<'_, D>,
) -> Result<(), PoolError>
    ensures { (r : Option declared_reply.Reply) × (wrote : Handle _ _)
        × TakesOne (IsServedTurn (IsTrue D.keeps_model) duty.CommitLog r) handle.old wrote
        × (r ≡ None → (result ≡ Ok tt) × (handle.new ≡ wrote)) }
{
    handle.fsync_all(rt)
}

fn a_wait_for_all_is_never_refused_for_log_space<D: SectorDevice, W: Wait>(
    rt: &W,
    handle: &mut Handle<'_, D>,
) -> bool
    ensures { result ≡ false }
{
    let answer = handle.fsync_all(rt);
    matches!(answer, Err(PoolError::NoLogSpace))
}

// A step that is refused so is made again later.
fn a_quiescer_does_not_end_because_a_group_is_not_ready<D: SectorDevice, W: Wait>(
    rt: &W,
    handle: &mut Handle<'_, D>,
) -> bool
    ensures { result ≡ false }
{
    let ended = handle.quiescer(rt);
    matches!(ended, Err(PoolError::NotReady))
}

fn nor_does_a_syncer<D: SectorDevice, W: Wait>(rt: &W, handle: &mut Handle<'_, D>) -> bool
    ensures { result ≡ false }
{
    let ended = handle.syncer(rt);
    matches!(ended, Err(PoolError::NotReady))
}

// It looks which group is open, and then makes steps that are due for syncs up to that one. So it writes no log block.
fn a_sync_of_the_pool_makes_steps_of_syncs_alone<D: SectorDevice, W: Wait>(
    rt: &W,
    handle: &mut Handle<'_, D>,
) -> Result<Group, PoolError>
    ensures { (group : ShownGroup) × IfOk result (λ g. g ≡ group)
        × Takes (λ t. (t.left ≡ t.took) ⊎ ((r : Option declared_reply.Reply)
        × IsServedTurn (IsTrue D.keeps_model) (duty.SyncUpTo group (moment_of handle.old)) r t))
        handle.old handle.new }
{
    handle.sync_pool(rt)
}

fn a_sync_of_the_pool_leaves_its_group_synced<D: SectorDevice, W: Wait>(
    rt: &W,
    handle: &mut Handle<'_, D>,
) -> Result<Group, PoolError>
    ensures { IfOk result (λ g. g.0 ≤ (state_seen handle.new).shown.line.synced) }
{
    handle.sync_pool(rt)
}

// So a group that can't be synced yet is waited for.
fn a_sync_of_the_pool_is_not_ready_only_at_the_last_group<D: SectorDevice, W: Wait>(
    rt: &W,
    handle: &mut Handle<'_, D>,
) -> Result<Group, PoolError>
    ensures { IfErr result (λ e. e ≡ error.NotReady
        → last_number ≤ (state_seen handle.new).shown.line.open_group) }
{
    handle.sync_pool(rt)
}
