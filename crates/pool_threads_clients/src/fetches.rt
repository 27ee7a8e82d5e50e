//! What callers rest on of `fetch`.

ghost use Rattle.std.specs.Prelude.{◌≡◌, ◌⊎◌, ◌++◌, [], ◌∷◌, IfErr, IfOk, IsTrue, List, Result};
ghost use Rattle.base.specs.declared.error.PoolError.{PoolError};
ghost use Rattle.base.specs.declared.names.LockId.{LockId};
ghost use Rattle.base.specs.declared.range.Mode.TheVariants.{Reader};
ghost use Rattle.base.specs.declared.step.Reply.TheVariants as reply;
ghost use Rattle.base.specs.declared.step.Step.TheVariants as step;
ghost use Rattle.base.specs.steps.Refusals.{object_range};
ghost use Rattle.base.specs.steps.Runs.{reply_of};
ghost use Rattle.base.specs.steps.Seen.{IsReadBetween};
ghost use Rattle.pool_threads.specs.Answers.{Sees};
ghost use Rattle.pool_threads.specs.Handles.{kin_of, turns_of, view_seen};
ghost use Rattle.pool_threads.specs.Views.{IsPoolStep, SeenPool};
ghost use Rattle.word_lock.specs.declared.rule.Turn.{Turn};
ghost use Rattle.word_lock.specs.Turns.{turn};

use base::{Bytes, ObjectId, Owner, PoolError, Range};
use device_model::SectorDevice;
use pool_threads::Handle;
use std::sync::Wait;

// These are all the steps of its last turn, and no other thread has the pool between them.
fn a_fetch_locks_reads_and_unlocks_in_one_turn<D: SectorDevice, W: Wait>(
    rt: &W,
    handle: &mut Handle<'_, D>,
    owner: Owner,
    object: ObjectId,
    range: Range,
) -> Result<Bytes, PoolError>
    ensures { IfOk result (λ b. (tries : List (Turn SeenPool)) × (took : SeenPool)
        × (turns_of handle.new
        ≡ (turns_of handle.old ++ tries) ++ turn took (view_seen handle.new) ∷ [])
        × (id : LockId) × (answer : Result (Unit {0}) PoolError)
        × (locked : SeenPool) × (read : SeenPool)
        × IsPoolStep (IsTrue D.keeps_model) (step.Lock owner object range Reader)
        (reply.Locked id) took locked
        × IsPoolStep (IsTrue D.keeps_model) (step.Read owner object range) (reply.Bytes b)
        locked read
        × IsPoolStep (IsTrue D.keeps_model) (step.Unlock owner id)
        (reply_of (λ _. reply.Done) answer) read (view_seen handle.new)) }
{
    handle.fetch(rt, owner, object, range)
}

// Under the name of the lock that it got, unless it was refused that.
fn a_refused_fetch_unlocks_what_it_locked<D: SectorDevice, W: Wait>(
    rt: &W,
    handle: &mut Handle<'_, D>,
    owner: Owner,
    object: ObjectId,
    range: Range,
) -> Result<Bytes, PoolError>
    ensures { IfErr result (λ e. (tries : List (Turn SeenPool)) × (took : SeenPool)
        × (turns_of handle.new
        ≡ (turns_of handle.old ++ tries) ++ turn took (view_seen handle.new) ∷ [])
        × (IsPoolStep (IsTrue D.keeps_model) (step.Lock owner object range Reader)
        (reply.Refused e) took (view_seen handle.new)
        ⊎ ((id : LockId) × (answer : Result (Unit {0}) PoolError)
        × (locked : SeenPool) × (read : SeenPool)
        × IsPoolStep (IsTrue D.keeps_model) (step.Lock owner object range Reader)
        (reply.Locked id) took locked
        × IsPoolStep (IsTrue D.keeps_model) (step.Read owner object range) (reply.Refused e)
        locked read
        × IsPoolStep (IsTrue D.keeps_model) (step.Unlock owner id)
        (reply_of (λ _. reply.Done) answer) read (view_seen handle.new)))) }
{
    handle.fetch(rt, owner, object, range)
}

// Nothing lies between two tries of its own, so it would be refused again: it doesn't try twice.
fn a_fetch_of_the_only_handle_takes_one_turn<D: SectorDevice, W: Wait>(
    rt: &W,
    handle: &mut Handle<'_, D>,
    owner: Owner,
    object: ObjectId,
    range: Range,
) -> Result<Bytes, PoolError>
    ensures { kin_of handle.old ≡ 0 → turns_of handle.new
        ≡ turns_of handle.old ++ turn (view_seen handle.old) (view_seen handle.new) ∷ [] }
{
    handle.fetch(rt, owner, object, range)
}

fn a_fetch_has_the_bytes_of_its_range<D: SectorDevice, W: Wait>(
    rt: &W,
    handle: &mut Handle<'_, D>,
    owner: Owner,
) -> Result<Bytes, PoolError>
    ensures bytes { IsTrue D.keeps_model → IfOk result
        (λ b. Sees (IsReadBetween (object_range 5 2 9) b) handle.old handle.new) }
    ensures number { kin_of handle.new ≡ kin_of handle.old }
{
    handle.fetch(rt, owner, ObjectId(5), Range { low: 2, high: 9 })
}

// Also if it is refused.
fn a_fetch_of_the_only_handle_leaves_no_lock<D: SectorDevice, W: Wait>(
    rt: &W,
    handle: &mut Handle<'_, D>,
    range: Range,
) -> Result<Bytes, PoolError>
    ensures locks { kin_of handle.old ≡ 0
        → Sees (λ before after. after.shown.locks ≡ before.shown.locks) handle.old handle.new }
    ensures contents { kin_of handle.old ≡ 0
        → Sees (λ before after. after.shown.contents ≡ before.shown.contents)
        handle.old handle.new }
{
    handle.fetch(rt, Owner(3), ObjectId(5), range)
}
