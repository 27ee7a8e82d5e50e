//! What callers rest on of a call's turns: how many it has, and what lies between them.

ghost use Rattle.std.specs.Prelude.{◌≡◌, [], ◌∷◌, ◌+◌, ◌++◌, IfNone, IfSome, length};
ghost use Rattle.pool_threads.specs.Handles.{TakesOneTurn, TakesTurns, kin_of, taken_by, turns_of, view_seen};
ghost use Rattle.pool_threads.specs.Views.{SeenPool};
ghost use Rattle.word_lock.specs.Turns.{turn};

use base::{
    Bytes, Group, LockId, Mode, ObjectId, Ops, Owner, Plan, PoolError, Range, Receipt, Reply, Step,
    TxId,
};
use device_model::{Fault, MemDevice, SectorDevice};
use pool_threads::Handle;
use std::sync::Wait;

fn a_try_that_answers_none_had_no_turn<D: SectorDevice>(handle: &mut Handle<'_, D>) -> Option<Reply>
    ensures none { IfNone result (turns_of handle.new ≡ turns_of handle.old) }
    ensures made { IfSome result (λ r. (took : SeenPool)
        × (turns_of handle.new ≡ turns_of handle.old ++ turn took (view_seen handle.new) ∷ [])) }
{
    match handle.try_step(Step::Name) {
        Some(reply) => Some(reply),
        None => None,
    }
}

// It is one turn, and what is seen stays.
fn a_planned_fault_shows_in_no_view<W: Wait>(rt: &W, handle: &mut Handle<'_, MemDevice>)
    ensures { turns_of handle.new
        ≡ turns_of handle.old ++ turn (view_seen handle.new) (view_seen handle.new) ∷ [] }
{
    handle.fail(rt, Fault::Flush, 1);
}

// The second call takes what the first one left.
fn nothing_lies_between_two_calls_of_the_only_handle<D: SectorDevice, W: Wait>(
    rt: &W,
    handle: &mut Handle<'_, D>,
    tx: TxId,
    ops: Ops,
) -> Result<u64, PoolError>
    ensures { kin_of handle.old ≡ 0 → (middle : SeenPool) × (turns_of handle.new
        ≡ (turns_of handle.old ++ turn (view_seen handle.old) middle ∷ [])
        ++ turn middle (view_seen handle.new) ∷ []) }
{
    let _ = handle.commit(rt, tx, ops);
    handle.length(rt, ObjectId(5))
}

// Also if it is refused: no call refuses without a step.
fn a_commit_takes_one_turn<D: SectorDevice, W: Wait>(
    rt: &W,
    handle: &mut Handle<'_, D>,
    tx: TxId,
    ops: Ops,
) -> Result<Receipt, PoolError>
    ensures { TakesOneTurn handle.old handle.new }
{
    handle.commit(rt, tx, ops)
}

// Nor does it meet another handle: none was split off it or joined to it, so its own turns are all that it did.
fn a_commit_meets_no_other_handle<D: SectorDevice, W: Wait>(
    rt: &W,
    handle: &mut Handle<'_, D>,
    tx: TxId,
    ops: Ops,
) -> Result<Receipt, PoolError>
    ensures split { kin_of handle.new ≡ kin_of handle.old }
    ensures joined { taken_by handle.new ≡ taken_by handle.old }
    ensures turns { length (turns_of handle.new) ≡ length (turns_of handle.old) + 1 }
{
    handle.commit(rt, tx, ops)
}

fn an_abort_takes_one_turn<D: SectorDevice, W: Wait>(
    rt: &W,
    handle: &mut Handle<'_, D>,
    tx: TxId,
) -> Result<(), PoolError>
    ensures { TakesOneTurn handle.old handle.new }
{
    handle.abort(rt, tx)
}

fn an_unlock_takes_one_turn<D: SectorDevice, W: Wait>(
    rt: &W,
    handle: &mut Handle<'_, D>,
    owner: Owner,
    id: LockId,
) -> Result<(), PoolError>
    ensures { TakesOneTurn handle.old handle.new }
{
    handle.unlock(rt, owner, id)
}

fn a_read_takes_one_turn<D: SectorDevice, W: Wait>(
    rt: &W,
    handle: &mut Handle<'_, D>,
    owner: Owner,
    range: Range,
) -> Result<Bytes, PoolError>
    ensures { TakesOneTurn handle.old handle.new }
{
    handle.read(rt, owner, ObjectId(5), range)
}

fn a_lock_takes_turns<D: SectorDevice, W: Wait>(
    rt: &W,
    handle: &mut Handle<'_, D>,
    owner: Owner,
    range: Range,
) -> Result<LockId, PoolError>
    ensures { TakesTurns handle.old handle.new }
{
    handle.lock(rt, owner, ObjectId(5), range, Mode::Writer)
}

fn an_append_lock_takes_turns<D: SectorDevice, W: Wait>(
    rt: &W,
    handle: &mut Handle<'_, D>,
    owner: Owner,
) -> Result<(LockId, Range), PoolError>
    ensures { TakesTurns handle.old handle.new }
{
    handle.lock_append(rt, owner, ObjectId(5))
}

fn a_step_takes_one_turn<D: SectorDevice, W: Wait>(
    rt: &W,
    handle: &mut Handle<'_, D>,
    step: Step,
) -> Reply
    ensures { TakesOneTurn handle.old handle.new }
{
    handle.step(rt, step)
}

fn a_begin_takes_turns<D: SectorDevice, W: Wait>(
    rt: &W,
    handle: &mut Handle<'_, D>,
    owner: Owner,
    plan: Plan,
) -> Result<(TxId, Group), PoolError>
    ensures { TakesTurns handle.old handle.new }
{
    handle.begin(rt, owner, plan)
}
