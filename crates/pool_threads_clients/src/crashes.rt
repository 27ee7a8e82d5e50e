//! What callers rest on of a crash: what it leaves is explained by the history of commits.

ghost use Rattle.std.specs.Prelude.{ℕ, ◌≡◌, [], ◌∷◌, ◌+◌, ◌++◌, IfSome, IsTrue};
ghost use Rattle.base.specs.disk.Disk.{moments};
ghost use Rattle.base.specs.steps.Explains as every;
ghost use Rattle.pool_threads.specs.Answers.{state_seen};
ghost use Rattle.pool_threads.specs.Handles.{turns_of, view_seen};
ghost use Rattle.pool_threads.specs.Views.{Explains, IsFollowed, SeenPool, WereSafeBetween, since, viewed_state};
ghost use Rattle.word_lock.specs.Turns.{turn};

use base::{Ops, Owner, PoolError, Receipt, TxId};
use device_model::SectorDevice;
use import_replay::{Limits, create};
use pool_core::PoolState;
use pool_threads::{Handle, Pool};
use std::alloc::Global;
use std::sync::Wait;

// A dirty limit of 1 MiB, and 256 blocks.
const LIMITS: Limits = Limits {
    dirty_max: 1_048_576,
    cache_blocks: 256,
};

// Of every moment of the commit's step, on the disk of the device under the lock.
fn a_crash_within_a_commit_leaves_a_cut<D: SectorDevice, W: Wait>(
    rt: &W,
    handle: &mut Handle<'_, D>,
    tx: TxId,
    ops: Ops,
) -> Result<Receipt, PoolError>
    ensures { (took : SeenPool)
        × (turns_of handle.new ≡ turns_of handle.old ++ turn took (view_seen handle.new) ∷ [])
        × (IsTrue D.keeps_model → (created : ℕ) → IsFollowed took.rule created
        → ∥ WereSafeBetween created took (view_seen handle.new) ∥₁) }
{
    handle.commit(rt, tx, ops)
}

// It explains what the handle has seen then, on the disk under the lock. So it is of a pool that no thread has.
fn after_a_commit_one_history_explains_the_pool<D: SectorDevice, W: Wait>(
    rt: &W,
    handle: &mut Handle<'_, D>,
    tx: TxId,
    ops: Ops,
) -> Result<Receipt, PoolError>
    ensures { IsTrue D.keeps_model → (created : ℕ)
        → IsFollowed (view_seen handle.new).rule created
        → ∥ every.Explains (Unit {0}) (view_seen handle.new).disk
        (state_seen handle.new).shown (since created (view_seen handle.new).past) ∥₁ }
{
    handle.commit(rt, tx, ops)
}

// From the create on, as the pool ends after a transaction: no run is asked for, and nothing of the device before the
// create.
fn one_history_explains_a_pool_from_its_create_to_its_end<D: SectorDevice, W: Wait>(
    rt: &W,
    alloc: Global,
    device: D,
    ops: Ops,
) -> Option<PoolState<D>>
where
    D: Drop,
    ensures { IsTrue D.keeps_model → IfSome result (λ s. (v : SeenPool) × Explains s v
        × ∥ every.Explains (Unit {0}) v.disk (viewed_state v).shown
        (since (moments (D.disk device)) v.past) ∥₁) }
{
    let Ok(made) = create(device, b"tank", 77, 0) else {
        return None;
    };
    let Ok(pool) = Pool::open(alloc, made, LIMITS, 0) else {
        return None;
    };
    let _ = pool.handle().transact(rt, Owner(1), ops);
    pool.close()
}
