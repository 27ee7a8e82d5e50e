//! What callers rest on of a load.

ghost use Rattle.std.specs.Prelude.{◌≡◌, Err, IfOk};
ghost use Rattle.loads.specs.Digests.{RepliesDigest};
ghost use Rattle.pool_threads.specs.Handles.{shared_of};

use crate::gate::Gate;
use crate::order::Loaded;
use crate::workers::load;
use base::PoolError;
use command_arguments::Order;
use device_model::SectorDevice;
use pool_threads::Pool;
use std::alloc::Global;
use std::sync::Wait;
use std::thread::Threads;

// With 200 writes of each stream 3,217 transactions are committed.
fn two_hundred_writes_commit_3217<D: SectorDevice + Send, G: Gate + Sync, R: Threads + Wait + Sync>(
    rt: &R,
    alloc: Global,
    pool: &Pool<D>,
    gate: &G,
) -> Result<Loaded, PoolError>
    ensures { IfOk result (λ loaded. loaded.committed ≡ 3217) }
{
    let order = Order {
        workers: 5,
        writes: 200,
        seed: 5,
    };
    load(rt, alloc, pool, order, gate)
}

// The digest is what the pool replied to a step of one of its handles.
fn a_digest_is_a_reply_of_the_pool<
    D: SectorDevice + Send,
    G: Gate + Sync,
    R: Threads + Wait + Sync,
>(rt: &R, alloc: Global, pool: &Pool<D>, order: Order, gate: &G) -> Result<Loaded, PoolError>
    ensures { IfOk result (λ loaded. RepliesDigest (shared_of pool.entry.now) loaded.digest) }
{
    load(rt, alloc, pool, order, gate)
}

fn a_seventeenth_worker_is_refused<
    D: SectorDevice + Send,
    G: Gate + Sync,
    R: Threads + Wait + Sync,
>(rt: &R, alloc: Global, pool: &Pool<D>, gate: &G) -> Result<Loaded, PoolError>
    ensures { result ≡ Err PoolError.BadRange }
{
    let order = Order {
        workers: 17,
        writes: 0,
        seed: 5,
    };
    load(rt, alloc, pool, order, gate)
}

fn no_worker_is_refused<D: SectorDevice + Send, G: Gate + Sync, R: Threads + Wait + Sync>(
    rt: &R,
    alloc: Global,
    pool: &Pool<D>,
    gate: &G,
) -> Result<Loaded, PoolError>
    ensures { result ≡ Err PoolError.BadRange }
{
    let order = Order {
        workers: 0,
        writes: 0,
        seed: 5,
    };
    load(rt, alloc, pool, order, gate)
}
