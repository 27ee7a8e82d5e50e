//! The threads of a load: one for each worker, beside the loops of the pool.

ghost use Rattle.std.specs.Prelude.{◌≡◌, Err, IfOk, false};
ghost use Rattle.loads.specs.Digests.{RepliesDigest};
ghost use Rattle.command_arguments.specs.Orders.{is_order};
ghost use Rattle.loads.specs.Orders.{committed_by};
ghost use Rattle.pool_threads.specs.Handles.{shared_of};

use crate::gate::Gate;
use crate::order::{Loaded, count_committed};
use crate::writer::Writer;
use base::{Owner, PoolError, Reply, Step};
use command_arguments::{Order, STREAMS};
use device_model::SectorDevice;
use pool_threads::Pool;
use running_pools::{Halt, run_beside_loops};
use std::alloc::Global;
use std::sync::Wait;
use std::thread::{Threads, map_vec};

/// Makes the writes of a load on a pool, and syncs it. All its threads have ended when it returns.
///
/// It stops the pool's loops at its end, so it serves once for a pool. No other thread may lock the objects 0 to 16
/// for long, or have a transaction open for long: it waits for them.
///
/// # Errors
/// `BadRange` if the order is outside its limits; then no step was made. Else the first refusal of these that is not
/// `Suspended`, or else `Suspended`: that of the loop that syncs (`NoMemory`, `Read`, `Damaged`, `Write`, `Flush`),
/// that of the loop that quiesces, that of the first worker by number. A worker hands on what a call of its handle
/// refused: `Throttled` only if the dirty limit is below the charge of one transaction, `NoSpace` if a write found none
/// after 8 syncs. `NoMemory` is returned too if no threads can be made for the loops.
pub fn load<D: SectorDevice + Send, G: Gate + Sync, R: Threads + Wait + Sync>(
    rt: &R,
    alloc: Global,
    pool: &Pool<D>,
    order: Order,
    gate: &G,
) -> Result<Loaded, PoolError>
    ensures committed { IfOk result (λ loaded. loaded.committed ≡ committed_by order) }
    ensures digest { IfOk result
        (λ loaded. RepliesDigest (shared_of pool.entry.now) loaded.digest) }
    ensures limits { is_order order ≡ false → result ≡ Err PoolError.BadRange }
{
    if !order.is_allowed() {
        return Err(PoolError::BadRange);
    }
    let halt = Halt::new();
    let halt = &halt;
    run_beside_loops(rt, pool, halt, || work(rt, alloc, pool, order, gate, halt))?;
    Ok(Loaded {
        committed: count_committed(order),
        digest: digest(rt, pool)?,
    })
}

// The first refusal that is not `Suspended`, which only follows from another one; or else `Suspended`.
fn cause(results: &[Result<(), PoolError>]) -> Result<(), PoolError> {
    let mut refusal = Ok(());
    for result in results {
        match result {
            Ok(()) => {}
            Err(PoolError::Suspended) => refusal = *result,
            Err(_) => return *result,
        }
    }
    refusal
}

// The digest of the contents, by a step of a handle.
fn digest<D: SectorDevice, W: Wait>(rt: &W, pool: &Pool<D>) -> Result<[u8; 32], PoolError>
    ensures { IfOk result (RepliesDigest (shared_of pool.entry.now)) }
{
    let mut handle = pool.handle();
    match handle.step(rt, Step::Digest) {
        Reply::Digest(digest) => Ok(digest),
        Reply::Refused(error) => Err(error),
        // The step has no other reply.
        _ => Err(PoolError::Suspended),
    }
}

// The objects, then the streams, and at last a sync.
fn work<D: SectorDevice + Send, G: Gate + Sync, R: Threads + Wait + Sync>(
    rt: &R,
    alloc: Global,
    pool: &Pool<D>,
    order: Order,
    gate: &G,
    halt: &Halt,
) -> Result<(), PoolError> {
    Writer::new(rt, alloc, pool, Owner(STREAMS)).make_objects()?;
    let workers = (0..order.workers).collect(alloc)?;
    let ends = map_vec(
        rt,
        workers,
        &|worker| { halt.note(run_worker(rt, alloc, pool, order, gate, halt, worker)) },
    )?;
    cause(ends.as_slice())?;
    pool.handle().sync_pool(rt)?;
    Ok(())
}

// The streams of a worker, one after another.
fn run_worker<D: SectorDevice, G: Gate, W: Wait>(
    rt: &W,
    alloc: Global,
    pool: &Pool<D>,
    order: Order,
    gate: &G,
    halt: &Halt,
    worker: u32,
) -> Result<(), PoolError> {
    for stream in 0..STREAMS {
        if is_of_worker(stream, worker, order.workers) {
            gate.at(stream);
            Writer::new(rt, alloc, pool, Owner(stream)).run_stream(order, gate, halt)?;
        }
    }
    Ok(())
}

// Stream j is done by worker j mod W.
fn is_of_worker(stream: u32, worker: u32, workers: u32) -> bool {
    workers != 0 && stream % workers == worker
}
