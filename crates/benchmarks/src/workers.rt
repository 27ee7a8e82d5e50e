//! The threads of a bench: one for each worker, beside the loops of the pool.

ghost use Rattle.std.specs.Prelude.{◌≡◌, Err, IfOk, false};
ghost use Rattle.benchmarks.specs.Measured.{HasTimes};
ghost use Rattle.command_arguments.specs.Benches.{is_bench_order};

use crate::call_times::CallTimes;
use crate::counted_device::FlushCounter;
use crate::measured::{BenchError, Measured};
use crate::writer::{Writer, new_times};
use base::{Owner, PoolError};
use command_arguments::{BenchOrder, MAX_BENCH_WORKERS};
use device_model::SectorDevice;
use pool_threads::Pool;
use rates::in_microseconds;
use running_pools::{Halt, run_beside_loops};
use std::alloc::Global;
use std::io;
use std::rt::Clock;
use std::sync::Wait;
use std::thread::{Threads, map_vec};
use std::time::Instant;

/// The parts of a device of which all objects of a bench may have one.
const PARTS: u64 = 16;

/// The most bytes of an object of a bench.
const MAX_OBJECT: u64 = 1 << 24;

/// Makes an object for each worker of a new pool, syncs it, and then times the commits of the workers. All its threads
/// have ended when it returns. The counter counts the flushes of the pool's device.
///
/// The pool's device has so many bytes. It stops the pool's loops at its end, so it serves once for a pool. What the
/// last commits wrote is not synced then. A worker for which no thread can be made commits nothing.
///
/// # Errors
/// `BadRange` if the order is outside its limits; then no step was made. Else the first refusal of these that is not
/// `Suspended`, or else `Suspended`: that of the loop that syncs, that of the loop that closes groups, that of the
/// first worker by number. A worker hands on what a call of its handle refused: `Throttled` only if the dirty limit is
/// below the charge of one write, `NoSpace` if a write found none after 8 syncs. `NoMemory` is returned too if no
/// threads can be made for the loops. `NoClock` if the clock can't be read.
pub fn measure<D: SectorDevice + Send, R: Threads + Wait + Clock + Sync>(
    rt: &R,
    alloc: Global,
    pool: &Pool<D>,
    size: u64,
    order: BenchOrder,
    counter: &FlushCounter,
) -> Result<Measured, BenchError>
    ensures measured { IfOk result (HasTimes order.bytes) }
    ensures limits { is_bench_order order ≡ false
        → result ≡ Err (BenchError.Refused PoolError.BadRange) }
{
    if !order.is_allowed() {
        return Err(BenchError::Refused(PoolError::BadRange));
    }
    let halt = Halt::new();
    let halt = &halt;
    let worked = run_beside_loops(rt, pool, halt, || {
        work_in_parts(rt, alloc, pool, size, order, counter, halt)
    });
    match worked {
        Ok(Ok(measured)) => Ok(measured),
        Ok(Err(error)) => Err(BenchError::NoClock(error)),
        Err(error) => Err(BenchError::Refused(error)),
    }
}

// What was measured, or why the clock can't be read; or a refusal of the pool, apart from both.
fn work_in_parts<D: SectorDevice + Send, R: Threads + Wait + Clock + Sync>(
    rt: &R,
    alloc: Global,
    pool: &Pool<D>,
    size: u64,
    order: BenchOrder,
    counter: &FlushCounter,
    halt: &Halt,
) -> Result<Result<Measured, io::Error>, PoolError>
    ensures { IfOk result (λ parts. IfOk parts (HasTimes order.bytes)) }
{
    match work(rt, alloc, pool, size, order, counter, halt) {
        Ok(measured) => Ok(Ok(measured)),
        Err(BenchError::NoClock(error)) => Ok(Err(error)),
        Err(BenchError::Refused(error)) => Err(error),
    }
}

// The objects, a sync, and then the workers.
fn work<D: SectorDevice + Send, R: Threads + Wait + Clock + Sync>(
    rt: &R,
    alloc: Global,
    pool: &Pool<D>,
    size: u64,
    order: BenchOrder,
    counter: &FlushCounter,
    halt: &Halt,
) -> Result<Measured, BenchError>
    ensures { IfOk result (HasTimes order.bytes) }
{
    let places = places_of(size, order);
    let workers = order.workers.min(MAX_BENCH_WORKERS) as u32;
    for worker in 0..workers {
        Writer::new(rt, alloc, pool, Owner(worker), order, places).make_object()?;
    }
    pool.handle().sync_pool(rt)?;
    let flushes = counter.flushes();
    let start = Instant::now(rt)?;
    let timed = run_workers(rt, alloc, pool, workers, order, places, start, halt)?;
    let time = in_microseconds(start.elapsed(rt)?);
    let flushes = counter.flushes().saturating_sub(flushes);
    let times = all_times(alloc, timed)?;
    Ok(Measured::of(&times, order.bytes, flushes, time))
}

// Each worker in a thread of its own.
fn run_workers<D: SectorDevice + Send, R: Threads + Wait + Clock + Sync>(
    rt: &R,
    alloc: Global,
    pool: &Pool<D>,
    workers: u32,
    order: BenchOrder,
    places: u64,
    start: Instant,
    halt: &Halt,
) -> Result<Vec<Result<CallTimes, BenchError>>, PoolError> {
    let jobs = (0..workers).collect(alloc)?;
    let timed = map_vec(
        rt,
        jobs,
        &|worker| { run_worker(rt, alloc, pool, worker, order, places, start, halt) },
    )?;
    Ok(timed)
}

fn run_worker<D: SectorDevice, R: Wait + Clock>(
    rt: &R,
    alloc: Global,
    pool: &Pool<D>,
    worker: u32,
    order: BenchOrder,
    places: u64,
    start: Instant,
    halt: &Halt,
) -> Result<CallTimes, BenchError> {
    let mut writer = Writer::new(rt, alloc, pool, Owner(worker), order, places);
    noted(halt, writer.run(start, halt))
}

// Halts the others if a worker was refused. It hands on what the worker returned.
fn noted(halt: &Halt, timed: Result<CallTimes, BenchError>) -> Result<CallTimes, BenchError> {
    match timed {
        Ok(times) => Ok(times),
        Err(error) => {
            let _ = halt.note(Err(PoolError::Suspended));
            Err(error)
        }
    }
}

// How long all calls took; or the first refusal that is not `Suspended`, which only follows from another one; or else
// `Suspended`.
fn all_times(
    alloc: Global,
    timed: Vec<Result<CallTimes, BenchError>>,
) -> Result<CallTimes, BenchError> {
    let mut all = new_times(alloc)?;
    let mut is_suspended = false;
    for timed in timed {
        match timed {
            Ok(times) => all.add(&times),
            Err(BenchError::Refused(PoolError::Suspended)) => is_suspended = true,
            Err(error) => return Err(error),
        }
    }
    if is_suspended {
        return Err(BenchError::Refused(PoolError::Suspended));
    }
    Ok(all)
}

// How many writes side by side have room in an object's part of a device of so many bytes: one at least.
fn places_of(size: u64, order: BenchOrder) -> u64 {
    let room = (size / PARTS)
        .checked_div(order.workers)
        .unwrap_or(0)
        .min(MAX_OBJECT);
    room.checked_div(order.bytes).unwrap_or(0).max(1)
}
