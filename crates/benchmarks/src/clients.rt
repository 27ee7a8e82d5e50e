//! What callers rest on: one function for each promise of this crate's calls, proved from the contract of the call
//! alone. So it is refused as soon as that contract says less.

mod command;

ghost use Rattle.std.specs.Prelude.{◌≡◌, ◌+◌, ◌-◌, ◌*◌, ◌<◌, ◌≤◌, ◌^◌, List, ℕ, [], ◌∷◌, Err, IfErr, IfOk, length, min};
ghost use Rattle.base.specs.formats.Geometry.{sector_size};
ghost use Rattle.benchmarks.specs.CallTimes.{calls_below, longest_in};

use crate::call_times::CallTimes;
use crate::counted_device::{CountedDevice, FlushCounter};
use crate::measured::{BenchError, Measured};
use crate::workers::measure;
use base::PoolError;
use command_arguments::BenchOrder;
use device_model::SectorDevice;
use pool_threads::Pool;
use std::alloc::{AllocError, Global};
use std::rt::Clock;
use std::sync::Wait;
use std::thread::Threads;

// The bytes of the device of each pool here.
const SIZE: u64 = 67_108_864;

// Half of the calls took at most the middle.
fn half_of_the_calls_take_no_longer_than_the_middle(times: &CallTimes) -> u64
    requires { 0 < length times.now }
    ensures { length times.now ≤ 2 * calls_below (result + 1) times.now }
{
    times.middle()
}

// 99 of 100 calls took at most the 99th percentile.
fn one_call_of_100_takes_longer_than_the_99th_percentile(times: &CallTimes) -> u64
    requires { 0 < length times.now }
    ensures { 99 * length times.now ≤ 100 * calls_below (result + 1) times.now }
{
    times.percentile_99()
}

// So no percentile that is printed is above the longest call.
fn no_percentile_is_above_the_longest_call(times: &CallTimes) -> u64 {
    let (middle, most, longest) = (times.middle(), times.percentile_99(), times.longest());
    prove!(middle <= longest);
    prove!(most <= longest);
    longest
}

// The middle of three short calls is the time of the second, whatever their order.
fn the_middle_of_5_9_and_7_is_7(times: &mut CallTimes) -> u64
    requires { times.old ≡ [] }
    ensures { result ≡ 7 }
{
    times.note(5);
    times.note(9);
    times.note(7);
    times.middle()
}

// The longest call is told, also if it is another's.
fn the_longest_call_is_told(times: &mut CallTimes, others: &CallTimes) -> u64
    requires one { times.old ≡ 40 ∷ 7 ∷ [] }
    requires other { others.now ≡ 5 ∷ 1000000 ∷ [] }
    ensures { result ≡ 1000000 }
{
    times.add(others);
    times.longest()
}

// Each call that is noted or added counts.
fn all_calls_count(times: &mut CallTimes, others: &CallTimes) -> u64
    requires one { times.old ≡ 40 ∷ 7 ∷ [] }
    requires other { others.now ≡ 5 ∷ 1000000 ∷ [] }
    ensures { result ≡ 5 }
{
    times.add(others);
    times.note(8);
    times.calls()
}

// At first there is no call.
fn no_call_is_there_at_first(alloc: Global) -> Result<u64, AllocError> {
    let times = CallTimes::new(alloc)?;
    let calls = times.calls();
    prove!(calls == 0);
    Ok(calls)
}

fn a_thousand_commits_in_two_seconds_are_500_in_one(measured: &Measured) -> u64
    requires commits { measured.now.commits ≡ 1000 }
    requires time { measured.now.time ≡ 2000000 }
    ensures { result ≡ 500 }
{
    measured.commits_per_second()
}

fn four_million_bytes_in_two_seconds_are_two_million_in_one(measured: &Measured) -> u64
    requires bytes { measured.now.bytes ≡ 4000000 }
    requires time { measured.now.time ≡ 2000000 }
    ensures { result ≡ 2000000 }
{
    measured.bytes_per_second()
}

// No time counts as a microsecond.
fn three_flushes_in_no_time_are_three_million_in_a_second(measured: &Measured) -> u64
    requires flushes { measured.now.flushes ≡ 3 }
    requires time { measured.now.time ≡ 0 }
    ensures { result ≡ 3000000 }
{
    measured.flushes_per_second()
}

// What a bench of five seconds by so many workers is asked for.
fn five_seconds_by(workers: u64) -> BenchOrder
    ensures workers { result.workers ≡ workers }
    ensures bytes { result.bytes ≡ 4096 }
    ensures seconds { result.seconds ≡ 5 }
{
    BenchOrder {
        workers,
        bytes: 4_096,
        seconds: 5,
        is_durable: true,
    }
}

fn a_bench_without_a_worker_is_refused<D: SectorDevice + Send, R: Threads + Wait + Clock + Sync>(
    rt: &R,
    alloc: Global,
    pool: &Pool<D>,
    counter: &FlushCounter,
) -> Result<Measured, BenchError>
    ensures { result ≡ Err (BenchError.Refused PoolError.BadRange) }
{
    measure(rt, alloc, pool, SIZE, five_seconds_by(0), counter)
}

fn a_bench_by_65_workers_is_refused<D: SectorDevice + Send, R: Threads + Wait + Clock + Sync>(
    rt: &R,
    alloc: Global,
    pool: &Pool<D>,
    counter: &FlushCounter,
) -> Result<Measured, BenchError>
    ensures { result ≡ Err (BenchError.Refused PoolError.BadRange) }
{
    measure(rt, alloc, pool, SIZE, five_seconds_by(65), counter)
}

// Its pool has a counted device, which goes to each worker's thread.
fn the_bytes_are_those_of_the_commits<D: SectorDevice + Send, R: Threads + Wait + Clock + Sync>(
    rt: &R,
    alloc: Global,
    pool: &Pool<CountedDevice<D>>,
    counter: &FlushCounter,
) -> Result<Measured, BenchError>
    ensures { IfOk result (λ m. m.bytes ≡ min (m.commits * 4096) (2 ^ 64 - 1)) }
{
    measure(rt, alloc, pool, SIZE, five_seconds_by(4), counter)
}

// The call took the longest time of those of the commits.
fn the_longest_call_is_one_of_those_that_count<
    D: SectorDevice + Send,
    R: Threads + Wait + Clock + Sync,
>(rt: &R, alloc: Global, pool: &Pool<D>, counter: &FlushCounter) -> Result<Measured, BenchError>
    ensures { IfOk result (λ m. (times : List ℕ) × (length times ≡ m.commits)
        × (m.longest ≡ longest_in times)) }
{
    measure(rt, alloc, pool, SIZE, five_seconds_by(4), counter)
}

fn the_device_that_is_counted_comes_back<D: SectorDevice>(device: D, counter: FlushCounter) -> D
    ensures { result ≡ device }
{
    CountedDevice::new(device, counter).into_device()
}

// Counting changes no device: it has the sectors of the other one.
fn a_counted_device_has_the_sectors_of_the_device<D: SectorDevice + Drop>(
    device: D,
    counter: FlushCounter,
) -> u64
    ensures { sector_size * result ≡ D.size device }
{
    CountedDevice::new(device, counter).sectors()
}

// A counter can't be had, or not be shared, only if there is no memory.
fn a_counter_lacks_only_memory(alloc: Global) -> Result<FlushCounter, PoolError>
    ensures { IfErr result (λ e. e ≡ PoolError.NoMemory) }
{
    FlushCounter::new(alloc)?.share()
}
