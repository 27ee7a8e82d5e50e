//! What callers rest on of the command `bench`.

ghost use Rattle.std.specs.Prelude.{◌≡◌, ◌++◌, [], List, ℕ, Some, codes};

use crate::bench::run_bench;
use command_arguments::{BenchArguments, BenchOrder, Options, Verbosity};
use file_devices::HeldFile;
use std::io::Write;
use std::os::unix::fs::FileExt;
use std::rt::{Clock, Files};
use std::sync::Wait;
use std::thread::Threads;

const OPTIONS: Options = Options {
    verbosity: Verbosity::Quiet,
    wait: 0,
};

// What a bench of five seconds is asked for.
fn bench_of(size: u64, workers: u64, dirty_max: u64) -> BenchArguments<'static>
    ensures size { result.size ≡ size }
    ensures workers { result.order.workers ≡ workers }
    ensures limit { result.dirty_max ≡ dirty_max }
{
    BenchArguments {
        file: "bench.pool",
        size,
        order: BenchOrder {
            workers,
            bytes: 4_096,
            seconds: 5,
            is_durable: true,
        },
        dirty_max,
    }
}

// A file of less than 6 MiB can hold no pool.
fn a_bench_in_a_small_file_has_status_1<
    R: Files + Threads + Wait + Clock + Sync + AllocGlobal,
    W: Write,
    E: Write,
>(rt: &R, out: &mut W, errors: &mut E) -> u8
where
    R::File: FileExt + HeldFile + Send,
    ensures { result ≡ 1 }
{
    let arguments = bench_of(6_291_455, 4, 4_194_304);
    run_bench(rt, arguments, OPTIONS, out, errors)
}

fn a_bench_by_65_workers_has_status_1<
    R: Files + Threads + Wait + Clock + Sync + AllocGlobal,
    W: Write,
    E: Write,
>(rt: &R, out: &mut W, errors: &mut E) -> u8
where
    R::File: FileExt + HeldFile + Send,
    ensures { result ≡ 1 }
{
    let arguments = bench_of(67_108_864, 65, 4_194_304);
    run_bench(rt, arguments, OPTIONS, out, errors)
}

// The least limit is 4,096 bytes.
fn a_bench_with_a_dirty_limit_of_4095_has_status_1<
    R: Files + Threads + Wait + Clock + Sync + AllocGlobal,
    W: Write,
    E: Write,
>(rt: &R, out: &mut W, errors: &mut E) -> u8
where
    R::File: FileExt + HeldFile + Send,
    ensures { result ≡ 1 }
{
    let arguments = bench_of(67_108_864, 4, 4_095);
    run_bench(rt, arguments, OPTIONS, out, errors)
}

fn a_bench_without_a_worker_prints_nothing<
    R: Files + Threads + Wait + Clock + Sync + AllocGlobal,
    W: Write,
    E: Write,
>(rt: &R, out: &mut W, errors: &mut E) -> u8
where
    R::File: FileExt + HeldFile + Send,
    ensures { W.contents out.new ≡ W.contents out.old }
{
    let arguments = bench_of(67_108_864, 0, 4_194_304);
    run_bench(rt, arguments, OPTIONS, out, errors)
}

// The output had no bytes before.
fn a_bench_prints_its_commits_first<
    R: Files + Threads + Wait + Clock + Sync + AllocGlobal,
    W: Write,
    E: Write,
>(rt: &R, out: &mut W, errors: &mut E) -> u8
where
    R::File: FileExt + HeldFile + Send,
    ensures { result ≡ 0 → W.contents out.old ≡ Some []
        → (rest : List ℕ) × (W.contents out.new ≡ Some (codes "commits " ++ rest)) }
{
    let arguments = bench_of(67_108_864, 4, 4_194_304);
    run_bench(rt, arguments, OPTIONS, out, errors)
}
