//! The command `bench`: it times commits on a pool of its own in a new file (`new_pool.rt`).
//!
//! 1. The numbers are tested before the file is made.
//! 2. Nothing is written to the output before the file is removed.

ghost use Rattle.std.specs.Prelude.{◌≡◌, ◌≢◌, ◌≤◌, false};
ghost use Rattle.base.specs.formats.Geometry.{is_geometry};
ghost use Rattle.base.specs.kept.Imports.{is_dirty_max_allowed};
ghost use Rattle.command_arguments.specs.Benches.{is_bench_order};
ghost use Rattle.read_commands.specs.Failures.{sector_bytes};
ghost use Rattle.benchmarks.specs.Printed.{PrintsMeasured};

use crate::bad_bench::BadBench;
use crate::lines::write_measured;
use crate::new_pool::{Unmeasured, measure_in_file};
use command_arguments::{BenchArguments, Options, Verbosity};
use file_devices::HeldFile;
use read_commands::{Failure, report_failure, report_refusal};
use script_lines::FAILED;
use std::io::{self, Write};
use std::os::unix::fs::FileExt;
use std::rt::{Clock, Files};
use std::sync::Wait;
use std::thread::Threads;

/// Makes a pool in a new file, times commits on it, removes the file, writes what was measured to `out`, a line each,
/// and returns the exit status.
///
/// The status is 0 if all was written. It is 1 if a number is outside its limits, and then no file is made, or if the
/// engine refused a call. It is 3 if the file can't be made, used or removed, if the clock can't be read, or if `out`
/// can't be written. A file that is there already can't be used, and is left as it is. A failure is reported on
/// `errors`. Nothing is written to `out` before the file is removed.
pub fn run_bench<R: Files + Threads + Wait + Clock + Sync + AllocGlobal, W: Write, E: Write>(
    rt: &R,
    arguments: BenchArguments<'_>,
    options: Options,
    out: &mut W,
    errors: &mut E,
) -> u8
where
    R::File: FileExt + HeldFile + Send,
    ensures size { is_geometry (sector_bytes arguments.entry.size) ≡ false → result ≡ 1 }
    ensures order { is_bench_order arguments.entry.order ≡ false → result ≡ 1 }
    ensures limit { is_dirty_max_allowed arguments.entry.dirty_max ≡ false → result ≡ 1 }
    ensures measured { result ≡ 0 → PrintsMeasured arguments.entry.order.bytes
        (W.contents out.old) (W.contents out.new) }
    ensures unprinted { result ≡ 1 → W.contents out.new ≡ W.contents out.old }
    ensures range { result ≤ 3 }
    ensures no_usage { result ≢ 2 }
{
    let verbosity = options.verbosity;
    if let Some(number) = BadBench::of(&arguments) {
        return report_refusal(number.refusal(), &number, verbosity, errors);
    }
    match measure_in_file(rt, arguments) {
        Ok(measured) => match write_measured(&measured, out) {
            Ok(()) => 0,
            Err(_) => report_failure(Failure::Unwritten, arguments.file, verbosity, errors),
        },
        Err(Unmeasured::Failed(failure)) => {
            report_failure(failure, arguments.file, verbosity, errors)
        }
        Err(Unmeasured::NoClock(cause)) => report_clock(&cause, verbosity, errors),
    }
}

// Reports on `errors` that the system's clock can't be read, and the cause unless it is to be quiet. Returns the exit
// status.
fn report_clock<E: Write>(cause: &io::Error, verbosity: Verbosity, errors: &mut E) -> u8
    ensures { result ≡ 3 }
{
    let _ = writeln!(errors, "ztxg: the clock can't be read");
    if matches!(verbosity, Verbosity::WithCause) {
        let _ = writeln!(errors, "ztxg: cause: {cause}");
    }
    FAILED
}
