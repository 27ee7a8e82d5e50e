//! The command `load`: threads make many small writes on the pool in a file, beside the loops that sync it.
//!
//! 1. It empties the objects 0 to 16. Before that standard error names those of them that have bytes.
//! 2. Nothing is written to the output before all of it has gone well. On a terminal standard error shows how much is
//!    done, in a line that is gone before anything else is written.

ghost use Rattle.std.specs.Prelude.{◌≡◌, ◌≢◌, ◌≤◌, Err, IfErr, IfOk, IsErr, false};
ghost use Rattle.command_arguments.specs.Orders.{is_order};

use crate::gate::Gate;
use crate::order::{Loaded, WRITES_BETWEEN_WAITS};
use crate::workers::load;
use base::{ObjectId, PoolError, Reply};
use command_arguments::{LoadArguments, Order, STREAMS, Verbosity};
use device_model::SectorDevice;
use file_devices::FileRefusal;
use pool_threads::{Limits, Pool};
use read_commands::{BadNumber, Failure, NotesRefusals, ProgressLine, report_failure};
use script_lines::Answer;
use std::alloc::Global;
use std::fmt;
use std::io::{self, Eprint, Write};
use std::sync::Wait;
use std::sync::atomic::{AtomicU64, Ordering};
use std::thread::Threads;

/// How many objects a load empties or makes: those from 0 to the number of its streams.
const LOADED_OBJECTS: usize = STREAMS as usize + 1;

/// Opens the pool on a device, makes the writes of a load on it, writes their number and the digest to `out`, and
/// returns the exit status. The load empties the objects 0 to 16: those of them that have bytes are named on `errors`
/// before.
///
/// The status is 0 if all was written. It is 1 if the order is outside its limits, which is tested before the device is
/// called, or if the engine refused a step. It is 3 if the file was not opened as a device or `out` can't be written. A
/// failure is reported on `errors`, and then nothing is written to `out`. With `shows_progress` standard error shows
/// how many percent of the writes are durable while they are made.
pub fn run_load<
    R: Threads + Wait + Sync + Eprint + AllocGlobal,
    D: SectorDevice + NotesRefusals + Send + Drop,
    W: Write,
    E: Write,
>(
    rt: &R,
    arguments: LoadArguments<'_>,
    verbosity: Verbosity,
    opened: Result<D, FileRefusal>,
    shows_progress: bool,
    out: &mut W,
    errors: &mut E,
) -> u8
    ensures unusable { IsErr opened → result ≡ 3 }
    ensures order { IfOk opened (λ _. is_order arguments.entry.order ≡ false → result ≡ 1) }
    ensures range { result ≤ 3 }
    ensures no_usage { result ≢ 2 }
{
    match load_pool(rt, arguments, opened, shows_progress, out, errors) {
        Ok(()) => 0,
        Err(failure) => report_failure(failure, arguments.file, verbosity, errors),
    }
}

fn load_pool<
    R: Threads + Wait + Sync + Eprint + AllocGlobal,
    D: SectorDevice + NotesRefusals + Send + Drop,
    W: Write,
    E: Write,
>(
    rt: &R,
    arguments: LoadArguments<'_>,
    opened: Result<D, FileRefusal>,
    shows_progress: bool,
    out: &mut W,
    errors: &mut E,
) -> Result<(), Failure>
    ensures unusable { IfErr opened (λ cause. result ≡ Err (Failure.Unusable cause)) }
    ensures order { IfOk opened (λ _. is_order arguments.entry.order ≡ false
        → result ≡ Err (Failure.Refused PoolError.BadRange)) }
{
    let device = match opened {
        Ok(device) => device,
        Err(cause) => return Err(Failure::Unusable(cause)),
    };
    if !arguments.order.is_allowed() {
        return Err(Failure::Refused(PoolError::BadRange));
    }
    let alloc = rt.alloc();
    let limits = Limits {
        dirty_max: arguments.dirty_max,
        cache_blocks: arguments.cache_blocks,
    };
    let opened = Pool::open(alloc, device, limits, arguments.moment);
    let pool = match opened {
        Ok(pool) => pool,
        Err((refusal, device)) => {
            let number = BadNumber::of_limits(limits.dirty_max, limits.cache_blocks);
            return Err(Failure::of_pool(refusal, &device).for_number(number));
        }
    };
    match report_emptied(rt, &pool, errors) {
        Ok(()) => {}
        Err(refusal) => return Err(Failure::of_closed(
            refusal,
            &pool.close().map(|state| state.into_device()),
        )),
    }
    let line = ProgressLine::new(rt, shows_progress);
    let progress = Progress::new(&line, arguments.order);
    let loaded = load(rt, alloc, &pool, arguments.order, &progress);
    line.clear();
    let loaded = match loaded {
        Ok(loaded) => loaded,
        Err(refusal) => return Err(Failure::of_closed(
            refusal,
            &pool.close().map(|state| state.into_device()),
        )),
    };
    match write_loaded(&loaded, out) {
        Ok(()) => Ok(()),
        Err(_) => Err(Failure::Unwritten),
    }
}

// Reports which of the objects that a load empties have bytes.
fn report_emptied<R: Wait, D: SectorDevice, E: Write>(
    rt: &R,
    pool: &Pool<D>,
    errors: &mut E,
) -> Result<(), PoolError> {
    let objects = pool.handle().objects(rt, ObjectId(0), LOADED_OBJECTS)?;
    for object in &objects {
        let (number, length) = (object.0.0, object.1);
        if number <= STREAMS && length != 0 {
            let _ = writeln!(
                errors,
                "ztxg: object {number} has {length} bytes, which the load replaces"
            );
        }
    }
    Ok(())
}

fn write_loaded<W: Write>(loaded: &Loaded, out: &mut W) -> io::Result<()> {
    writeln!(out, "committed {}", loaded.committed)?;
    writeln!(out, "{}", Answer::Reply(Reply::Digest(loaded.digest)))
}

/// Shows in a line how much of a load is durable.
#[derive(Drop)]
struct Progress<'a, R: Eprint> {
    line: &'a ProgressLine<'a, R>,
    // the waits of all streams, and those that ended
    total: u64,
    reported: AtomicU64,
}

impl<'a, R: Eprint> Progress<'a, R> {
    fn new(line: &'a ProgressLine<'a, R>, order: Order) -> Self {
        Progress {
            line,
            total: u64::from(STREAMS) * u64::from(order.writes / WRITES_BETWEEN_WAITS),
            reported: AtomicU64::new(0),
        }
    }
}

impl<R: Eprint> Gate for Progress<'_, R> {
    fn at(&self, _stream: u32) {}

    fn acknowledged(&self, _stream: u32, _writes: u32) {
        if !self.line.is_shown() {
            return;
        }
        let before = self.reported.fetch_add(1, Ordering::SeqCst);
        let percent = percent_of(before.saturating_add(1), self.total);
        if percent != percent_of(before, self.total) {
            self.line.write(&DurablePart { percent });
        }
    }
}

/// How many percent of the writes are durable. As text it says so.
#[derive(Clone, Copy)]
struct DurablePart {
    percent: u64,
}

impl fmt::Display for DurablePart {
    fn fmt<W: fmt::Write>(&self, f: &mut fmt::Formatter<W>) -> fmt::Result {
        write!(f, "{} percent of the writes are durable", self.percent)
    }
}

fn percent_of(part: u64, total: u64) -> u64 {
    match part.saturating_mul(100).checked_div(total) {
        Some(percent) => percent,
        None => 100,
    }
}
