//! The pool of a bench, in a new file that is there only as long as the bench runs.
//!
//! 1. The file is made new: one that exists is refused by the system's call itself, so nothing of anybody's is written.
//! 2. Once it is made it is removed, whatever comes then. It keeps its name until the end: of a file without a name
//!    some file systems don't write what a flush asks for, which would be timed as if they did.

ghost use Rattle.std.specs.Prelude.{IfOk};
ghost use Rattle.benchmarks.specs.Measured.{HasTimes};

use crate::counted_device::{CountedDevice, FlushCounter};
use crate::measured::{BenchError, Measured};
use crate::workers::measure;
use base::{DEFAULT_CACHE_BLOCKS, PoolError};
use command_arguments::BenchArguments;
use device_model::SectorDevice;
use file_devices::{Access, FileDevice, FileRefusal, HeldFile, SectorFile};
use import_replay::create;
use pool_threads::{Limits, Pool};
use read_commands::{Failure, NotesRefusals};
use std::alloc::Global;
use std::fs::{self, File, OpenFile};
use std::io;
use std::os::unix::fs::FileExt;
use std::rt::{Clock, Files};
use std::sync::Wait;
use std::thread::Threads;

/// The name of a bench's pool.
const NAME: &[u8] = b"bench";

/// Its guid, which nobody asks for.
const GUID: u64 = 1;

/// Its moments.
const MOMENT: u64 = 0;

/// Why nothing was measured.
#[derive(Clone, Copy)]
pub(crate) enum Unmeasured {
    /// The command failed so.
    Failed(Failure),
    /// The system's clock can't be read, for this cause.
    NoClock(io::Error),
}

/// Makes the file, measures in it, and removes it, whatever came of that. It returns the first failure.
pub(crate) fn measure_in_file<R: Files + Threads + Wait + Clock + Sync + AllocGlobal>(
    rt: &R,
    arguments: BenchArguments<'_>,
) -> Result<Measured, Unmeasured>
where
    R::File: FileExt + HeldFile + Send,
    ensures { IfOk result (HasTimes arguments.entry.order.bytes) }
{
    let file = match make_file(rt, arguments.file) {
        Ok(file) => file,
        Err(cause) => return Err(refused_by_system(cause)),
    };
    let measured = measure_on_file(rt, file, arguments);
    let removed = fs::remove_file(rt, arguments.file);
    match (measured, removed) {
        (Ok(measured), Ok(())) => Ok(measured),
        (Err(unmeasured), _) => Err(unmeasured),
        (_, Err(cause)) => Err(refused_by_system(cause)),
    }
}

fn refused_by_system(cause: io::Error) -> Unmeasured {
    Unmeasured::Failed(Failure::Unusable(FileRefusal::System(cause)))
}

// Makes a file at a path where there is nothing.
fn make_file<R: Files>(files: &R, path: &str) -> io::Result<R::File> {
    let mut how = File::options();
    how.read(true).write(true).create_new(true);
    how.open(files, path)
}

// Gives a new file its size and measures on it. The file is closed then.
fn measure_on_file<
    F: SectorFile + HeldFile + OpenFile + Send + Drop,
    R: Threads + Wait + Clock + Sync + AllocGlobal,
>(rt: &R, file: F, arguments: BenchArguments<'_>) -> Result<Measured, Unmeasured>
    ensures { IfOk result (HasTimes arguments.entry.order.bytes) }
{
    match file.set_len(arguments.size) {
        Ok(()) => {}
        Err(cause) => return Err(refused_by_system(cause)),
    }
    match FileDevice::hold(file, Access::Write) {
        Ok(device) => measure_on(rt, device, arguments),
        Err(cause) => Err(Unmeasured::Failed(Failure::Unusable(cause))),
    }
}

// Makes a pool on a device, opens it, and measures on it.
fn measure_on<
    D: SectorDevice + NotesRefusals + Send + Drop,
    R: Threads + Wait + Clock + Sync + AllocGlobal,
>(rt: &R, device: D, arguments: BenchArguments<'_>) -> Result<Measured, Unmeasured>
    ensures { IfOk result (HasTimes arguments.entry.order.bytes) }
{
    let alloc = rt.alloc();
    let counter = match FlushCounter::new(alloc) {
        Ok(counter) => counter,
        Err(refusal) => return Err(Unmeasured::Failed(Failure::Refused(refusal))),
    };
    let pool = match make_pool(alloc, device, &counter, arguments.dirty_max) {
        Ok(pool) => pool,
        Err(failure) => return Err(Unmeasured::Failed(failure)),
    };
    let (size, order) = (arguments.size, arguments.order);
    match measure(rt, alloc, &pool, size, order, &counter) {
        Ok(measured) => Ok(measured),
        Err(BenchError::NoClock(cause)) => Err(Unmeasured::NoClock(cause)),
        Err(BenchError::Refused(refusal)) => Err(Unmeasured::Failed(refused_by(refusal, pool))),
    }
}

// Makes a pool on a device, and opens it. Its flushes are counted from then on.
fn make_pool<D: SectorDevice + NotesRefusals + Drop>(
    alloc: Global,
    device: D,
    counter: &FlushCounter,
    dirty_max: u64,
) -> Result<Pool<CountedDevice<D>>, Failure> {
    let counter = counter.share()?;
    let device = match create(device, NAME, GUID, MOMENT) {
        Ok(device) => device,
        Err((refusal, device)) => return Err(Failure::of_pool(refusal, &device)),
    };
    let counted = CountedDevice::new(device, counter);
    let limits = Limits {
        dirty_max,
        cache_blocks: DEFAULT_CACHE_BLOCKS,
    };
    match Pool::open(alloc, counted, limits, MOMENT) {
        Ok(pool) => Ok(pool),
        Err((refusal, device)) => Err(Failure::of_pool(refusal, &device.into_device())),
    }
}

// Why the pool refused to be measured. It is closed.
fn refused_by<D: SectorDevice + NotesRefusals + Drop>(
    refusal: PoolError,
    pool: Pool<CountedDevice<D>>,
) -> Failure {
    let device = pool.close().map(|state| state.into_device().into_device());
    Failure::of_closed(refusal, &device)
}
