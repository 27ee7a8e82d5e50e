//! The command `serve`: it answers frames of requests to the pool in a file, so that programs in other languages use
//! the engine. The loops that sync the pool run beside it, each in a thread of its own.

ghost use Rattle.std.specs.Prelude.{◌≡◌, ◌≢◌, ◌≤◌, Err, IfErr, IfOk, IfSome, IsErr, IsOk, IsSome, Ok};
ghost use Rattle.running_pools.specs.LeftDevices.{Closes, LosesNothing};
ghost use Rattle.serving.specs.Serving.{GivesOrRefuses, IsUnopened, OpensOn, ServesAndCloses, ServesAndLeaves, ServesOrRefuses, opening_of};
ghost use Rattle.frames.specs.Openings.{bytes_of_opening};
ghost use Rattle.pool_threads.specs.Handles.{opened_in, shared_of};

use crate::inputs::{Ending, serve};
use crate::sink::AnswerWriter;
use crate::unopened::{write_opening, write_unopened};
use base::PoolError;
use command_arguments::{ServeArguments, Verbosity};
use device_model::SectorDevice;
use file_devices::FileRefusal;
use pool_threads::{LastSeen, Limits, Pool};
use read_commands::{BadNumber, Failure, NotesRefusals, report_failure};
use running_pools::{Halt, close, close_after, work_beside_loops};
use script_lines::FAILED;
use std::alloc::Global;
use std::io::{Read, Write};
use std::sync::Wait;
use std::thread::Threads;

/// Opens the pool on a device, says so by a frame, answers the frames of the input until it ends, syncs the pool, and
/// returns the exit status, and the input and the output as they are then.
///
/// The first frame on the output says that the pool is open, or why it isn't. The status is 0 if the input ended after a
/// whole frame, or after none, and the pool was synced. It is 1 if the engine refused to open or to sync the pool, and 3
/// if the file was not opened as a device, if the input can't be read or ends within a frame, or if the output can't be
/// written. A failure is reported on `errors`. What was answered is made, whatever the status. Only frames that stand
/// whole in the input are made, from its beginning and in order, and the output has a front of the answers. If no
/// threads can be made for the loops, the input and the output are dropped.
pub fn run_serve<
    R: Threads + Wait + Sync + AllocGlobal,
    D: SectorDevice + NotesRefusals + Send + Drop,
    I: Read + Drop,
    O: Write + Drop,
    E: Write,
>(
    rt: &R,
    arguments: ServeArguments<'_>,
    verbosity: Verbosity,
    opened: Result<D, FileRefusal>,
    input: I,
    output: O,
    errors: &mut E,
) -> (u8, Option<(I, O)>)
    ensures unusable { IsErr opened → result.0 ≡ 3 }
    ensures served { IfSome result.1 (λ kept.
        ServesOrRefuses D.SectorDevice opened arguments.entry result.0
        (record { input = I.remaining input; output = O.contents output })
        (record { input = I.remaining kept.0; output = O.contents kept.1 })) }
    ensures kept { result.0 ≡ 0 → IsSome result.1 }
    ensures range { result.0 ≤ 3 }
    ensures no_usage { result.0 ≢ 2 }
{
    match opened {
        Ok(device) => {
            let (status, kept, _) = serve_on(
                rt, arguments, verbosity, device, input, output, errors,
            );
            (status, kept)
        }
        Err(cause) => {
            let mut output = output;
            let failure = Failure::Unusable(cause);
            write_unopened(rt.alloc(), &failure, &mut output);
            let status = report_failure(failure, arguments.file, verbosity, errors);
            (status, Some((input, output)))
        }
    }
}

/// Serves the pool on a device as `run_serve` does. It returns the exit status, the input and the output as they are
/// then, and the device, with the pool closed.
///
/// With status 0 an import of whatever a crash leaves of the device has all that was answered. With any status nothing
/// is lost that was durable. The device is lost, with another status than 0, only if a thread was stopped while it had
/// the pool.
pub fn serve_on<
    R: Threads + Wait + Sync + AllocGlobal,
    D: SectorDevice + NotesRefusals + Send + Drop,
    I: Read + Drop,
    O: Write + Drop,
    E: Write,
>(
    rt: &R,
    arguments: ServeArguments<'_>,
    verbosity: Verbosity,
    device: D,
    input: I,
    output: O,
    errors: &mut E,
) -> (u8, Option<(I, O)>, Option<D>)
    ensures served { IfSome result.1 (λ kept.
        GivesOrRefuses D.SectorDevice device arguments.entry result.0
        (record { input = I.remaining input; output = O.contents output })
        (record { input = I.remaining kept.0; output = O.contents kept.1 }) result.2) }
    ensures kept { result.0 ≡ 0 → IsSome result.1 }
    ensures still_held { IfSome result.2 (LosesNothing D.SectorDevice device) }
    ensures range { result.0 ≤ 3 }
    ensures no_usage { result.0 ≢ 2 }
{
    let alloc = rt.alloc();
    let mut output = output;
    let pool = match open_pool(alloc, arguments, device) {
        Ok(pool) => pool,
        Err((failure, device)) => {
            write_unopened(alloc, &failure, &mut output);
            let status = report_failure(failure, arguments.file, verbosity, errors);
            return (status, Some((input, output)), Some(device));
        }
    };
    let (served, kept, device) = serve_pool(rt, alloc, pool, input, output);
    let status = report_served(served, arguments.file, verbosity, errors);
    (status, kept, device)
}

// Opens the pool on a device.
fn open_pool<D: SectorDevice + NotesRefusals + Drop>(
    alloc: Global,
    arguments: ServeArguments<'_>,
    device: D,
) -> Result<Pool<D>, (Failure, D)>
    ensures opened { IfOk result (λ pool.
        OpensOn D.SectorDevice device arguments.entry pool) }
    ensures refused { IfErr result (λ e.
        IsUnopened D.SectorDevice device arguments.entry e.0) }
    ensures still_held { IfErr result (λ e. LosesNothing D.SectorDevice device e.1) }
{
    let limits = Limits {
        dirty_max: arguments.dirty_max,
        cache_blocks: arguments.cache_blocks,
    };
    match Pool::open(alloc, device, limits, arguments.moment) {
        Ok(pool) => Ok(pool),
        Err((refusal, device)) => {
            let number = BadNumber::of_limits(limits.dirty_max, limits.cache_blocks);
            let failure = Failure::of_pool(refusal, &device).for_number(number);
            Err((failure, device))
        }
    }
}

// Reports how a serve ended, unless it ended well, and returns the exit status.
fn report_served<E: Write>(
    served: Result<Ending, Failure>,
    file: &str,
    verbosity: Verbosity,
    errors: &mut E,
) -> u8
    ensures done { result ≡ 0 → served ≡ Ok Ending.Done }
    ensures range { result ≤ 3 }
    ensures no_usage { result ≢ 2 }
{
    match served {
        Ok(ending) => report_ending(ending, file, verbosity, errors),
        Err(failure) => report_failure(failure, file, verbosity, errors),
    }
}

// Reports how the frames ended, unless it was after a whole one, and returns the exit status.
fn report_ending<E: Write>(ending: Ending, file: &str, verbosity: Verbosity, errors: &mut E) -> u8
    ensures done { result ≡ 0 → ending ≡ Ending.Done }
    ensures range { result ≤ 3 }
    ensures no_usage { result ≢ 2 }
{
    match ending {
        Ending::Done => 0,
        Ending::CutOff => {
            let _ = writeln!(errors, "ztxg: the input ended within a frame");
            FAILED
        }
        Ending::ReadFailed | Ending::WriteFailed => FAILED,
        Ending::NoMemory => {
            let failure = Failure::Refused(PoolError::NoMemory);
            report_failure(failure, file, verbosity, errors)
        }
    }
}

// Serves a pool, and closes it. There are no input and no output if no threads can be made.
fn serve_pool<
    R: Threads + Wait + Sync,
    D: SectorDevice + NotesRefusals + Send + Drop,
    I: Read + Drop,
    O: Write + Drop,
>(
    rt: &R,
    alloc: Global,
    pool: Pool<D>,
    input: I,
    output: O,
) -> (Result<Ending, Failure>, Option<(I, O)>, Option<D>)
    ensures served { IfSome result.1 (λ kept. ServesAndCloses (shared_of pool)
        (bytes_of_opening (opening_of (opened_in pool))) result.0
        (record { input = I.remaining input; output = O.contents output })
        (record { input = I.remaining kept.0; output = O.contents kept.1 }) result.2) }
    ensures kept { IsOk result.0 → IsSome result.1 }
    ensures closed { IfSome result.2 (Closes (shared_of pool)) }
    ensures given_back { IsOk result.0 → IsSome result.2 }
{
    let (served, kept) = serve_beside_loops(rt, alloc, &pool, input, output);
    match kept {
        Some((input, output, left)) => {
            let device = close_after(pool, left);
            (ended(served, &device), Some((input, output)), device)
        }
        None => {
            let device = close(pool);
            (ended(served, &device), None, device)
        }
    }
}

// How a serve ended whose pool was closed.
fn ended<D: NotesRefusals>(
    served: Result<Ending, PoolError>,
    device: &Option<D>,
) -> Result<Ending, Failure>
    ensures ended { IfOk result (λ ending. served ≡ Ok ending) }
    ensures given_back { IsOk result → IsSome device.now }
{
    match served {
        Ok(ending) => match device {
            Some(_) => Ok(ending),
            None => Err(Failure::Refused(PoolError::Suspended)),
        },
        Err(refusal) => Err(Failure::of_closed(refusal, device)),
    }
}

// Answers the frames beside the loops of the pool, and syncs it. `None` if no threads can be made.
fn serve_beside_loops<
    R: Threads + Wait + Sync,
    D: SectorDevice + Send,
    I: Read + Drop,
    O: Write + Drop,
>(
    rt: &R,
    alloc: Global,
    pool: &Pool<D>,
    input: I,
    output: O,
) -> (Result<Ending, PoolError>, Option<(I, O, LastSeen<D>)>)
    ensures served { IfSome result.1 (λ kept. ServesAndLeaves (shared_of pool.entry.now)
        (bytes_of_opening (opening_of (opened_in pool.entry.now))) result.0
        (record { input = I.remaining input; output = O.contents output })
        (record { input = I.remaining kept.0; output = O.contents kept.1 }) kept.2) }
    ensures kept { IsOk result.0 → IsSome result.1 }
{
    let halt = Halt::new();
    let (worked, looped) = work_beside_loops(rt, pool, &halt, move || {
        serve_kept(rt, alloc, pool, input, output)
    });
    match worked {
        Ok((served, input, output, left)) => {
            (first_refusal(looped, served), Some((input, output, left)))
        }
        Err(refusal) => (Err(refusal), None),
    }
}

// How it ended: the refusal of a loop comes first, unless it only follows from another.
fn first_refusal(
    looped: Result<(), PoolError>,
    served: Result<Ending, PoolError>,
) -> Result<Ending, PoolError>
    ensures { IfOk result (λ ending. served ≡ Ok ending) }
{
    match (looped, served) {
        (Ok(()), served) => served,
        (Err(PoolError::Suspended), Err(refusal)) => Err(refusal),
        (Err(refusal), _) => Err(refusal),
    }
}

// Says that the pool is open. Then it answers the frames of the input by a new handle, and syncs the pool. It hands the
// input and the output back, and what the handle has seen, whatever came of the serve.
fn serve_kept<W: Wait, D: SectorDevice, I: Read + Drop, O: Write + Drop>(
    rt: &W,
    alloc: Global,
    pool: &Pool<D>,
    input: I,
    output: O,
) -> Result<(Result<Ending, PoolError>, I, O, LastSeen<D>), PoolError>
    ensures served { IfOk result (λ kept. ServesAndLeaves (shared_of pool.entry.now)
        (bytes_of_opening (opening_of (opened_in pool.entry.now))) kept.0
        (record { input = I.remaining input; output = O.contents output })
        (record { input = I.remaining kept.1; output = O.contents kept.2 }) kept.3) }
{
    let (mut input, mut output) = (input, output);
    let mut handle = pool.handle();
    match write_opening(alloc, pool, &mut output) {
        Ok(()) => {}
        Err(ending) => return Ok((Ok(ending), input, output, handle.leave())),
    }
    let mut writer = AnswerWriter { output };
    let served = serve(&mut handle, rt, alloc, &mut input, &mut writer);
    Ok((served, input, writer.output, handle.leave()))
}

/// Reports on `errors` that frames are not written to a terminal, and returns the exit status.
pub fn report_terminal<E: Write>(errors: &mut E) -> u8
    ensures { result ≡ 3 }
{
    let _ = writeln!(
        errors,
        "ztxg: standard output is a terminal, and frames are not text"
    );
    FAILED
}
